// From the bytes of a line to what its block asks for: refusals 4, 5 and 6.
#![tactic(auto)]

ghost use Rattle.std.specs.Prelude.{◌≡◌};
ghost use Rattle.decode.specs.Decoding.{decoded_at};

use aries::block::Instruction;
use aries::reader::Reader;
use aries::refusal::Refusal;
use blocks::request::block_of;
use words::Line;

// The instruction of the line at a place of the text, with the place where the line ends, or its refusal.
pub fn decode(reader: Reader, text: &[u8], at: usize) -> Result<(Instruction, usize), Refusal>
    ensures { result ≡ decoded_at reader text.now at }
{
    let mut line = Line::none();
    let end = line.read(text, at).map_err(|_| Refusal::WordForm)?;
    let (kind, measure) = blocks::judge(reader, &mut line)?;
    let block = block_of(&line.words, kind);
    Ok((Instruction { measure, block }, end))
}
