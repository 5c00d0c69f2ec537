// From the words of a block to what it asks for: its kind, refusals 5 and 6, and the block of its kind.
#![tactic(auto)]

ghost use Rattle.std.specs.Prelude.{◌≡◌};
ghost use Rattle.blocks.specs.Decoding.{judged_of, line_left};
ghost use Rattle.lengths.specs.Sized.{Sized};

use aries::block::{Kind, Measure};
use aries::reader::Reader;
use aries::refusal::Refusal;
use words::Line;

pub mod kind; // codes
pub mod letters; // refusal 5
pub mod numbers; // refusal 6
pub mod request; // what a block asks for

// The kind of a block and its G90 or G91, or refusal 5 or 6. Past 5 its lengths and angles are put into hundredths.
pub fn judge(reader: Reader, line: &mut Line) -> Result<(Kind, Option<Measure>), Refusal>
    requires { Sized line.old.words.letters }
    ensures value { result ≡ judged_of reader line.old }
    ensures left { line.new ≡ line_left reader line.old }
{
    let kind = kind::kind_of(&line.words).ok_or(Refusal::NotListed)?;
    if !letters::is_listed(reader.given, line, kind) {
        return Err(Refusal::NotListed);
    }
    let near = lengths::to_hundredths(reader.setting, &mut line.words, kind);
    if !(near & numbers::is_ranged(&line.words, kind)) {
        return Err(Refusal::WrongNumber);
    }
    Ok((kind, line.words.measure))
}
