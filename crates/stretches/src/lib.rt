// Direct blocks one after another, in a body and outside bodies. List and tally are lent as two here and in the crates above: of a
// struct of two `&mut` each function would also have to say that the references stay, and C lends two arrays.
#![tactic(auto)]

ghost use Rattle.std.specs.Prelude.{◌≡◌, ◌<◌, length, drop};
ghost use Rattle.aries.specs.Judging.{limits};
ghost use Rattle.aries.specs.Reader.{reader_of};
ghost use Rattle.aries.specs.Runs.{lent_both};
ghost use Rattle.aries.specs.Steady.{Steady};
ghost use Rattle.aries.specs.Text.{lines};
ghost use Rattle.stretches.specs.Lookahead.{ahead, LinesFit, Known, Read};
ghost use Rattle.stretches.specs.Stretches.{begun_of, begin_at, left_at, stretch, Stretches};

use crate::direct::carry_direct;
use aries::block::{Block, Call, Instruction, Outside};
use aries::location::Location;
use aries::reader::Reader;
use aries::refusal::{Refusal, Refused};
use aries::state::{Frame, Progress};
use tallies::FIGURES;

pub mod direct; // one direct block

// The most blocks that are carried out.
pub const MOST_BLOCKS: u32 = 100_000;

// The first byte of V lines, which are not counted.
pub const LETTER_V: u8 = b'V';

// A block that is not direct, and where its line ends.
#[derive(Clone, Copy)]
pub enum Sequel {
    Call(Call, Location),
    Outside(Outside, Location),
}

// A block: where its line starts, and what decoding the line answers.
#[derive(Clone, Copy)]
pub struct Ahead {
    pub at: Location,
    pub decoded: Result<(Instruction, usize), Refusal>,
}

// The next block from a place between two lines on, past the line feeds there, decoded; or none.
pub fn look_ahead(reader: Reader, text: &[u8], from: Location) -> Option<Ahead>
    requires { LinesFit from text.now }
    ensures { result ≡ ahead reader text.now from }
{
    let offset = text::next_block(text, from.offset);
    if text.len() <= offset {
        return None;
    }
    let at = Location {
        offset,
        // usize has no From into u64
        line: from.line + ((offset - from.offset) as u64),
    };
    Some(Ahead {
        at,
        decoded: decode::decode(reader, text, offset),
    })
}

// The lines of a text from a place between two of them on, and the first block there, decoded.
#[derive(Clone, Copy)]
pub struct Lines<'a> {
    pub text: &'a [u8],
    pub from: Location,
    pub first: Option<Ahead>,
}

impl<'a> Lines<'a> {
    // Reads the first block.
    pub fn read(reader: Reader, text: &'a [u8], from: Location) -> Lines<'a>
        requires { LinesFit from text.now }
        ensures same_text { result.text.now ≡ text.now }
        ensures same_place { result.from ≡ from }
        ensures read { Read reader result }
    {
        Lines {
            text,
            from,
            first: look_ahead(reader, text, from),
        }
    }
}

// A block of a text begins: it counts, unless its line is a V line, and its G90 or G91 holds. What is answered is the block, and
// where its line ends.
pub fn begin(
    text: &[u8],
    ahead: Ahead,
    progress: &mut Progress,
) -> Result<(Block, Location), Refused>
    requires { ahead.at.offset < length text.now }
    ensures { (f : Frame) → Known (reader_of f progress.old.state) text.now ahead → begun_of result progress.new ≡ begin_at (limits f.job) f text.now ahead.at progress.old }
{
    let line = ahead.at.line;
    let counted = text[ahead.at.offset] != LETTER_V;
    if counted & (MOST_BLOCKS <= progress.blocks) {
        return Err(Refusal::BlocksSpent.at(line));
    }
    let (instruction, offset) = ahead.decoded.map_err(|refusal| refusal.at(line))?;
    *progress = progress.begun(counted, instruction.measure);
    Ok((instruction.block, Location { offset, line }))
}

// The direct blocks of lines: up to a refusal, a block that is not direct or the end of the text. A block that is not direct has begun.
pub fn run_stretch(
    list: &mut [i32],
    tally: &mut [u64; FIGURES],
    source: Lines,
    frame: Frame,
    progress: &mut Progress,
) -> Result<Option<Sequel>, Refused>
    requires read { Read (reader_of frame progress.old.state) source }
    requires steady { Steady 0 frame }
    ensures { Stretches (left_at result progress.new) frame (lent_both list.old tally.old) (lent_both list.new tally.new) progress.old (λ j. stretch j frame source.entry.from (lines (drop source.entry.from.offset source.entry.text.now))) }
{
    let text = source.text;
    let mut next = source.first;
    while let Some(ahead) = next {
        let (block, end) = begin(text, ahead, progress)?;
        match block {
            Block::Direct(direct) => carry_direct(list, tally, frame, end.line, direct, progress)?,
            Block::Call(call) => return Ok(Some(Sequel::Call(call, end))),
            Block::Outside(outside) => return Ok(Some(Sequel::Outside(outside, end))),
        }
        next = look_ahead(frame.reader_of(&progress.state), text, end);
    }
    Ok(None)
}
