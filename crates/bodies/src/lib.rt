// Bodies: the blocks of a body, and the calls among them.
#![tactic(auto)]

ghost use Rattle.std.specs.Prelude.{◌≡◌, drop, IfSome};
ghost use Rattle.aries.specs.Macros.{bodies_of, part, call, carry_call, run_lines};
ghost use Rattle.aries.specs.Reader.{reader_of};
ghost use Rattle.aries.specs.Runs.{lent_both, leaving, Carried};
ghost use Rattle.aries.specs.Steady.{CallNear, GivenNear, Steady};
ghost use Rattle.aries.specs.Text.{lines};
ghost use Rattle.stretches.specs.Lookahead.{LinesFit, Read};
ghost use Rattle.bodies.specs.Stored.{found_of};

use crate::calling::{begin_call, end_call, frame_by, part_of};
use aries::block::Call;
use aries::location::Location;
use aries::macros::{Macros, StoredBody};
use aries::refusal::{Refusal, Refused};
use aries::state::{Frame, Progress};
use stretches::{Lines, Sequel, run_stretch};
use tallies::FIGURES;

mod calling; // a block that calls a macro: what its body begins with, and what is left

// The most calls that are open at a time.
pub const MOST_CALLS: u8 = 4;

// The calls that a body may still open when its own is the only one.
pub const FURTHER_CALLS: u8 = 3;

// The bytes of a stored body, a part of the text.
pub fn bytes_of<'a>(text: &'a [u8], body: StoredBody) -> &'a [u8]
    ensures { result.now ≡ part text.now body.start body.end }
{
    let end = usize::from(body.end).min(text.len());
    let start = usize::from(body.start).min(end);
    &text[start..end]
}

// A body: its bytes, a part of the text, and the number of its first line.
#[derive(Clone, Copy)]
pub struct Body<'a> {
    pub bytes: &'a [u8],
    pub line: u64,
}

impl Body<'_> {
    // Where its first line starts.
    pub fn start(self) -> Location
        ensures { result ≡ record { offset = 0; line = self.entry.line } }
    {
        Location {
            offset: 0,
            line: self.line,
        }
    }
}

// What is stored: where the bodies lie, and the text that they lie in.
#[derive(Clone, Copy)]
pub struct Stored<'a> {
    pub text: &'a [u8],
    pub macros: &'a Macros,
}

impl<'a> Stored<'a> {
    // The body of a macro.
    #[tactic(auto, unfolding(aries::specs::Macros::bodies_of))]
    pub fn find(self, number: u8) -> Option<Body<'a>>
        ensures found { found_of result ≡ bodies_of self.entry.text.now self.entry.macros.now number }
        ensures lines_fit { IfSome result (λ body. LinesFit (record { offset = 0; line = body.line }) body.bytes.now) }
    {
        let stored = self.macros.find(number)?;
        Some(Body {
            bytes: bytes_of(self.text, stored),
            line: u64::from(stored.line),
        })
    }
}

// The block runner: lines of a body whose first block has been read, up to the first refusal, with so many calls left to open.
// Direct blocks are carried out as a stretch, a call that comes behind them goes to the body runner, and any other block is out of
// place.
#[cycle(calls)]
pub fn run_source(
    depth: u8,
    list: &mut [i32],
    tally: &mut [u64; FIGURES],
    stored: Stored,
    source: Lines,
    frame: Frame,
    progress: &mut Progress,
) -> Result<(), Refused>
    requires read { Read (reader_of frame progress.old.state) source }
    requires steady { Steady depth frame }
    requires given_near { GivenNear progress.old.state }
    ensures { Carried (leaving result progress.new) frame (lent_both list.old tally.old) (lent_both list.new tally.new) progress.old (λ j. run_lines j (call j (bodies_of stored.entry.text.now stored.entry.macros.now) depth) frame source.entry.from.line (lines (drop source.entry.from.offset source.entry.text.now))) }
{
    let mut rest = source;
    while let Some(sequel) = run_stretch(list, tally, rest, frame, progress)? {
        let (block, end) = match sequel {
            Sequel::Call(block, end) => (block, end),
            Sequel::Outside(_, end) => return Err(Refusal::OutOfPlace.at(end.line)),
        };
        run_body(depth, list, tally, stored, block, end.line, frame, progress)?;
        rest = Lines::read(frame.reader_of(&progress.state), rest.text, end);
    }
    Ok(())
}

// The body runner: a block that calls a macro in a line, with so many calls left to open, this one among them. The body is a part
// of the text, and goes to the block runner.
#[cycle(calls)]
#[tactic(auto, using(crate::proofs::Called::begun_near, aries::proofs::Steady::steady_less))]
pub fn run_body(
    depth: u8,
    list: &mut [i32],
    tally: &mut [u64; FIGURES],
    stored: Stored,
    block: Call,
    line: u64,
    frame: Frame,
    progress: &mut Progress,
) -> Result<(), Refused>
    requires steady { Steady depth frame }
    requires given_near { GivenNear progress.old.state }
    requires call_near { CallNear block }
    ensures { Carried (leaving result progress.new) frame (lent_both list.old tally.old) (lent_both list.new tally.new) progress.old (λ j. carry_call (call j (bodies_of stored.entry.text.now stored.entry.macros.now) depth) frame line block) }
{
    let body = stored
        .find(part_of(block))
        .ok_or(Refusal::NotStored.at(line))?;
    if depth == 0 {
        return Err(Refusal::TooDeep.at(line));
    }
    begin_call(block, frame.origin, progress);
    let inner = frame_by(block, frame, &progress.state);
    let source = Lines::read(inner.reader_of(&progress.state), body.bytes, body.start());
    run_source(depth - 1, list, tally, stored, source, inner, progress)?;
    end_call(block, frame.origin, progress);
    Ok(())
}

// The lines of a body from a place on: the first block is read, and then they go to the block runner.
pub fn run_blocks(
    depth: u8,
    list: &mut [i32],
    tally: &mut [u64; FIGURES],
    stored: Stored,
    body: &[u8],
    from: Location,
    frame: Frame,
    progress: &mut Progress,
) -> Result<(), Refused>
    requires lines_fit { LinesFit from body.now }
    requires steady { Steady depth frame }
    requires given_near { GivenNear progress.old.state }
    ensures { Carried (leaving result progress.new) frame (lent_both list.old tally.old) (lent_both list.new tally.new) progress.old (λ j. run_lines j (call j (bodies_of stored.entry.text.now stored.entry.macros.now) depth) frame from.line (lines (drop from.offset body.now))) }
{
    let source = Lines::read(frame.reader_of(&progress.state), body, from);
    run_source(depth, list, tally, stored, source, frame, progress)
}
