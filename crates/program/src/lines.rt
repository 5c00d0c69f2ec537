ghost use Rattle.std.specs.Prelude.{◌≡◌, ◌+◌, ◌≤◌, ◌<◌, length, Ok};
ghost use Rattle.aries.specs.declared.block.Block.TheVariants as Block;
ghost use Rattle.aries.specs.declared.block.Outside.TheVariants as Outside;
ghost use Rattle.aries.specs.declared.setup.Stage.TheVariants.{Running, Storing};
ghost use Rattle.aries.specs.Program.{fresh_program, run_from};
ghost use Rattle.aries.specs.Runs.{Lent, lent_both, leaving, Advanced};
ghost use Rattle.aries.specs.Text.{lines};
ghost use Rattle.turns.specs.Turns.{Alone, CalledNear, Near, block_of, left_at};
ghost use Rattle.program.specs.Lines.{InText, Turns, Carries};

use aries::job::Job;
use aries::location::Location;
use aries::refusal::{Refusal, Refused};
use aries::setup::{Program, Stage};
use bodies::{MOST_CALLS, Stored, run_body};
use copies::copy_part;
use storing::open_body;
use stretches::{LETTER_V, Lines, Sequel, begin, look_ahead, run_stretch};
use tallies::FIGURES;
use turns::outside;
use turns::turn::{Called, Next};

// The end of a text, in a line of a number that is of no account.
fn text_end(text: &[u8], from: Location) -> Location
    ensures { result ≡ record { offset = length text.now; line = from.line } }
{
    Location {
        offset: text.len(),
        ..from
    }
}

// The next block before G92 or after G50: 3, 4 to 6, and then its place.
fn run_alone(text: &[u8], from: Location, program: &mut Program) -> Result<Next, Refused>
    requires { (InText text.now from) × (Alone program.old.stage) }
    ensures { (l : Lent) → Turns (left_at result program.new) text.now from program.old l l }
{
    let reader = program.setup.frame().reader_of(&program.progress.state);
    let Some(ahead) = look_ahead(reader, text, from) else {
        return Ok(Next::Line(text_end(text, from)));
    };
    let (block, end) = begin(text, ahead, &mut program.progress)?;
    outside::start(end, block, program)
}

// A line between a U line and its V line is passed over; the V line ends that.
fn pass_over(text: &[u8], from: Location, program: &mut Program) -> Next
    requires in_text { InText text.now from }
    requires storing { program.old.stage ≡ Storing }
    ensures { (l : Lent) → Turns (left_at (Ok result) program.new) text.now from program.old l l }
{
    if text[from.offset] == LETTER_V {
        program.stage = Stage::Running;
    }
    Next::Line(Location {
        offset: text::line_end(text, from.offset) + 1,
        line: from.line + 1,
    })
}

// The direct blocks from a place on, while the program runs, and the block that comes after them.
fn run_on(
    list: &mut [i32],
    tally: &mut [u64; FIGURES],
    text: &[u8],
    from: Location,
    program: &mut Program,
) -> Result<Next, Refused>
    requires in_text { InText text.now from }
    requires running { program.old.stage ≡ Running }
    requires near { Near program.old }
    ensures { Turns (left_at result program.new) text.now from program.old (lent_both list.old tally.old) (lent_both list.new tally.new) }
{
    let frame = program.setup.frame();
    let source = Lines::read(frame.reader_of(&program.progress.state), text, from);
    let sequel = run_stretch(list, tally, source, frame, &mut program.progress)?;
    match sequel {
        None => Ok(Next::Line(text_end(text, from))),
        Some(Sequel::Call(call, end)) => Ok(Next::Run(Called::Macro(call), end)),
        Some(Sequel::Outside(outside, end)) => outside::settle(end, outside, program),
    }
}

// The lines from a place on up to a block that needs the stored bodies, or fewer.
fn run_turn(
    list: &mut [i32],
    tally: &mut [u64; FIGURES],
    text: &[u8],
    from: Location,
    program: &mut Program,
) -> Result<Next, Refused>
    requires in_text { InText text.now from }
    requires near { Near program.old }
    ensures { Turns (left_at result program.new) text.now from program.old (lent_both list.old tally.old) (lent_both list.new tally.new) }
{
    match program.stage {
        Stage::Running => run_on(list, tally, text, from, program),
        Stage::Storing => Ok(pass_over(text, from, program)),
        Stage::Fresh | Stage::Ended => run_alone(text, from, program),
    }
}

// A block that runs stored bodies, in a line that ends at a place. Four calls may be open.
fn run_called(
    list: &mut [i32],
    tally: &mut [u64; FIGURES],
    text: &[u8],
    called: Called,
    end: Location,
    program: &mut Program,
) -> Result<(), Refused>
    requires near { Near program.old }
    requires called_near { CalledNear called }
    ensures { Carries (leaving result program.new) text.now end (block_of called) program.old (lent_both list.old tally.old) (lent_both list.new tally.new) }
{
    let setup = program.setup;
    let stored = Stored {
        text,
        macros: &program.macros,
    };
    let progress = &mut program.progress;
    match called {
        Called::Macro(call) => {
            let frame = setup.frame();
            run_body(
                MOST_CALLS, list, tally, stored, call, end.line, frame, progress,
            )
        }
        Called::Part(copies) => copy_part(list, tally, stored, setup, end.line, copies, progress),
    }
}

// A U line, which ends at a place: its body is stored, and the lines of the body are to be passed over.
fn open(
    list: &mut [i32],
    tally: &mut [u64; FIGURES],
    text: &[u8],
    number: u8,
    end: Location,
    program: &mut Program,
) -> Result<(), Refused>
    requires fits { (length text.now ≤ 60000) × (end.offset ≤ length text.now + 1) × (end.line < 65535) }
    requires near { Near program.old }
    ensures { Carries (leaving result program.new) text.now end (Block.Outside (Outside.Open number)) program.old (lent_both list.old tally.old) (lent_both list.new tally.new) }
{
    let start = Location {
        offset: end.offset + 1,
        ..end
    };
    let setup = program.setup;
    let (macros, progress) = (&mut program.macros, &mut program.progress);
    open_body(list, tally, text, number, start, setup, macros, progress)?;
    program.stage = Stage::Storing;
    Ok(())
}

// A text without spaces, line after line up to the first refusal.
pub fn run_text(
    job: Job,
    list: &mut [i32],
    tally: &mut [u64; FIGURES],
    text: &[u8],
) -> Result<Program, Refused>
    requires { length text.now ≤ 60000 }
    ensures { Advanced result (lent_both list.old tally.old) (lent_both list.new tally.new) (fresh_program job) (λ j. run_from j text.now 0 1 (lines text.now)) }
{
    let mut program = Program::fresh(job);
    let mut from = Location { offset: 0, line: 1 };
    while from.offset < text.len() {
        from = match run_turn(list, tally, text, from, &mut program)? {
            Next::Line(next) => next,
            Next::Run(called, end) => {
                run_called(list, tally, text, called, end, &mut program)?;
                end
            }
            Next::Open(number, end) => {
                open(list, tally, text, number, end, &mut program)?;
                end
            }
        };
    }
    Ok(program)
}
