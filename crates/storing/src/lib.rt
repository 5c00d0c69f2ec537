// U lines: where the body ends, its first run, and storing it.
#![tactic(auto)]

ghost use Rattle.std.specs.Prelude.{◌≡◌, true, ◌≤◌, ◌<◌, ◌+◌, length, drop, IfOk, IfSome};
ghost use Rattle.aries.specs.Bodies.{is_own_close, body_size, runs_first, first_run, with_stored, open_body};
ghost use Rattle.aries.specs.Runs.{lent_both, leaving, Carried};
ghost use Rattle.bodies.specs.Stored.{body_of};
ghost use Rattle.aries.specs.Setup.{ordinary_frame};
ghost use Rattle.aries.specs.Steady.{GivenNear};
ghost use Rattle.aries.specs.Judging.{near};
ghost use Rattle.aries.specs.Text.{lines};
ghost use Rattle.text.specs.Lines.{line_at};
ghost use Rattle.storing.specs.Marks.{marks};
ghost use Rattle.storing.specs.Opening.{Opens};

use aries::block::{Block, Layout, Outside};
use aries::location::Location;
use aries::macros::{Macros, StoredBody};
use aries::reader::Reader;
use aries::refusal::{Refusal, Refused};
use aries::setup::Setup;
use aries::state::Progress;
use bodies::{Body, FURTHER_CALLS, Stored, run_blocks};
use stretches::Lines;
use tallies::FIGURES;

// The most characters that stored bodies may have.
const MOST_CHARACTERS: usize = 3_100;

// The last macro that runs when it is stored.
const LAST_RUN: u8 = 59;

// Whether the line at a place is the V line of a macro.
#[tactic(auto, using(crate::proofs::Closing::own_decoded))]
fn is_own_close(reader: Reader, number: u8, text: &[u8], at: usize) -> bool
    ensures { result ≡ is_own_close reader number (line_at text.now at) }
{
    let Ok((instruction, _)) = decode::decode(reader, text, at) else {
        return false;
    };
    let Block::Outside(Outside::Close(closed)) = instruction.block else {
        return false;
    };
    closed == number
}

// Whether a line that starts with a byte is a U or V line.
fn is_mark(first: u8) -> bool
    ensures { result ≡ marks first }
{
    matches!(first, b'U' | b'V')
}

// The bytes from a place of the text to the next U or V line, if that is the V line of a macro.
fn body_size(reader: Reader, number: u8, text: &[u8], from: usize) -> Option<usize>
    ensures found { result ≡ body_size reader number (lines (drop from text.now)) }
    ensures inside { IfSome result (λ size. from + size < length text.now) }
{
    let mut at = from;
    // line by line: split would give the lines, but not their places
    while let Some(&first) = text.get(at) {
        if is_mark(first) {
            return is_own_close(reader, number, text, at).then_some(at - from);
        }
        at = text::line_end(text, at) + 1;
    }
    None
}

// Whether a macro runs when it is stored.
fn runs_first(number: u8, sheet: Option<Layout>) -> bool
    ensures { result ≡ runs_first number sheet }
{
    sheet.is_none() && number <= LAST_RUN
}

// The first run of a body that is being stored, where there is one. What was stored before is what its calls find.
fn first_run(
    list: &mut [i32],
    tally: &mut [u64; FIGURES],
    number: u8,
    body: Body,
    setup: Setup,
    stored: Stored,
    progress: &mut Progress,
) -> Result<(), Refused>
    requires line_fits { body.line ≤ 65535 }
    requires origin_value { (near setup.origin ≡ true) × (GivenNear progress.old.state) }
    ensures { Carried (leaving result progress.new) (ordinary_frame setup) (lent_both list.old tally.old) (lent_both list.new tally.new) progress.old (λ j. first_run j stored.entry.text.now stored.entry.macros.now number (body_of body.entry) setup) }
{
    if !runs_first(number, setup.sheet) {
        return Ok(());
    }
    let frame = setup.frame();
    run_blocks(
        FURTHER_CALLS,
        list,
        tally,
        stored,
        body.bytes,
        body.start(),
        frame,
        progress,
    )
}

// The U line of a macro: its body starts at a place of the text, behind the U line, whose number goes with the place.
pub fn open_body(
    list: &mut [i32],
    tally: &mut [u64; FIGURES],
    text: &[u8],
    number: u8,
    start: Location,
    setup: Setup,
    macros: &mut Macros,
    progress: &mut Progress,
) -> Result<(), Refused>
    requires text_len_bound { (length text.now ≤ 60000) × (start.line < 65535) }
    requires origin_value { (near setup.origin ≡ true) × (GivenNear progress.old.state) }
    ensures opens { Opens (leaving result (with_stored macros.new progress.new)) setup.job (lent_both list.old tally.old) (lent_both list.new tally.new) (with_stored macros.old progress.old) (λ j. open_body j text.now number start.offset start.line (lines (drop start.offset text.now)) setup) }
    ensures given_near { IfOk result (λ u. GivenNear progress.new.state) }
{
    let reader = setup.frame().reader_of(&progress.state);
    let unclosed = Refusal::NotClosed.at(start.line);
    let size = body_size(reader, number, text, start.offset).ok_or(unclosed)?;
    let end = start.offset + size;
    let first_line = start.line + 1;
    let place = StoredBody {
        // all three fit: the text has 60,000 bytes at most
        start: start.offset as u16,
        end: end as u16,
        line: first_line as u16,
    };
    let kept = macros.storing(number, place);
    if MOST_CHARACTERS < kept.characters() {
        return Err(Refusal::StoreFull.at(start.line));
    }
    let body = Body {
        bytes: &text[start.offset..end],
        line: first_line,
    };
    let stored = Stored { text, macros };
    first_run(list, tally, number, body, setup, stored, progress)?;
    *macros = kept;
    Ok(())
}
