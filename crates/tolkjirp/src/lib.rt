// The expander of ARIES punch code: from a program text to its list of entries, hits and stops, and their tally by tool.
#![tactic(auto)]

pub mod exported; // the function that tolkjirp_c exports

ghost use Rattle.std.specs.Prelude.{◌≡◌, ◌++◌, ◌-◌, ◌≤◌, pos, length, take, replicate};
ghost use Rattle.aries.specs.Text.{lines, longest};
ghost use Rattle.aries.specs.Judging.{lending};
ghost use Rattle.aries.specs.Program.{perform, expand};
ghost use Rattle.tolkjirp.specs.Answers.{Accepts, Answers};
ghost use Rattle.tolkjirp.specs.Cleaned.{after_cleaning};

use aries::job::{Job, NUMBERS};
use aries::reader::Setting;
use aries::refusal::{Refusal, Refused};
use aries::setup::Stage;
use program::lines::run_text;
use tallies::FIGURES;

// The most bytes a text may have.
pub const LONGEST: usize = 60_000;

// The most bytes of a short text, and of a tiny one: their buffers are small, since clearing a large one takes time.
const SHORT: usize = 4_096;

const TINY: usize = 256;

// List and tally are lent as two: of a struct of two `&mut` each function would also have to say that the references stay.

// Clears a list from a place on.
fn clear_from(list: &mut [i32], from: usize)
    requires { from ≤ length list.old }
    ensures { list.new ≡ take from list.old ++ replicate (length list.old - from) (pos 0) }
{
    list[from..].fill(0);
}

// The blocks of a text without its spaces; whole is the text with them, whose last line a missing G50 is refused in.
#[tactic(auto, unfolding(aries::specs::Program::perform))]
fn perform(
    setting: Setting,
    list: &mut [i32],
    tally: &mut [u64; FIGURES],
    text: &[u8],
    whole: &[u8],
) -> Result<usize, Refused>
    requires { length text.now ≤ longest }
    ensures { Accepts result list.new tally.new (length list.old) (perform (lending setting (length list.old)) text.now (length (lines whole.now))) }
{
    let job = Job::lending(setting, list.len());
    tallies::clear(tally);
    let left = run_text(job, list, tally, text)?;
    if left.stage != Stage::Ended {
        return Err(Refusal::OutOfPlace.at(text::count_lines(whole)));
    }
    let entries = left.progress.entries;
    clear_from(list, entries * NUMBERS);
    Ok(entries)
}

// A text of a length that is allowed, by way of a buffer of N bytes for those other than spaces.
fn expand_within<const N: usize>(
    setting: Setting,
    text: &[u8],
    list: &mut [i32],
    tally: &mut [u64; FIGURES],
) -> Result<usize, Refused>
    requires fits { length text.now ≤ N }
    requires allowed { N ≤ longest }
    ensures { Accepts result list.new tally.new (length list.old) (after_cleaning setting text.now (length list.old)) }
{
    let mut buffer = [0u8; N];
    let n = text::clean(text, &mut buffer)?;
    perform(setting, list, tally, &buffer[..n], text)
}

// A text, of whatever length.
#[tactic(auto, unfolding(aries::specs::Program::expand))]
fn expand_text(
    setting: i32,
    text: &[u8],
    list: &mut [i32],
    tally: &mut [u64; FIGURES],
) -> Result<usize, Refused>
    ensures { Accepts result list.new tally.new (length list.old) (expand setting text.now (length list.old)) }
{
    let stated = Setting::from(setting);
    match text.len() {
        1..=TINY => expand_within::<TINY>(stated, text, list, tally),
        1..=SHORT => expand_within::<SHORT>(stated, text, list, tally),
        1..=LONGEST => expand_within::<LONGEST>(stated, text, list, tally),
        _ => Err(Refusal::TextLength.at(0)),
    }
}

// Expands a program text, at the decimal point setting that a number states, 0 or any other for 1, into a lent list, four
// numbers an entry: X, Y, tool and mode, and a lent tally, three numbers a tool: its hits, and the first and the last index
// where it stands. What the entries leave of the list is zero, and after a refusal all of list and tally.
#[tactic(auto, unfolding(aries::specs::Program::list_of, aries::specs::Program::tally_for))]
pub fn expand(
    setting: i32,
    text: &[u8],
    list: &mut [i32],
    tally: &mut [u64; FIGURES],
) -> Result<usize, Refused>
    ensures { Answers result list.new tally.new (length list.old) (expand setting text.now (length list.old)) }
{
    let answer = expand_text(setting, text, list, tally);
    if answer.is_err() {
        list.fill(0);
        tallies::clear(tally);
    }
    answer
}
