ghost use Rattle.std.specs.Prelude.{◌≡◌};
ghost use Rattle.aries.specs.Moves.{stop};
ghost use Rattle.aries.specs.Runs.{lent, put, leaving, Carried};
ghost use Rattle.press.specs.Entries.{place_for, list_with};

use aries::entry::Entry;
use aries::job;
use aries::job::Job;
use aries::refusal::{Refusal, Refused};
use aries::state::{Frame, Progress};

// Writes an entry at place k of the list, if the list has that place.
fn put_entry(list: &mut [i32], k: usize, entry: Entry)
    ensures { lent list.new ≡ put (lent list.old) k entry }
{
    let numbers = entry.numbers();
    if k < list.len() / job::NUMBERS {
        let at = job::NUMBERS * k;
        list[at] = numbers.x;
        list[at + 1] = numbers.y;
        list[at + 2] = numbers.tool;
        list[at + 3] = numbers.mode;
    }
}

// Makes an entry after so many others, where the list of the job has a place left, or refuses it (17).
pub fn enter(list: &mut [i32], job: Job, entry: Entry, entries: usize) -> Result<(), Refusal>
    ensures { (result ≡ place_for job entries) × (lent list.new ≡ list_with result (lent list.old) entries entry) }
{
    if job.places <= entries {
        return Err(Refusal::ListFull);
    }
    put_entry(list, entries, entry);
    Ok(())
}

// M00, or with optional M01: a stop, which needs no tool and leaves the state as it is.
#[tactic(auto, unfolding(aries::specs::Runs::over))]
pub fn stop(
    list: &mut [i32],
    frame: Frame,
    line: u64,
    optional: bool,
    progress: &mut Progress,
) -> Result<(), Refused>
    ensures { Carried (leaving result progress.new) frame (lent list.old) (lent list.new) progress.old (λ j. stop j line optional) }
{
    let made = enter(list, frame.job, Entry::Stop(optional), progress.entries);
    made.map_err(|refusal| refusal.at(line))?;
    progress.entries += 1;
    Ok(())
}
