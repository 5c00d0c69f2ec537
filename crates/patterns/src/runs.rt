ghost use Rattle.aries.specs.Patterns as Patterns;
ghost use Rattle.aries.specs.Patterns.{run_pattern, recall};
ghost use Rattle.aries.specs.Runs.{lent, leaving, Carried};
ghost use Rattle.aries.specs.Steady.{Steady};

use crate::series::Series;
use crate::sizes;
use aries::block::Pattern;
use aries::refusal::{Refusal, Refused};
use aries::state::{Frame, Progress};
use press::hits::Tooling;

// Carries a pattern out: its numbers and its reach are judged, a waiting origin is used up, and the hits are made.
#[tactic(auto, unfolding(aries::specs::Patterns::pattern))]
fn carry_out(
    list: &mut [i32],
    frame: Frame,
    line: u64,
    pattern: Pattern,
    progress: &mut Progress,
) -> Result<(), Refused>
    requires { Steady 0 frame }
    ensures { Carried (leaving result progress.new) frame (lent list.old) (lent list.new) progress.old (λ j. Patterns.pattern j frame line pattern) }
{
    if !sizes::shear_is_fit(pattern) {
        return Err(Refusal::ShearUnfit.at(line));
    }
    if !sizes::reach_is_near(pattern) {
        return Err(Refusal::TooFar.at(line));
    }
    let series = Series {
        frame,
        tooling: Tooling::of(&progress.state),
        start: progress.state.start(),
        entries: progress.entries,
    };
    let made = series.punch_pattern(list, pattern);
    let reached = made.map_err(|refusal| refusal.at(line))?;
    progress.state = progress.state.standing_at(reached.current);
    progress.entries = reached.entries;
    Ok(())
}

// A pattern block: T chooses the tool and A stores the pattern, both before the hits.
#[tactic(auto, unfolding(aries::specs::Patterns::run_pattern))]
pub fn run_pattern(
    list: &mut [i32],
    frame: Frame,
    line: u64,
    pattern: Pattern,
    tool: Option<u8>,
    memory: Option<u8>,
    progress: &mut Progress,
) -> Result<(), Refused>
    requires { Steady 0 frame }
    ensures { Carried (leaving result progress.new) frame (lent list.old) (lent list.new) progress.old (λ j. run_pattern j frame line pattern tool memory) }
{
    progress.state = progress.state.choosing(tool).remembering(memory, pattern);
    carry_out(list, frame, line, pattern, progress)
}

// A B block: what memory n holds is carried out, or refused where that is nothing.
#[tactic(auto, unfolding(aries::specs::Patterns::recall))]
pub fn recall(
    list: &mut [i32],
    frame: Frame,
    line: u64,
    n: u8,
    progress: &mut Progress,
) -> Result<(), Refused>
    requires { Steady 0 frame }
    ensures { Carried (leaving result progress.new) frame (lent list.old) (lent list.new) progress.old (λ j. recall j frame line n) }
{
    let stored = progress.state.memory(n);
    let pattern = stored.ok_or(Refusal::NotStored.at(line))?;
    carry_out(list, frame, line, pattern, progress)
}
