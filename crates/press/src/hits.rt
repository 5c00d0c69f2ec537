ghost use Rattle.std.specs.Prelude.{◌≡◌, cond};
ghost use Rattle.aries.specs.declared.refusal.Refusal.TheVariants.{TooFar, OutOfRange};
ghost use Rattle.aries.specs.Judging.{near};
ghost use Rattle.aries.specs.Moves.{punch};
ghost use Rattle.aries.specs.Steady.{Steady};
ghost use Rattle.aries.specs.WidePoints.{point_of, Moderate};
ghost use Rattle.aries.specs.Runs.{lent, leaving, Carried};
ghost use Rattle.press.specs.Hits.{judged_hit, list_after};

use crate::entries::enter;
use aries::entry::{Entry, Hit};
use aries::point::{Point, WidePoint};
use aries::refusal::{Refusal, Refused};
use aries::state::{Frame, Progress, State};

// What hits are made with: the tool chosen, if there is one, in mode N (nibble) or P.
#[derive(Clone, Copy)]
pub struct Tooling {
    pub tool: Option<u8>,
    pub nibble: bool,
}

impl Tooling {
    // What a state has chosen.
    pub fn of(state: &State) -> Tooling
        ensures { result ≡ record { tool = state.now.tool; nibble = state.now.nibble } }
    {
        Tooling {
            tool: state.tool,
            nibble: state.nibble,
        }
    }
}

// The refusal of a place that is out of the punching range: 15 where it is too far away, else 16.
pub fn out_of_range(place: WidePoint) -> Refusal
    ensures { result ≡ cond (near (point_of place)) OutOfRange TooFar }
{
    match place.located() {
        Some(_) => Refusal::OutOfRange,
        None => Refusal::TooFar,
    }
}

// Makes a hit with the tool chosen in a mode, after so many entries, and answers the point that becomes the current one; or refuses it.
// It is made, and judged by 15 and 16, where the place is seen after all mirrors. The range is judged first: it lies within the
// limit of 15, so that 15 and 16 are told apart only where it is left.
pub fn hit(
    list: &mut [i32],
    frame: Frame,
    tooling: Tooling,
    place: WidePoint,
    entries: usize,
) -> Result<Point, Refusal>
    requires steady { Steady 0 frame }
    requires moderate { Moderate place }
    ensures { (result ≡ judged_hit frame (point_of place) tooling.tool entries) × (lent list.new ≡ list_after frame result (lent list.old) entries tooling.tool tooling.nibble) }
{
    let tool = tooling.tool.ok_or(Refusal::NoTool)?;
    let seen = frame.seen(place);
    if !frame.covers(seen) {
        return Err(out_of_range(seen));
    }
    let point = place.narrow();
    let made = Hit {
        place: seen.narrow(),
        tool,
        nibble: tooling.nibble,
    };
    enter(list, frame.job, Entry::Hit(made), entries)?;
    Ok(point)
}

// Makes a hit with the state's tool and mode; the place, as it is before mirrors, becomes the current point.
pub fn punch(
    list: &mut [i32],
    frame: Frame,
    line: u64,
    place: WidePoint,
    progress: &mut Progress,
) -> Result<(), Refused>
    requires steady { Steady 0 frame }
    requires moderate { Moderate place }
    ensures { Carried (leaving result progress.new) frame (lent list.old) (lent list.new) progress.old (λ j. punch j frame line (point_of place)) }
{
    let tooling = Tooling::of(&progress.state);
    let judged = hit(list, frame, tooling, place, progress.entries);
    let current = judged.map_err(|refusal| refusal.at(line))?;
    progress.state = progress.state.moved_to(current);
    progress.entries += 1;
    Ok(())
}
