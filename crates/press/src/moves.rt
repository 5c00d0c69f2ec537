ghost use Rattle.std.specs.Prelude.{◌≡◌, ◌≤◌, nat_abs};
ghost use Rattle.signed.specs.Signed.{wide_limit};
ghost use Rattle.aries.specs.WidePoints.{point_of, Moderate};
ghost use Rattle.aries.specs.Moves.{axis_target, target, position, move, set_pattern_origin};
ghost use Rattle.aries.specs.Steady.{Steady};
ghost use Rattle.aries.specs.Runs.{Lent, lent, leaving, Carried};

use crate::hits;
use aries::block::Axes;
use aries::point::WidePoint;
use aries::refusal::{Refusal, Refused};
use aries::state::{Frame, Progress, State};

// One axis of a position: an omitted one stays, else it is measured from the origin or, under G91, from the current
// point.
fn axis_target(value: Option<i32>, incremental: bool, origin: i32, current: i32) -> i64
    ensures value { result ≡ axis_target value incremental origin current }
    ensures result_bound { nat_abs result ≤ wide_limit }
{
    match value {
        None => i64::from(current),
        Some(value) => {
            let from = if incremental { current } else { origin };
            signed::sum(from, value)
        }
    }
}

// The place that a block's X and Y name.
fn target(frame: Frame, state: &State, axes: Axes) -> WidePoint
    ensures result_value { point_of result ≡ target frame state.now axes }
    ensures moderate { Moderate result }
{
    let origin = frame.origin;
    let current = state.current;
    WidePoint {
        x: axis_target(axes.x, state.incremental, origin.x, current.x),
        y: axis_target(axes.y, state.incremental, origin.y, current.y),
    }
}

// A position block: a hit at the place that it names, with its tool.
#[tactic(auto, unfolding(aries::specs::Moves::position))]
pub fn position(
    list: &mut [i32],
    frame: Frame,
    line: u64,
    axes: Axes,
    tool: Option<u8>,
    progress: &mut Progress,
) -> Result<(), Refused>
    requires { Steady 0 frame }
    ensures { Carried (leaving result progress.new) frame (lent list.old) (lent list.new) progress.old (λ j. position j frame line axes tool) }
{
    let place = target(frame, &progress.state, axes);
    progress.state = progress.state.choosing(tool).dropping();
    hits::punch(list, frame, line, place, progress)
}

// A position block with G70: a move to the place that it names, whatever is lent. It is judged by 15 and 16 where the place
// is seen after all mirrors.
pub fn move_to(
    frame: Frame,
    line: u64,
    axes: Axes,
    tool: Option<u8>,
    progress: &mut Progress,
) -> Result<(), Refused>
    requires { Steady 0 frame }
    ensures { (l : Lent) → Carried (leaving result progress.new) frame l l progress.old (λ j. move j frame line axes tool) }
{
    let place = target(frame, &progress.state, axes);
    let seen = frame.seen(place);
    if !frame.covers(seen) {
        return Err(hits::out_of_range(seen).at(line));
    }
    let end = place.narrow();
    progress.state = progress.state.choosing(tool).standing_at(end);
    Ok(())
}

// G72: the place that it names waits as the origin of the next pattern, whatever is lent.
#[tactic(auto, unfolding(aries::specs::Moves::set_pattern_origin), using(aries::proofs::WidePoints::located_far))]
pub fn set_pattern_origin(
    frame: Frame,
    line: u64,
    axes: Axes,
    progress: &mut Progress,
) -> Result<(), Refused>
    ensures { (l : Lent) → Carried (leaving result progress.new) frame l l progress.old (λ j. set_pattern_origin j frame line axes) }
{
    let place = target(frame, &progress.state, axes);
    let origin = place.located().ok_or(Refusal::TooFar.at(line))?;
    progress.state = progress.state.waiting_at(origin);
    Ok(())
}
