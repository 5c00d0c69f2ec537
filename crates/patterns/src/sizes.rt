ghost use Rattle.std.specs.Prelude.{◌≡◌, ◌-◌, pos, ◌*ℤ◌};
ghost use Rattle.aries.specs.Judging.{is_near};
ghost use Rattle.aries.specs.Lanes.{places};
ghost use Rattle.aries.specs.Patterns.{reach_is_near, shear_is_fit};

use aries::block::{Pattern, Steps};
use aries::point;

// How many hits a grid makes: its places but the start.
pub fn grid_hits(steps: Steps) -> u32
    ensures { result ≡ places steps - 1 }
{
    // fits: a row and a column have 65,536 places at most
    (steps.places() - 1) as u32
}

// Whether so many pitches stay within the largest coordinate.
fn is_near(count: u16, pitch: i32) -> bool
    ensures { result ≡ is_near (pos count *ℤ pitch) }
{
    signed::size_at_most(signed::product(count, pitch), point::FARTHEST)
}

// Whether the farthest distance of a line, or the sides of a grid, stay within the largest coordinate. Other patterns have
// no reach.
#[tactic(auto, unfolding(aries::specs::Patterns::reach_is_near))]
pub fn reach_is_near(pattern: Pattern) -> bool
    ensures { result ≡ reach_is_near pattern }
{
    match pattern {
        Pattern::Line { pitch, count, .. } => is_near(count, pitch),
        Pattern::Grid { pitch, steps, .. } => {
            is_near(steps.x, pitch.x) && is_near(steps.y, pitch.y)
        }
        Pattern::Arc { .. } | Pattern::Circle { .. } | Pattern::Shear { .. } => true,
    }
}

// Whether the numbers of a G66 fit together; other patterns have none that have to.
#[tactic(auto, unfolding(aries::specs::Patterns::shear_is_fit))]
pub fn shear_is_fit(pattern: Pattern) -> bool
    ensures { result ≡ shear_is_fit pattern }
{
    match pattern {
        // the others by name, so that a new one is thought of here
        Pattern::Shear { lengths, .. } => shears::numbers::is_fit(lengths),
        Pattern::Line { .. }
        | Pattern::Arc { .. }
        | Pattern::Circle { .. }
        | Pattern::Grid { .. } => true,
    }
}
