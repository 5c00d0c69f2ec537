// How often a hole stands at some places, and the first that stands at some more often than at others.
ghost use Rattle.std.specs.Prelude.{◌≡◌, map};
ghost use Rattle.drawings.specs.Counts.{times, is_over, first_over};
ghost use Rattle.drawings.specs.Repeats.{first_place};

use crate::hole::{Hole, Place};

// How often a hole stands at some places.
pub fn times<P: Place>(hole: Hole, places: &[P]) -> usize
    ensures { result ≡ times hole (map P.hole_of places.now) }
{
    places
        .iter()
        .filter(|place| place.hole() == Some(hole))
        .count()
}

// Whether a hole, where there is one, stands at these more often than at those.
fn is_over<P: Place, Q: Place>(there: Option<Hole>, these: &[P], those: &[Q]) -> bool
    ensures { result ≡ is_over (map P.hole_of these.now) (map Q.hole_of those.now) there }
{
    there.is_some_and(|hole| times(hole, those) < times(hole, these))
}

// The first of these whose hole stands at these more often than at those, counted from 1.
pub fn first_over<P: Place, Q: Place>(these: &[P], those: &[Q]) -> Option<usize>
    ensures { result ≡ first_over (map P.hole_of these.now) (map Q.hole_of those.now) }
{
    these
        .iter()
        .position(|place| is_over(place.hole(), these, those))
        .map(|i| i + 1)
}

// The first of some places at which a hole stands, counted from 1.
pub fn first_place<P: Place>(hole: Hole, places: &[P]) -> Option<usize>
    ensures { result ≡ first_place hole (map P.hole_of places.now) }
{
    places
        .iter()
        .position(|place| place.hole() == Some(hole))
        .map(|i| i + 1)
}
