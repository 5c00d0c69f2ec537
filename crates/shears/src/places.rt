ghost use Rattle.std.specs.Prelude.{◌≡◌, true, ◌≤◌, pos, nat_abs, ◌+ℤ◌, ◌*ℤ◌};
ghost use Rattle.aries.specs.WidePoints.{point_of, Moderate};
ghost use Rattle.aries.specs.Moves.{◌⊕◌};
ghost use Rattle.aries.specs.Shear.{is_fit};
ghost use Rattle.shears.specs.Fractions.{split};
ghost use Rattle.shears.specs.Cuts.{cut_of, cut_denominator, along_cut, cut_offset, Bounded};

use crate::fractions::{Fraction, offset};
use crate::numbers;
use aries::block::Shear;
use aries::point::{Point, WidePoint};
use sine::Direction;

// What the hits of a G66 have in common. Along the line they lie at ahead + step × k - behind, over the denominator that the
// part to the side has, too.
#[derive(Clone, Copy)]
pub struct Cut {
    pub hits: u32,
    pub ahead: u64,
    pub behind: u64,
    pub step: u64,
    pub across: Fraction,
    pub direction: Direction,
}

impl Cut {
    // What the hits of a G66 have in common. The travel is divided by the steps, or by 1 where there is none.
    pub fn prepare(angle: u16, shear: Shear) -> Cut
        requires { is_fit shear ≡ true }
        ensures { result ≡ cut_of angle shear }
    {
        let steps = numbers::steps(shear);
        let travel = numbers::travel(shear);
        let n = steps.max(1);
        Cut {
            hits: steps + 1,
            ahead: u64::from(n) * u64::from(shear.length.unsigned_abs()),
            behind: u64::from(n) * travel,
            step: 2 * travel,
            across: Fraction::new(i64::from(n) * i64::from(shear.across), 2 * n),
            direction: sine::direction_of(i64::from(angle)),
        }
    }

    // Hit k along the line.
    fn along(self, k: u32) -> Fraction
        requires { Bounded self k }
        ensures { result ≡ split (cut_denominator self) (along_cut self k) }
    {
        // both casts fit, by `Bounded`
        let ahead = (self.ahead + self.step * u64::from(k)) as i64;
        Fraction::new(ahead - self.behind as i64, self.across.denominator)
    }

    // The place of hit k: its way along the line, and to the left of it.
    pub fn place(self, start: Point, k: u32) -> WidePoint
        requires { Bounded self k }
        ensures result_value { point_of result ≡ start ⊕ cut_offset self k }
        ensures moderate { Moderate result }
    {
        let Direction { cosine, sine } = self.direction;
        let along = self.along(k);
        let offset_x = offset(along, cosine, self.across, -sine);
        let offset_y = offset(along, sine, self.across, cosine);
        WidePoint {
            x: signed::moved(start.x, offset_x),
            y: signed::moved(start.y, offset_y),
        }
    }
}
