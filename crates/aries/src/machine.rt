ghost use Rattle.std.specs.Prelude.{◌≡◌};
ghost use Rattle.aries.specs.Machine.{named, right_end, covers};
ghost use Rattle.aries.specs.WidePoints.{point_of};

use crate::point::{Point, WidePoint};

// The press: ARIES-222 or ARIES-224.
#[derive(Clone, Copy)]
pub enum Machine {
    Aries222,
    Aries224,
}

impl Machine {
    // the ends of the punching range, in hundredths
    pub const LEAST: i32 = -1_020;

    pub const TOP: i32 = 61_020;

    pub const RIGHT_222: i32 = 61_020;

    pub const RIGHT_224: i32 = 101_020;
    // the G92 pairs: X of each machine, and Y
    pub const FAR_222: i32 = 60_000;

    pub const FAR_224: i32 = 100_000;

    pub const FAR_Y: i32 = 60_000;

    // The machine that a G92 pair names, if any. Tried as TryFrom: that asks for an error where None says all, and is no plainer.
    #[tactic(auto, unfolding(crate::specs::Machine::named, crate::specs::Machine::is_pair))]
    pub fn named(pair: Point) -> Option<Machine>
        ensures { result ≡ named pair }
    {
        if pair.y == Machine::FAR_Y {
            if pair.x == Machine::FAR_222 {
                return Some(Machine::Aries222);
            }
            if pair.x == Machine::FAR_224 {
                return Some(Machine::Aries224);
            }
        }
        None
    }

    // The right end of the range.
    fn right(self) -> i32
        ensures { result ≡ right_end self }
    {
        match self {
            Machine::Aries222 => Machine::RIGHT_222,
            Machine::Aries224 => Machine::RIGHT_224,
        }
    }

    // Whether a place is in the punching range.
    #[tactic(auto, unfolding(crate::specs::Machine::covers))]
    pub fn covers(self, p: WidePoint) -> bool
        ensures { result ≡ covers self (point_of p) }
    {
        signed::between(Machine::LEAST, p.x, self.right())
            && signed::between(Machine::LEAST, p.y, Machine::TOP)
    }
}
