ghost use Rattle.std.specs.Prelude.{◌≡◌, ◌≤◌, nat_abs};
ghost use Rattle.aries.specs.WidePoints.{point_of, located};

// The largest size of a coordinate, and at setting 0 of a length or an angle, in hundredths.
pub const FARTHEST: u32 = 999_999;

// A point of the sheet in G92 coordinates, in hundredths of a millimetre.
#[derive(Clone, Copy)]
pub struct Point {
    pub x: i32,
    pub y: i32,
}

impl Point {
    // the sheet's zero
    pub const ZERO: Point = Point { x: 0, y: 0 };
}

// A point as it is computed, before anything is judged of it. That it is moderate is a clause of those who need it, and no invariant: seen
// in mirrors it may not be.
#[derive(Clone, Copy)]
pub struct WidePoint {
    pub x: i64,
    pub y: i64,
}

impl WidePoint {
    // The point of a place that fits.
    pub fn narrow(self) -> Point
        requires { (nat_abs self.x ≤ 2147483647) × (nat_abs self.y ≤ 2147483647) }
        ensures { result ≡ point_of self }
    {
        let x = self.x;
        let y = self.y;
        Point {
            x: signed::narrow(x),
            y: signed::narrow(y),
        }
    }

    // The point of a place, if 15 lets it pass: both coordinates are within the largest size.
    #[tactic(auto, unfolding(crate::specs::Judging::near))]
    pub fn located(self) -> Option<Point>
        ensures { result ≡ located (point_of self) }
    {
        if signed::size_at_most(self.x, FARTHEST) & signed::size_at_most(self.y, FARTHEST) {
            Some(self.narrow())
        } else {
            None
        }
    }
}
