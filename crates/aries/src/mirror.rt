ghost use Rattle.std.specs.Prelude.{◌≡◌, true, cond, ◌≤◌, nat_abs};
ghost use Rattle.signed.specs.Signed.{wide_limit};
ghost use Rattle.aries.specs.Judging.{is_near};
ghost use Rattle.aries.specs.Mirrors.{straight, flipped_at, seen_from, no_mirror, opened};
ghost use Rattle.aries.specs.Steady.{span_limit};

use crate::point::Point;

// How one axis is seen after all mirrors that are open, measured from the origin: x at span + x or, flipped, at span - x. How long a span
// may be is a clause and no invariant: one mirror more makes it longer.
#[derive(Clone, Copy)]
pub struct Facing {
    pub flipped: bool,
    pub span: i32,
}

impl Facing {
    // As it is where no mirror is open.
    pub fn straight() -> Facing
        ensures { result ≡ straight }
    {
        Facing {
            flipped: false,
            span: 0,
        }
    }

    // With a mirror that turns x into a - x inside those that are open.
    fn flipped_at(self, a: i32) -> Facing
        requires { (nat_abs self.span ≤ span_limit) × (is_near a ≡ true) }
        ensures { result ≡ flipped_at self a }
    {
        let span = self.span;
        if self.flipped {
            Facing {
                flipped: false,
                span: signed::narrow(signed::difference(span, a)),
            }
        } else {
            Facing {
                flipped: true,
                span: signed::narrow(signed::sum(span, a)),
            }
        }
    }

    // With such a mirror, if there is one.
    fn opened(self, flips: bool, a: i32) -> Facing
        requires { (nat_abs self.span ≤ span_limit) × (is_near a ≡ true) }
        ensures { result ≡ cond flips (flipped_at self a) self }
    {
        if flips { self.flipped_at(a) } else { self }
    }

    // Where a coordinate of the sheet is seen, by that of the origin.
    pub fn seen_from(self, origin: i32, x: i64) -> i64
        requires { nat_abs x ≤ wide_limit }
        ensures { result ≡ seen_from self origin x }
    {
        let span = self.span;
        if self.flipped {
            signed::reflected(origin, span, x)
        } else {
            signed::moved(span, x)
        }
    }
}

// How both axes are seen.
#[derive(Clone, Copy)]
pub struct Mirror {
    pub x: Facing,
    pub y: Facing,
}

impl Mirror {
    // Where no mirror is open.
    pub fn none() -> Mirror
        ensures { result ≡ no_mirror }
    {
        let straight = Facing::straight();
        Mirror {
            x: straight,
            y: straight,
        }
    }

    // With the mirror of a G73, by its Q and its a and b, inside those that are open.
    pub fn opened(self, way: u8, spans: Point) -> Mirror
        requires span_bound { (nat_abs self.x.span ≤ span_limit) × (is_near spans.x ≡ true) }
        requires span_bound_2 { (nat_abs self.y.span ≤ span_limit) × (is_near spans.y ≡ true) }
        ensures { result ≡ opened way spans self }
    {
        let x = self.x;
        let y = self.y;
        let a = spans.x;
        let b = spans.y;
        Mirror {
            x: x.opened((way == 2) | (way == 4), a),
            y: y.opened((way == 3) | (way == 4), b),
        }
    }
}
