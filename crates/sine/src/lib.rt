// Sine and cosine of angles in hundredths of a degree, in units of 10^-9, and the offsets that they give.
#![tactic(auto)]

ghost use Rattle.std.specs.Prelude.{◌≡◌, ◌≤◌, ◌<◌, pos, nat_abs, ◌+ℤ◌, ◌-ℤ◌};
ghost use Rattle.signed.specs.Signed.{wide_limit};
ghost use Rattle.sine.specs.Series.{nearest, one, degree_sine, hundredth_sine, hundredth_cosine};
ghost use Rattle.sine.specs.Sine.{
  quarter_turn,
  full_turn,
  degree_cosine,
  joined,
  quadrant_sine,
  turn,
  acute,
  turn_sine,
  direction_of,
  rounded,
  offset,
};

mod entries;

use entries::{DEGREE_SINES, HUNDREDTH_COSINES, HUNDREDTH_SINES};

// The cosine and the sine of one angle.
#[derive(Clone, Copy)]
pub struct Direction {
    pub cosine: i32,
    pub sine: i32,
}

// What a sine of one is in the unit of 10^-9.
const ONE: u64 = 1_000_000_000;

// A half, in the same unit.
const HALF: u64 = 500_000_000;

// Angles, in hundredths of a degree.
const QUARTER_TURN: u32 = 9_000;

const HALF_TURN: u32 = 18_000;

const THREE_QUARTERS: u32 = 27_000;

const FULL_TURN: u32 = 36_000;

// A number of these units as the nearest whole number, halves up.
fn nearest(n: u64) -> u64
    requires { n ≤ 9000000000000000000 }
    ensures { result ≡ nearest n one }
{
    (n + HALF) / ONE
}

// The same for a number with a sign, halves away from zero. Tried: with the sign put to one call's result, the hits of arcs and long edges
// take a twentieth longer.
#[tactic(auto, unfolding(crate::specs::Sine::rounded))]
pub fn rounded(z: i64) -> i64
    requires { nat_abs z ≤ 9000000000000000000 }
    ensures { result ≡ rounded z one }
{
    // both casts: what is nearest has at most half the bits
    if z < 0 {
        -(nearest(z.unsigned_abs()) as i64)
    } else {
        nearest(z as u64) as i64
    }
}

// The sine of two angles together, by the sum formula, from the sine and cosine of the one and of the other.
fn joined(first: (u32, u32), second: (u32, u32)) -> u32
    requires first_small { (first.0 ≤ one) × (first.1 ≤ one) }
    requires second_small { (second.0 ≤ one) × (second.1 ≤ one) }
    ensures { result ≡ joined first.0 first.1 second.0 second.1 }
{
    let (sine1, cosine1) = first;
    let (sine2, cosine2) = second;
    let sum = u64::from(sine1) * u64::from(cosine2) + u64::from(cosine1) * u64::from(sine2);
    // a sine fits
    nearest(sum) as u32
}

// Sine and cosine of so many whole degrees.
#[tactic(auto, using(crate::proofs::Tables::degree_is))]
pub fn of_degrees(d: u32) -> (u32, u32)
    requires { d ≤ 90 }
    ensures { result ≡ (degree_sine d, degree_cosine d) }
{
    // u32 has no From into usize
    let d = d as usize;
    (DEGREE_SINES[d], DEGREE_SINES[90 - d])
}

// Sine and cosine of so many hundredths of a degree.
#[tactic(auto, using(crate::proofs::Tables::hundredth_sine_is, crate::proofs::Tables::hundredth_cosine_is))]
pub fn of_hundredths(h: u32) -> (u32, u32)
    requires { h < 100 }
    ensures { result ≡ (hundredth_sine h, hundredth_cosine h) }
{
    // u32 has no From into usize
    let h = h as usize;
    (HUNDREDTH_SINES[h], HUNDREDTH_COSINES[h])
}

// The sine of an angle of the first quadrant, from its whole degrees and the hundredths past them.
#[tactic(auto, using(crate::proofs::Tables::sizes), unfolding(crate::specs::Sine::quadrant_sine))]
fn quadrant_sine(a: u32) -> u32
    requires { a ≤ quarter_turn }
    ensures { result ≡ quadrant_sine a }
{
    joined(of_degrees(a / 100), of_hundredths(a % 100))
}

// An angle reduced to a full turn.
#[tactic(auto, unfolding(crate::specs::Sine::turn))]
pub fn turn(angle: i64) -> u32
    ensures { result ≡ turn angle }
{
    // what is left of a full turn fits
    angle.rem_euclid(i64::from(FULL_TURN)) as u32
}

// What a reduced angle lacks of 90 degrees, reduced as well.
#[tactic(auto, using(crate::proofs::Angles::complements))]
fn complement(t: u32) -> u32
    requires { t < full_turn }
    ensures { result ≡ turn (pos quarter_turn -ℤ pos t) }
{
    if t <= QUARTER_TURN {
        QUARTER_TURN - t
    } else {
        FULL_TURN + QUARTER_TURN - t
    }
}

// A reduced angle reflected into the first quadrant.
#[tactic(auto, unfolding(crate::specs::Sine::acute))]
fn acute(t: u32) -> u32
    requires { t < full_turn }
    ensures { result ≡ acute t }
{
    match t {
        ..=QUARTER_TURN => t,
        ..=HALF_TURN => HALF_TURN - t,
        ..=THREE_QUARTERS => t - HALF_TURN,
        _ => FULL_TURN - t,
    }
}

// The sine of a reduced angle.
#[tactic(auto, using(crate::proofs::Bounds::reflected), unfolding(crate::specs::Sine::turn_sine))]
fn turn_sine(t: u32) -> i32
    requires { t < full_turn }
    ensures { result ≡ turn_sine t }
{
    signed::with_sign(HALF_TURN < t, quadrant_sine(acute(t)))
}

// Cosine and sine of one angle, which is reduced once.
#[tactic(auto, using(crate::proofs::Angles::turn_small))]
pub fn direction_of(angle: i64) -> Direction
    ensures { result ≡ direction_of angle }
{
    let t = turn(angle);
    Direction {
        cosine: turn_sine(complement(t)),
        sine: turn_sine(t),
    }
}

// Where a distance leads from a start along an axis, by the sine (or cosine) of its angle to it.
pub fn displaced(start: i32, distance: i32, sine: i32) -> i64
    ensures value { result ≡ start +ℤ offset distance sine }
    ensures result_bound { nat_abs result ≤ wide_limit }
{
    i64::from(start) + rounded(i64::from(distance) * i64::from(sine))
}
