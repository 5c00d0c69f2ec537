ghost use Rattle.std.specs.Prelude.{◌≡◌, true};
ghost use Rattle.aries.specs.Shear.{
  width,
  cut_length,
  on_one_side,
  is_wide,
  is_long,
  holds_tool,
  is_fit,
  travel,
  steps,
};

use aries::block::Shear;

// The largest size of a tool along the line that is too small, 1 mm.
const TOO_NARROW: u32 = 100;

// What a step lacks of the tool's size at least, 0.5 mm.
const OVERLAP: u64 = 50;

// The tool's size along the line.
fn width(shear: Shear) -> u32
    ensures { result ≡ width shear }
{
    shear.along.unsigned_abs()
}

// The length of the cut: that of the edge with what is added at both ends.
fn cut_length(shear: Shear) -> i64
    ensures { result ≡ cut_length shear }
{
    i64::from(shear.length) + 2 * i64::from(shear.compensation)
}

// Whether both sizes of the tool lie on one side of the line, and neither is zero.
fn on_one_side(shear: Shear) -> bool
    ensures { result ≡ on_one_side shear }
{
    (0 < shear.along && 0 < shear.across) || (shear.along < 0 && shear.across < 0)
}

// Whether the tool's size along the line is above 1 mm.
fn is_wide(shear: Shear) -> bool
    ensures { result ≡ is_wide shear }
{
    TOO_NARROW < width(shear)
}

// Whether the edge is not under 1.5 times that size.
fn is_long(shear: Shear) -> bool
    ensures { result ≡ is_long shear }
{
    3 * i64::from(width(shear)) <= 2 * i64::from(shear.length)
}

// Whether the cut is not under that size.
fn holds_tool(shear: Shear) -> bool
    ensures { result ≡ holds_tool shear }
{
    i64::from(width(shear)) <= cut_length(shear)
}

// Whether the numbers fit together.
#[tactic(auto, unfolding(aries::specs::Shear::is_fit))]
pub fn is_fit(shear: Shear) -> bool
    ensures { result ≡ is_fit shear }
{
    on_one_side(shear) && is_wide(shear) && is_long(shear) && holds_tool(shear)
}

// How far the tool travels.
pub fn travel(shear: Shear) -> u64
    requires { is_fit shear ≡ true }
    ensures { result ≡ travel shear }
{
    // not below 0, as the shear is fit
    (cut_length(shear) - i64::from(width(shear))) as u64
}

// The fewest equal steps none of which is longer than the tool's size less 0.5 mm.
pub fn steps(shear: Shear) -> u32
    requires { is_fit shear ≡ true }
    ensures { result ≡ steps shear }
{
    let longest = u64::from(width(shear)) - OVERLAP;
    // fits: lengths of 32 bits make no more than 126,322,567 steps
    travel(shear).div_ceil(longest) as u32
}
