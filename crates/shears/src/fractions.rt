ghost use Rattle.std.specs.Prelude.{◌≡◌, ◌*◌, ◌≤◌, ◌<◌, nat_abs, ◌+ℤ◌, ◌*ℤ◌};
ghost use Rattle.sine.specs.Series.{one};
ghost use Rattle.sine.specs.Sine.{rounded};
ghost use Rattle.shears.specs.Fractions.{split, value_of, toward_zero, Reduced};

// A number over a denominator: wholes, and the rest of the numerator, with the same sign.
#[derive(Clone, Copy)]
pub struct Fraction {
    pub whole: i64,
    pub rest: i64,
    pub denominator: u32,
}

impl Fraction {
    // A numerator over a denominator.
    pub fn new(numerator: i64, denominator: u32) -> Fraction
        requires { 0 < denominator }
        ensures { result ≡ split denominator numerator }
    {
        let divisor = i64::from(denominator);
        Fraction {
            whole: numerator / divisor,
            rest: numerator % divisor,
            denominator,
        }
    }

    // The wholes without a rest of whichever sign.
    fn toward_zero(self) -> i64
        requires { nat_abs self.whole ≤ 9000000000000000000 }
        ensures { result ≡ toward_zero self.whole self.rest }
    {
        if 0 < self.whole && self.rest < 0 {
            return self.whole - 1;
        }
        if self.whole < 0 && 0 < self.rest {
            return self.whole + 1;
        }
        self.whole
    }
}

// The sum of two products.
fn combined(a: i64, p: i32, b: i64, q: i32) -> i64
    requires a_bound { (nat_abs a ≤ 4294967296) × (nat_abs b ≤ 4294967296) }
    requires p_bound { (nat_abs p ≤ one) × (nat_abs q ≤ one) }
    ensures { result ≡ a *ℤ p +ℤ b *ℤ q }
{
    a * i64::from(p) + b * i64::from(q)
}

// The offset along an axis of two parts of a way, over one denominator, by a sine (or cosine) each, rounded once. What is
// left of the two numerators is put together and divided once more, so that no product passes 64 bits.
pub fn offset(a: Fraction, p: i32, b: Fraction, q: i32) -> i64
    requires denominator_nonzero { 0 < a.denominator }
    requires same_denominator { b.denominator ≡ a.denominator }
    requires reduced { Reduced a }
    requires reduced_2 { Reduced b }
    requires p_bound { (nat_abs p ≤ one) × (nat_abs q ≤ one) }
    ensures value { result ≡ rounded (value_of a *ℤ p +ℤ value_of b *ℤ q) (a.denominator * one) }
    ensures result_bound { nat_abs result ≤ 9000000000 }
{
    let rests = Fraction::new(combined(a.rest, p, b.rest, q), a.denominator);
    let sum = Fraction {
        whole: combined(a.whole, p, b.whole, q) + rests.whole,
        ..rests
    };
    sine::rounded(sum.toward_zero())
}
