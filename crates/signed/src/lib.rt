// Arithmetic on signed numbers, each function with its result as an equation in the integers. Positions are i32 and what is computed from
// them is i64, wide enough for a sum or a product of a few of them, so that hardly a function asks anything of its arguments.
#![tactic(auto)]

ghost use Rattle.std.specs.Prelude.{◌≡◌, ◌&&◌, ◌*◌, ◌≤◌, leb, pos, nat_abs, ◌+ℤ◌, ◌-ℤ◌, ◌*ℤ◌};
ghost use Rattle.std.specs.Int.Signed.{le_z, lt_z};
ghost use Rattle.signed.specs.Signed.{wide_limit, with_sign};

// The same number, narrower.
pub fn narrow(a: i64) -> i32
    requires { nat_abs a ≤ 2147483647 }
    ensures { result ≡ a }
{
    // fits, by the clause
    a as i32
}

// The sum of two positions.
pub fn sum(a: i32, b: i32) -> i64
    ensures { result ≡ a +ℤ b }
{
    i64::from(a) + i64::from(b)
}

// The difference of two positions.
pub fn difference(a: i32, b: i32) -> i64
    ensures { result ≡ a -ℤ b }
{
    i64::from(a) - i64::from(b)
}

// A position with its offset.
pub fn moved(a: i32, offset: i64) -> i64
    requires { nat_abs offset ≤ wide_limit }
    ensures { result ≡ a +ℤ offset }
{
    i64::from(a) + offset
}

// c turned round, measured from a: as far short of b as it lies past a.
pub fn reflected(a: i32, b: i32, c: i64) -> i64
    requires { nat_abs c ≤ wide_limit }
    ensures { result ≡ a +ℤ (b -ℤ (c -ℤ a)) }
{
    let past = c - i64::from(a);
    sum(a, b) - past
}

// The n-fold of a.
pub fn product(n: u16, a: i32) -> i64
    ensures { result ≡ pos n *ℤ a }
{
    i64::from(n) * i64::from(a)
}

// What n steps of b reach from a: an angle, a place of a grid.
pub fn affine(a: i32, n: u16, b: i32) -> i64
    ensures value { result ≡ a +ℤ (pos n *ℤ b) }
    ensures result_bound { nat_abs result ≤ wide_limit }
{
    i64::from(a) + i64::from(n) * i64::from(b)
}

// What n pitches reach from a: the place of a copy.
pub fn scaled(a: i32, n: u16, p: u32) -> i64
    ensures { result ≡ a +ℤ pos (n * p) }
{
    i64::from(a) + i64::from(n) * i64::from(p)
}

// Whether a is below zero.
pub fn is_negative(a: i32) -> bool
    ensures { result ≡ lt_z a (pos 0) }
{
    a.is_negative()
}

// Whether low ≤ a ≤ high. A range's contains says as much: it stays for the must-fail edit that leaves the upper end out.
pub fn between(low: i32, a: i64, high: i32) -> bool
    ensures { result ≡ (le_z low a && le_z a high) }
{
    i64::from(low) <= a && a <= i64::from(high)
}

// Whether a is at most n in size, whatever its sign. Tried: by unsigned_abs a hit's test takes five instructions, and two by the ends.
pub fn size_at_most(a: i64, n: u32) -> bool
    ensures { result ≡ leb (nat_abs a) n }
{
    let limit = i64::from(n);
    -limit <= a && a <= limit
}

// The number of size n with the sign given.
pub fn with_sign(minus: bool, n: u32) -> i32
    requires { n ≤ 2147483647 }
    ensures { result ≡ with_sign minus n }
{
    // fits, by the clause
    let size = n as i32;
    if minus { -size } else { size }
}
