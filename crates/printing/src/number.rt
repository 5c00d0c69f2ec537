// Numbers in decimal digits, put at the end of a buffer. The library writes them by `write!`, whose contract says nothing where it
// answers an error, and nothing says that it answers none; a listing can't fail.
ghost use Rattle.std.specs.Prelude.{◌≤◌, length};
ghost use Rattle.printing.specs.Buffers.{Ends};
ghost use Rattle.printing.specs.Decimals.{decimal, signed_decimal};

use crate::buffer::put_byte;

// A number without a sign: its last digit, and in front of it those of its tenth part.
pub fn put_decimal(out: &mut [u8], n: u64) -> usize
    requires { length (decimal n) ≤ length out.old }
    ensures { Ends (decimal n) out.old result out.new }
{
    // a digit fits
    let last = put_byte(out, b'0' + (n % 10) as u8);
    if n < 10 {
        return last;
    }
    put_decimal(&mut out[..last], n / 10)
}

// A number, with a minus where it is below zero.
#[tactic(auto, using(crate::proofs::Buffers::in_front), unfolding(crate::specs::Decimals::signed_decimal))]
pub fn put_signed(out: &mut [u8], a: i32) -> usize
    requires { length (signed_decimal a) ≤ length out.old }
    ensures { Ends (signed_decimal a) out.old result out.new }
{
    let start = put_decimal(out, u64::from(a.unsigned_abs()));
    if signed::is_negative(a) {
        put_byte(&mut out[..start], b'-')
    } else {
        start
    }
}
