// Digits of a text, and the tests of a byte that reading numbers takes.
ghost use Rattle.std.specs.Prelude.{◌≡◌, cond, ◌+◌, ◌*◌, ◌≤◌, ◌<◌, eqb, drop, get_or};
ghost use Rattle.aries.specs.Words.{digits, is_sign};
ghost use Rattle.words.specs.Digits.{held};

// Digits that were read: their value and how many they are.
#[derive(Clone, Copy)]
pub struct Digits {
    pub value: u32,
    pub count: usize,
}

// The byte at a place, 0 past the end, as the definitions read on; no test takes a 0.
pub fn byte_at(text: &[u8], at: usize) -> u8
    ensures { result ≡ get_or text.now at 0 }
{
    text.get(at).copied().unwrap_or(0)
}

// Plus or minus.
pub fn is_sign(b: u8) -> bool
    ensures { result ≡ is_sign b }
{
    matches!(b, b'+' | b'-')
}

// The digits at a place, at most so many.
pub fn read_digits(text: &[u8], from: usize, most: usize) -> Digits
    requires { most ≤ 6 }
    ensures { result ≡ held (digits most 0 0 (drop from text.now)) }
{
    let mut value: u32 = 0;
    for count in 0..most {
        let b = byte_at(text, from + count);
        if !b.is_ascii_digit() {
            return Digits { value, count };
        }
        value = value * 10 + u32::from(b - b'0');
    }
    Digits { value, count: most }
}

// Hundredths of a number with a point: its digits before the point, and one or two after it, or none.
pub fn hundredths_of(whole: u32, decimals: Digits) -> u32
    requires { (whole < 10000) × (decimals.value < 100) }
    ensures { result ≡ whole * 100 + decimals.value * cond (eqb decimals.count 1) 10 1 }
{
    if decimals.count == 1 {
        whole * 100 + decimals.value * 10
    } else {
        whole * 100 + decimals.value
    }
}
