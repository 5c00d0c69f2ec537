// Numbers at the front of a line: lengths in millimetres and tools, each with the rest of the line.
ghost use Rattle.std.specs.Prelude.{◌≡◌, ◌^◌, ◌≤◌, ◌<◌};
ghost use Rattle.words.specs.Digits.{meant};
ghost use Rattle.tables.specs.Numbers.{found, front_digits, without_sign, with_decimals, length_of, tool_of};

use signed::with_sign;
use words::digits::{Digits, byte_at, hundredths_of, is_sign, read_digits};

// The digits at the front of a line, at most so many, and the rest of the line.
fn front_digits(line: &[u8], most: usize) -> (Digits, &[u8])
    requires { most ≤ 4 }
    ensures read { (meant result.0, result.1.now) ≡ front_digits most line.now }
    ensures small { result.0.value < 10 ^ most }
{
    let digits = read_digits(line, 0, most);
    (digits, &line[digits.count..])
}

// A line without the sign at its front, if one stands there.
fn without_sign(line: &[u8]) -> &[u8]
    ensures { result.now ≡ without_sign line.now }
{
    if is_sign(byte_at(line, 0)) {
        &line[1..]
    } else {
        line
    }
}

// The size of a length in hundredths of a millimetre, from its digits before the point and what stands behind them, and the
// rest of the line.
fn with_decimals(whole: Digits, line: &[u8]) -> (u32, &[u8])
    requires { whole.value < 10000 }
    ensures read { (result.0, result.1.now) ≡ with_decimals (meant whole) line.now }
    ensures small { result.0 < 2 ^ 31 }
{
    if byte_at(line, 0) != b'.' {
        return (whole.value * 100, line);
    }
    let (decimals, rest) = front_digits(&line[1..], 2);
    (hundredths_of(whole.value, decimals), rest)
}

// The length at the front of a line, and the rest of the line. Inlined, since that is faster by a tenth.
#[inline(always)]
#[tactic(auto, unfolding(crate::specs::Numbers::length_of))]
pub fn read_length(line: &[u8]) -> Option<(i32, &[u8])>
    ensures { found result ≡ length_of line.now }
{
    let minus = byte_at(line, 0) == b'-';
    let (whole, rest) = front_digits(without_sign(line), 4);
    if whole.count == 0 {
        return None;
    }
    let (size, rest) = with_decimals(whole, rest);
    Some((with_sign(minus, size), rest))
}

// The tool at the front of a line, and the rest of the line.
#[tactic(auto, unfolding(crate::specs::Numbers::tool_of))]
pub fn read_tool(line: &[u8]) -> Option<(i32, &[u8])>
    ensures { found result ≡ tool_of line.now }
{
    let (number, rest) = front_digits(line, 2);
    if number.value == 0 {
        return None;
    }
    // six digits fit
    Some((number.value as i32, rest))
}
