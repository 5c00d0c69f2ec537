// The lines of a listing, put at the end of a buffer.
ghost use Rattle.std.specs.Prelude.{◌≡◌, suc, ◌+◌, ◌*◌, ◌≤◌, pos, length, get_or};
ghost use Rattle.printing.specs.Buffers.{Ends};
ghost use Rattle.printing.specs.Listing.{field, mode_letter, mode_end, entry_line, head_line, refusal_line, longest_line};

use crate::buffer::{put_byte, put_text};
use crate::number::{put_decimal, put_signed};

// A number of the list; past its end there are zeros, so the entries are no chunks of four.
fn number_at(list: &[i32], i: usize) -> i32
    ensures { result ≡ get_or list.now i (pos 0) }
{
    list.get(i).copied().unwrap_or(0)
}

// The letter of a mode.
fn mode_letter(mode: i32) -> u8
    ensures { result ≡ mode_letter mode }
{
    match mode {
        0 => b'P',
        1 => b'N',
        2 => b'S',
        _ => b'O',
    }
}

// The end of an entry's line: the mode that stands at a place of the list.
fn put_mode(out: &mut [u8], list: &[i32], at: usize) -> usize
    requires { 3 ≤ length out.old }
    ensures { Ends (mode_end (get_or list.now at (pos 0))) out.old result out.new }
{
    put_text(out, &[b' ', mode_letter(number_at(list, at)), b'\n'])
}

// A space and the number that stands at a place of the list.
#[tactic(auto, using(crate::proofs::Buffers::in_front))]
fn put_field(out: &mut [u8], list: &[i32], at: usize) -> usize
    requires { 12 ≤ length out.old }
    ensures put { Ends (field (get_or list.now at (pos 0))) out.old result out.new }
    ensures bound { length out.old ≤ result + 12 }
{
    let number = put_signed(out, number_at(list, at));
    put_byte(&mut out[..number], b' ')
}

// The line of an entry that i others come before.
#[tactic(auto, using(crate::proofs::Decimals::decimal_word, crate::proofs::Buffers::in_front), unfolding(crate::specs::Listing::entry_line))]
pub fn put_entry(out: &mut [u8], list: &[i32], i: usize) -> usize
    requires { longest_line * suc i ≤ length out.old }
    ensures put { Ends (entry_line list.now i) out.old result out.new }
    ensures bound { length out.old ≤ result + longest_line }
{
    let at = 4 * i;
    let mode = put_mode(out, list, at + 3);
    let tool = put_field(&mut out[..mode], list, at + 2);
    let y = put_field(&mut out[..tool], list, at + 1);
    let x = put_field(&mut out[..y], list, at);
    // usize has no From into u64
    put_decimal(&mut out[..x], (i + 1) as u64)
}

// The line above the entries.
#[tactic(auto, using(crate::proofs::Decimals::decimal_word, crate::proofs::Buffers::in_front), unfolding(crate::specs::Listing::head_line, aries::specs::Text::bytes))]
pub fn put_head(out: &mut [u8], count: usize) -> usize
    requires { longest_line ≤ length out.old }
    ensures { Ends (head_line count) out.old result out.new }
{
    let feed = put_byte(out, b'\n');
    // usize has no From into u64
    let number = put_decimal(&mut out[..feed], count as u64);
    put_text(&mut out[..number], b"ENTRIES ")
}

// Puts the line of a refusal, by its number, at the end of a buffer and answers where it starts. The buffer has 72 bytes; no line
// is longer.
#[tactic(auto, using(crate::proofs::Decimals::decimal_word, crate::proofs::Buffers::in_front), unfolding(crate::specs::Listing::refusal_line, aries::specs::Text::bytes))]
pub fn render_refusal(out: &mut [u8], number: u8, line: u64) -> usize
    requires { longest_line ≤ length out.old }
    ensures { Ends (refusal_line number line) out.old result out.new }
{
    let feed = put_byte(out, b'\n');
    let place = put_decimal(&mut out[..feed], line);
    let word = put_text(&mut out[..place], b" LINE ");
    let first = put_decimal(&mut out[..word], u64::from(number));
    put_text(&mut out[..first], b"REFUSED ")
}
