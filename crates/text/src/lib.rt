// The bytes of a program text: which are allowed, the text without its spaces, and where its lines end.
#![tactic(auto)]

ghost use Rattle.std.specs.Prelude.{◌≡◌, ◌+◌, ◌*◌, ◌≤◌, not, length, drop, count_by, position};
ghost use Rattle.aries.specs.Test.{every};
ghost use Rattle.aries.specs.Text.{is_allowed, stray_line, lines};
ghost use Rattle.text.specs.Cleaning.{Clean, Copied};
ghost use Rattle.text.specs.Lines.{is_feed, line_length, blanks, ends_open};

use aries::refusal::{Refusal, Refused};

pub const LINE_FEED: u8 = b'\n';

pub const SPACE: u8 = b' ';

// Copies the bytes other than spaces to the front of the buffer and answers how many they are; or refuses the line of the first
// byte that is not allowed (2).
pub fn clean(text: &[u8], buffer: &mut [u8]) -> Result<usize, Refused>
    requires { length text.now ≤ length buffer.old }
    ensures { Clean text.now result buffer.new }
{
    match stray_line(text) {
        Some(line) => Err(Refusal::StrayByte.at(line)),
        None => Ok(copy_without_spaces(text, buffer)),
    }
}

// The line of the first byte that is not allowed, if there is one.
fn stray_line(text: &[u8]) -> Option<u64>
    ensures { result ≡ stray_line 1 text.now }
{
    if all_allowed(text) {
        return None;
    }
    let place = stray_place(text)?;
    Some(1 + count_feeds(&text[..place]))
}

// Where the first byte stands that is not allowed, if there is one.
fn stray_place(text: &[u8]) -> Option<usize>
    ensures { result ≡ position (λ b. not (is_allowed b)) text.now }
{
    text.iter().position(|b| !is_allowed(*b))
}

// Whether all bytes are allowed. No byte ends the test, so that it is compiled for many bytes at a time.
fn all_allowed(text: &[u8]) -> bool
    ensures { result ≡ every is_allowed text.now }
{
    text.iter().fold(true, |all, b| all & is_allowed(*b))
}

// Whether a text may hold a byte: a capital, a digit, a space, a line feed, plus, minus or point. One `matches!` for all of
// them is compiled to a tenth more instructions.
fn is_allowed(b: u8) -> bool
    ensures { result ≡ is_allowed b }
{
    b.is_ascii_uppercase()
        | b.is_ascii_digit()
        | matches!(b, SPACE | LINE_FEED | b'+' | b'-' | b'.')
}

// Copies the bytes other than spaces to the front of the buffer, and answers how many they are.
fn copy_without_spaces(text: &[u8], buffer: &mut [u8]) -> usize
    requires { length text.now ≤ length buffer.old }
    ensures { Copied text.now result buffer.new }
{
    let mut n = 0;
    for &b in text {
        // the place past what was copied may be written in vain; of places that `iter_mut` hands out nothing is promised for the whole
        buffer[n] = b;
        if b != SPACE {
            n += 1;
        }
    }
    n
}

// Where the line ends that starts at a place: at its line feed, or at the end of the text. A place past the end stays.
pub fn line_end(text: &[u8], from: usize) -> usize
    ensures { result ≡ from + line_length (drop from text.now) }
{
    // told first: the search is faster where it has no test of this
    if text.len() <= from {
        return from;
    }
    from + line_length(&text[from..])
}

// Where the next block starts, from a place between two lines on: past the line feeds that stand there. A place past the
// end stays.
pub fn next_block(text: &[u8], from: usize) -> usize
    ensures { result ≡ from + blanks (drop from text.now) }
{
    from + count_blanks(rest_of(text, from))
}

// The text from a place on; there is none past its end.
fn rest_of(text: &[u8], from: usize) -> &[u8]
    ensures { result.now ≡ drop from text.now }
{
    text.get(from..).unwrap_or(&[])
}

// How many bytes stand before the first line feed.
fn line_length(text: &[u8]) -> usize
    ensures { result ≡ line_length text.now }
{
    text.iter()
        .position(|b| *b == LINE_FEED)
        .unwrap_or(text.len())
}

// How many line feeds stand at the front. They are passed over eight at a time.
fn count_blanks(text: &[u8]) -> usize
    ensures { result ≡ blanks text.now }
{
    let passed = 8 * count_blank_eights(text);
    let rest = &text[passed..];
    let past = rest.iter().position(|b| *b != LINE_FEED);
    passed + past.unwrap_or(rest.len())
}

// How many times eight line feeds stand at the front: past them are so many fewer.
fn count_blank_eights(text: &[u8]) -> usize
    ensures within { 8 * result ≤ length text.now }
    ensures fewer { blanks text.now ≡ 8 * result + blanks (drop (8 * result) text.now) }
{
    let (eights, _) = text.as_chunks::<8>();
    eights
        .iter()
        .position(|eight| *eight != [LINE_FEED; 8])
        .unwrap_or(eights.len())
}

// How many line feeds a text has.
fn count_feeds(text: &[u8]) -> u64
    ensures { result ≡ count_by is_feed text.now }
{
    // usize has no From into u64
    text.iter().filter(|b| **b == LINE_FEED).count() as u64
}

// How many lines a text has: one for each line feed, and one that has none at its end.
pub fn count_lines(text: &[u8]) -> u64
    ensures { result ≡ length (lines text.now) }
{
    count_feeds(text) + u64::from(ends_open(text))
}

// Whether another byte than a line feed is the last.
fn ends_open(text: &[u8]) -> bool
    ensures { result ≡ ends_open text.now }
{
    text.last().is_some_and(|b| *b != LINE_FEED)
}
