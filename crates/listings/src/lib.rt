// What the programs share that print listings: reading a text to its end, and making its listing, with room for 4,096 entries.
#![tactic(auto)]

ghost use Rattle.std.specs.Prelude.{◌≡◌, ◌<◌, ◌≤◌, length, take, IfOk};
ghost use Rattle.std.specs.Counts.{IsPrefixLen};
ghost use Rattle.std.specs.Io.KnownBytes.{ReadConsumes, Consumes, IsAtEnd};
ghost use Rattle.aries.specs.Program.{expand, tally_for};
ghost use Rattle.printing.specs.Listing.{printed};

use std::io;
use std::io::{ErrorKind, Read};
use tallies::FIGURES;

// What is read of a text: one byte more than it may have is enough to refuse it.
pub const MOST_READ: usize = tolkjirp::LONGEST + 1;

// The numbers of the longest list, which has places for 4,096 entries.
pub const NUMBERS: usize = 16_384;

// The longest listing: 72 bytes for the head, for each of 4,096 entries and for each of 99 tools.
pub const LISTING: usize = 302_112;

// How often a read or a write that a signal interrupts is tried, before that counts as a failure.
pub const MOST_TRIES: u32 = 100;

// Reads once into a part of a buffer, and again where a signal interrupts that. No bytes are the end of the input.
fn read_some<R: Read>(reader: &mut R, part: &mut [u8]) -> io::Result<usize>
    ensures fits { IfOk result (λ n. IsPrefixLen n part.new) }
    ensures bytes { ReadConsumes (R.remaining reader.old) (R.remaining reader.new) result part.new }
{
    for _ in 1..MOST_TRIES {
        match reader.read(part) {
            Err(error) if error.kind() == ErrorKind::Interrupted => {}
            answer => return answer,
        }
    }
    reader.read(part)
}

// Reads into a buffer until it is full or the input ends, and answers how many bytes there are. They are the first that the
// reader has, where these are known: of a file and a terminal nothing is.
pub fn read_text<R: Read>(reader: &mut R, buffer: &mut [u8]) -> io::Result<usize>
    ensures fits { IfOk result (λ n. IsPrefixLen n buffer.new) }
    ensures bytes { IfOk result (λ n. Consumes (R.remaining reader.old) (R.remaining reader.new) (take n buffer.new)) }
    ensures end { IfOk result (λ n. n < length buffer.new → IsAtEnd (R.remaining reader.new)) }
{
    let mut done = 0;
    while done < buffer.len() {
        match read_some(reader, &mut buffer[done..])? {
            0 => break,
            count => done += count,
        }
    }
    Ok(done)
}

// Expands a text at the setting that a number states, with a lent list and tally, and answers the listing of what it comes to, which
// it puts at the end of a page. The page is lent too, since a copy of it takes longer than most listings do.
pub fn list_text<'a>(
    setting: i32,
    text: &[u8],
    list: &mut [i32],
    tally: &mut [u64; FIGURES],
    page: &'a mut [u8; LISTING],
) -> &'a [u8]
    requires { length list.old ≤ NUMBERS }
    ensures listed { result.now ≡ printed (length list.old) (expand setting text.now (length list.old)) }
    ensures tallied { tally.new ≡ tally_for (expand setting text.now (length list.old)) }
{
    let answer = tolkjirp::expand(setting, text, list, tally);
    let start = printing::render(page, list, tally, answer);
    &page[start..]
}
