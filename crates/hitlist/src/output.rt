// Listings on standard output, and what can't be done on standard error.
ghost use Rattle.std.specs.Prelude.{◌≤◌, length, IfOk};

use listings::MOST_TRIES;
use std::fmt::InlineText;
use std::io;
use std::io::ErrorKind;

// The room for the text of an error. The system's texts are shorter.
const ROOM: usize = 256;

// The words of an error, without the number that stands behind a system's.
fn words(text: &str) -> &str {
    text.rsplit_once(" (os error ")
        .map_or(text, |(words, _)| words)
}

// Says on standard error what failed, and why the system says that it did.
pub fn tell(rt: &impl Eprint, what: &str, error: io::Error) {
    let text = InlineText::<ROOM>::of(error);
    let _ = eprintln!(rt; "hitlist: {what}: {}", words(text.as_str()));
}

// Writes once, and again where a signal interrupts that. Answers how many of the bytes are written.
fn write_some(out: &impl Print, part: &[u8]) -> io::Result<usize>
    ensures { IfOk result (λ n. n ≤ length part.now) }
{
    for _ in 1..MOST_TRIES {
        match out.write_some(part) {
            Err(error) if error.kind() == ErrorKind::Interrupted => {}
            answer => return answer,
        }
    }
    out.write_some(part)
}

// Writes all bytes, up to the first failure. What arrives is not claimed. The library's `write_all` has other words for a write
// that takes no byte.
fn write_all(out: &impl Print, bytes: &[u8]) -> io::Result<()> {
    let mut rest = bytes;
    while !rest.is_empty() {
        match write_some(out, rest)? {
            0 => return Err(io::Error::from(ErrorKind::WriteZero)),
            count => rest = &rest[count..],
        }
    }
    Ok(())
}

// Prints a listing. One that can't be written to its end is told on standard error.
pub fn print_listing<R: Print + Eprint>(rt: &R, listing: &[u8]) {
    if let Err(error) = write_all(rt, listing) {
        tell(rt, "the list is cut short: standard output", error);
    }
}
