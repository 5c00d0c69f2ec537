ghost use Rattle.std.specs.Prelude.{◌≡◌, ◌+◌, ◌≤◌, length};
ghost use Rattle.aries.specs.Forms.{is_m_code, form_of, beside_fits, is_given, kind_fits};
ghost use Rattle.blocks.specs.Counting.{present, counts_fit, form_counts, is_counted};

use aries::block::{Kind, Measure};
use aries::reader::Given;
use aries::word::{Word, Words};
use words::Line;

// How many of some letters stand in a block.
fn count(words: &Words, letters: &[u8]) -> usize
    ensures value { result ≡ present words.now.letters letters.now }
    ensures bound { result ≤ length letters.now }
{
    letters.iter().filter(|letter| words.has(**letter)).count()
}

// Whether all letters that must stand in a block do, one at least of those of which one must, and no other words but those
// that may.
#[tactic(auto, unfolding(crate::specs::Counting::counts_fit))]
fn counts_fit(line: &Line, must: &[u8], one_of: &[u8], may: &[u8]) -> bool
    requires { length must.now + (length one_of.now + length may.now) ≤ 26 }
    ensures { result ≡ counts_fit line.now must.now one_of.now may.now }
{
    let all = count(&line.words, must);
    let some = count(&line.words, one_of);
    let free = count(&line.words, may);
    (all == must.len()) & (one_of.is_empty() | (1 <= some)) & (line.others == all + (some + free))
}

// Whether a block has the letters of its kind and no others. Tried with the three slices in a struct by kind, as the definitions have
// them: W lines take a tenth longer.
fn form_fits(line: &Line, kind: Kind) -> bool
    ensures { result ≡ form_counts line.now (form_of kind) }
{
    match kind {
        Kind::G26 | Kind::G28 => counts_fit(line, b"IJK", b"", b"TA"),
        Kind::G29 => counts_fit(line, b"IJPK", b"", b"TA"),
        Kind::G36 | Kind::G37 => counts_fit(line, b"IPJK", b"", b"TA"),
        Kind::G66 => counts_fit(line, b"IJP", b"", b"QDTA"),
        Kind::G70 | Kind::Position => counts_fit(line, b"", b"XY", b"T"),
        Kind::G72 | Kind::G93 => counts_fit(line, b"", b"XY", b""),
        Kind::G73 => counts_fit(line, b"WQ", b"", b"XY"),
        Kind::G75 | Kind::G76 => counts_fit(line, b"WQ", b"", b""),
        Kind::G92 => counts_fit(line, b"XY", b"", b""),
        Kind::G98 => counts_fit(line, b"XY", b"", b"IJPKD"),
        Kind::LetterM => counts_fit(line, b"M", b"", b""),
        Kind::LetterB => counts_fit(line, b"B", b"", b""),
        Kind::LetterU => counts_fit(line, b"U", b"", b""),
        Kind::LetterV => counts_fit(line, b"V", b"", b""),
        Kind::LetterW => counts_fit(line, b"W", b"", b""),
        Kind::G50 | Kind::Lone => counts_fit(line, b"", b"", b""),
    }
}

// Whether the G90 or G91 of a block, or their absence, goes with its kind.
fn beside_fits(measure: Option<Measure>, kind: Kind) -> bool
    ensures { result ≡ beside_fits measure (form_of kind).beside }
{
    match kind {
        Kind::G26 | Kind::G28 | Kind::G29 | Kind::G36 | Kind::G37 | Kind::G66 => true,
        Kind::G70 | Kind::G72 | Kind::Position => true,
        Kind::G93 => !matches!(measure, Some(Measure::Incremental)),
        Kind::Lone => measure.is_some(),
        _ => measure.is_none(),
    }
}

// Whether an M word is one of the M codes, which go by their number and have no sign or point.
fn is_m_code(word: Word) -> bool
    ensures { result ≡ is_m_code word }
{
    word.is_plain() & matches!(word.size(), 0 | 1 | 8 | 9 | 12 | 13)
}

// Whether X and Y of a G73 are written, or have been given in one before.
fn is_given(given: Given, words: &Words) -> bool
    ensures { result ≡ is_given given words.now.letters }
{
    (words.has(b'X') | given.x) & (words.has(b'Y') | given.y)
}

// What a kind asks of its words besides. Which of X and Y a G73 has given before counts for G73 alone.
fn kind_fits(given: Given, words: &Words, kind: Kind) -> bool
    ensures { result ≡ kind_fits given words.now.letters kind }
{
    match kind {
        Kind::G73 => is_given(given, words),
        Kind::LetterM => words.at(b'M').is_none_or(|word| is_m_code(word)),
        Kind::LetterU | Kind::LetterV => !words.has(b'N'),
        _ => true,
    }
}

// Whether a block of a kind has a listed set of letters, each in its place.
#[tactic(auto, unfolding(crate::specs::Counting::is_counted))]
pub fn is_listed(given: Given, line: &Line, kind: Kind) -> bool
    ensures { result ≡ is_counted given line.now kind }
{
    !line.misplaced
        & kind_fits(given, &line.words, kind)
        & beside_fits(line.words.measure, kind)
        & form_fits(line, kind)
}
