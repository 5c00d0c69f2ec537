ghost use Rattle.std.specs.Prelude.{◌≡◌};
ghost use Rattle.aries.specs.Numbers.{is_of_range, number_fits, ranges_of, is_ranged};
ghost use Rattle.blocks.specs.Ranges.{range_of, row_of, ranges_in};
ghost use Rattle.aries.specs.Test.{every};

use aries::block::Kind;
use aries::macros::SLOTS;
use aries::state;
use aries::word::{Word, Words};

// Tools, pattern memories and macros are numbered from 1 to these.
// by `as`, since no From is there in a constant
const LAST_TOOL: u32 = state::LAST_TOOL as u32;

const LAST_MEMORY: u32 = state::MEMORIES as u32;

const LAST_MACRO: u32 = SLOTS as u32 - 1;

// The most that K and P of a pattern, and of a layout, may count.
const PATTERN_MOST: u32 = 999;

const LAYOUT_MOST: u32 = 99;

// Kinds of numbers: a length or an angle above zero, and one not negative; a whole number without sign or point from one bound
// to another; a whole number that may have a sign, of a size between the bounds.
#[derive(Clone, Copy)]
enum Range {
    AboveZero,
    NotNegative,
    Whole(u32, u32),
    SignedWhole(u32, u32),
}

// Macros: U, V and W.
const MACRO: Range = Range::Whole(1, LAST_MACRO);

// Pattern memories: A and B.
const MEMORY: Range = Range::Whole(1, LAST_MEMORY);

// N, T and A, wherever they stand.
const COMMON: [(u8, Range); 3] = [
    (b'N', Range::Whole(0, 9999)),
    (b'T', Range::Whole(1, LAST_TOOL)),
    (b'A', MEMORY),
];

// G98: lengths that are not negative, and steps.
const LAYOUT: [(u8, Range); 7] = [
    (b'X', Range::NotNegative),
    (b'Y', Range::NotNegative),
    (b'I', Range::NotNegative),
    (b'J', Range::NotNegative),
    (b'D', Range::NotNegative),
    (b'P', Range::Whole(0, LAYOUT_MOST)),
    (b'K', Range::Whole(0, LAYOUT_MOST)),
];

// The letters of a kind of block whose numbers have a range; others are lengths or angles of any sign.
fn ranges_of(kind: Kind) -> &'static [(u8, Range)]
    ensures { ranges_in result.now ≡ ranges_of kind }
{
    match kind {
        Kind::G26 => &[
            (b'I', Range::AboveZero),
            (b'K', Range::SignedWhole(1, PATTERN_MOST)),
        ],
        Kind::G28 => &[(b'K', Range::Whole(1, PATTERN_MOST))],
        Kind::G29 => &[
            (b'I', Range::AboveZero),
            (b'K', Range::Whole(1, PATTERN_MOST)),
        ],
        Kind::G36 | Kind::G37 => &[
            (b'P', Range::Whole(0, PATTERN_MOST)),
            (b'K', Range::Whole(0, PATTERN_MOST)),
        ],
        Kind::G73 | Kind::G75 | Kind::G76 => &[(b'W', MACRO), (b'Q', Range::Whole(1, 4))],
        Kind::G98 => &LAYOUT,
        Kind::LetterB => &[(b'B', MEMORY)],
        Kind::LetterU => &[(b'U', MACRO)],
        Kind::LetterV => &[(b'V', MACRO)],
        Kind::LetterW => &[(b'W', MACRO)],
        _ => &[],
    }
}

// Whether a word has a number of a kind.
fn is_of_range(range: Range, word: Word) -> bool
    ensures { result ≡ is_of_range (range_of range) word }
{
    match range {
        Range::AboveZero => 0 < word.value,
        Range::NotNegative => 0 <= word.value,
        Range::Whole(least, most) => word.is_plain() & (least..=most).contains(&word.size()),
        Range::SignedWhole(least, most) => !word.pointed & (least..=most).contains(&word.size()),
    }
}

// Whether a letter's number is in its range; an absent word passes.
fn number_fits(words: &Words, row: (u8, Range)) -> bool
    ensures { result ≡ number_fits words.now.letters (row_of row) }
{
    words.at(row.0).is_none_or(|word| is_of_range(row.1, word))
}

// Whether all letters' numbers are.
fn numbers_fit(words: &Words, rows: &[(u8, Range)]) -> bool
    ensures { result ≡ every (number_fits words.now.letters) (ranges_in rows.now) }
{
    rows.iter().all(|row| number_fits(words, *row))
}

// Whether the numbers of a block of a kind are of the right kind and in their ranges.
#[tactic(auto, unfolding(aries::specs::Numbers::is_ranged))]
pub fn is_ranged(words: &Words, kind: Kind) -> bool
    ensures { result ≡ is_ranged words.now.letters kind }
{
    numbers_fit(words, ranges_of(kind)) & numbers_fit(words, &COMMON)
}
