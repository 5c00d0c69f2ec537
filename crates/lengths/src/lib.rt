// Lengths and angles put into hundredths, and refusal 6 of them.
#![tactic(auto)]

ghost use Rattle.std.specs.Prelude.{◌≡◌, true, [], ◌∷◌, ◌≤◌, pos, nat_abs, ◌*ℤ◌};
ghost use Rattle.aries.specs.declared.reader.Setting.TheVariants.{Millimetres};
ghost use Rattle.aries.specs.ByLetter.{at};
ghost use Rattle.aries.specs.Blocks.{count};
ghost use Rattle.aries.specs.Test.{every};
ghost use Rattle.aries.specs.Text.{bytes};
ghost use Rattle.aries.specs.Numbers.{lengths_of, in_hundredths, lengths_fit};
ghost use Rattle.lengths.specs.Hundredths.{fits, hundredths_put, is_apart};
ghost use Rattle.lengths.specs.Sized.{Sized};

use aries::block::Kind;
use aries::point::FARTHEST;
use aries::reader::Setting;
use aries::word::{Word, Words};

// What a whole millimetre or degree has of hundredths.
const PER_UNIT: i32 = 100;

// Puts one length or angle of setting 0 into hundredths, and tells whether it does not pass the limit. With a point it has
// hundredths already, and six digits can't pass it.
fn one_to_hundredths(words: &mut Words, letter: u8) -> bool
    requires { count words.old.letters letter ≤ 999999 }
    ensures put { words.new ≡ hundredths_put words.old (letter ∷ []) }
    ensures near { result ≡ fits words.old.letters letter }
{
    let Some(word) = words.at(letter) else {
        return true;
    };
    if word.pointed {
        return true;
    }
    let value = PER_UNIT * word.value;
    words.put(letter, Word { value, ..word });
    value.unsigned_abs() <= FARTHEST
}

// The same of several letters, no one of them twice.
fn all_to_hundredths(words: &mut Words, letters: &[u8]) -> bool
    requires apart { is_apart letters.now ≡ true }
    requires sized { Sized words.old.letters }
    ensures put { words.new ≡ hundredths_put words.old letters.now }
    ensures near { result ≡ every (fits words.old.letters) letters.now }
{
    let mut near = true;
    for &letter in letters {
        near = near & one_to_hundredths(words, letter);
    }
    near
}

// The letters of a kind of block that are lengths or angles; P is an angle in G29, and P and Q are lengths in G66.
fn lengths_of(kind: Kind) -> &'static [u8]
    ensures { result.now ≡ bytes (lengths_of kind) }
{
    match kind {
        Kind::G26 | Kind::G28 | Kind::G36 | Kind::G37 => b"IJ",
        Kind::G29 => b"IJP",
        Kind::G66 => b"IJPQD",
        Kind::G70 | Kind::G72 | Kind::G73 | Kind::G92 | Kind::G93 | Kind::Position => b"XY",
        Kind::G98 => b"XYIJD",
        _ => b"",
    }
}

// `Sized` is a clause here and in blocks, and no invariant of words: one in hundredths may pass it.

// Puts the lengths and angles of a block of a kind into hundredths, and tells whether none passes the limit that they have at
// setting 0. At setting 1 they have hundredths as they are written.
pub fn to_hundredths(setting: Setting, words: &mut Words, kind: Kind) -> bool
    requires { Sized words.old.letters }
    ensures put { words.new ≡ record words.old { letters = in_hundredths setting kind words.old.letters } }
    ensures near { result ≡ lengths_fit setting kind words.old.letters }
{
    match setting {
        Setting::Hundredths => true,
        Setting::Millimetres => all_to_hundredths(words, lengths_of(kind)),
    }
}
