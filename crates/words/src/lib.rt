// The words of a block: digits, a word, and all words of a line by their letters. Places of the text go from function to function, not what
// is left of it, since a body is stored by its places.
#![tactic(auto)]

ghost use Rattle.std.specs.Prelude.{◌≡◌, [], cond, ◌+◌, ◌^◌, ◌≤◌, ◌<◌, eqb, drop};
ghost use Rattle.aries.specs.Words.{LetterWord, formed_words, is_sign, word};
ghost use Rattle.aries.specs.Forms.{is_pattern_code};
ghost use Rattle.text.specs.Lines.{line_length};
ghost use Rattle.words.specs.Line.{first_line, ended, line_of, with_word, is_out_of_place};
ghost use Rattle.words.specs.Reading.{number, reading_of, reading_at};

pub mod digits; // digits, and tests of a byte

use crate::digits::{byte_at, hundredths_of, is_sign, read_digits};
use aries::word::{Word, Words};
use signed::with_sign;
use text::LINE_FEED;

// A number that was read: its value, in hundredths where it has a point, and how many bytes it takes.
#[derive(Clone, Copy)]
struct Number {
    value: u32,
    pointed: bool,
    size: usize,
}

// A word that was read: its letter, the word itself and the place past it.
#[derive(Clone, Copy)]
struct Reading {
    letter: u8,
    word: Word,
    end: usize,
}

// Whether the line that starts at a place has no bytes.
fn is_line_end(text: &[u8], at: usize) -> bool
    ensures { result ≡ eqb (line_length (drop at text.now)) 0 }
{
    text.get(at).is_none_or(|b| *b == LINE_FEED)
}

// The most digits that stand before a point.
const MOST_WHOLE: usize = 4;

// The number at a place.
fn read_number(text: &[u8], from: usize) -> Option<Number>
    ensures { result ≡ number (drop from text.now) }
{
    let whole = read_digits(text, from, 6);
    if whole.count == 0 {
        return None;
    }
    let end = from + whole.count;
    if byte_at(text, end) != b'.' {
        return Some(Number {
            value: whole.value,
            pointed: false,
            size: whole.count,
        });
    }
    if MOST_WHOLE < whole.count {
        return None;
    }
    let decimals = read_digits(text, end + 1, 2);
    let value = hundredths_of(whole.value, decimals);
    Some(Number {
        value,
        pointed: true,
        size: whole.count + 1 + decimals.count,
    })
}

// A word from its letter, the byte where its sign is due, and its number with the place where that starts.
fn make_reading(letter: u8, sign: u8, from: usize, number: Number) -> Reading
    requires { (from + number.size < 2 ^ 64) × (number.value < 1000000) }
    ensures { result ≡ reading_of letter sign from number }
{
    Reading {
        letter,
        word: Word {
            signed: is_sign(sign),
            pointed: number.pointed,
            value: with_sign(sign == b'-', number.value),
        },
        end: from + number.size,
    }
}

// How many bytes stand before the number: the letter, and the sign if the byte after it is one.
fn front_size(sign: u8) -> usize
    ensures { result ≡ cond (is_sign sign) 2 1 }
{
    if is_sign(sign) { 2 } else { 1 }
}

// The word at a place.
fn read_word(text: &[u8], at: usize) -> Option<Reading>
    ensures { result ≡ reading_at at (word (drop at text.now)) }
{
    let letter = byte_at(text, at);
    if !letter.is_ascii_uppercase() {
        return None;
    }
    let sign = byte_at(text, at + 1);
    let from = at + front_size(sign);
    let number = read_number(text, from)?;
    Some(make_reading(letter, sign, from, number))
}

// Whether a G code is that of a pattern.
fn is_pattern_code(code: Option<u32>) -> bool
    ensures { result ≡ is_pattern_code code }
{
    matches!(code, Some(26 | 28 | 29 | 36 | 37 | 66))
}

// The words of a line by letter, and what is told of them in their order.
#[derive(Clone, Drop)]
pub struct Line {
    pub words: Words,
    // how many words there are besides N and G
    pub others: usize,
    // some word has been read, an N or a G too
    pub begun: bool,
    // a letter stands twice, a code beside another one, or N or A out of its place: 5, which is told once all words have their form
    pub misplaced: bool,
}

// The place of a word that has not its form.
#[derive(Clone, Copy)]
pub struct Malformed {
    pub at: usize,
}

impl Line {
    // A line without words.
    #[tactic(auto, unfolding(crate::specs::Line::line_of, aries::specs::ByLetter::by_letter, aries::specs::Forms::in_places))]
    pub fn none() -> Line
        ensures { result ≡ line_of [] }
    {
        Line {
            words: Words::none(),
            others: 0,
            begun: false,
            misplaced: false,
        }
    }

    // Whether a word that comes next is out of its place.
    fn is_out_of_place(&self, letter: u8, word: Word) -> bool
        ensures { result ≡ is_out_of_place self.now letter word }
    {
        match letter {
            b'G' => match word.measure() {
                Some(_) => self.words.measure.is_some(),
                None => self.words.code.is_some() | !word.is_plain(),
            },
            b'N' => self.begun,
            b'A' => self.words.has(letter) | is_pattern_code(self.words.code),
            _ => self.words.has(letter),
        }
    }

    // Adds a word.
    fn add(&mut self, letter: u8, word: Word)
        requires { self.old.others + 1 < 2 ^ 64 }
        ensures { self.new ≡ with_word self.old letter word }
    {
        self.misplaced = self.misplaced | self.is_out_of_place(letter, word);
        self.begun = true;
        self.words.add(letter, word);
        if !matches!(letter, b'N' | b'G') {
            self.others += 1;
        }
    }

    // Reads the words of the line that starts at a place, up to the first that has not its form, and answers where the line
    // ends, or where such a word stands.
    pub fn read(&mut self, text: &[u8], from: usize) -> Result<usize, Malformed>
        requires { self.old ≡ line_of [] }
        ensures end { result ≡ ended from (first_line (drop from text.now)) }
        ensures words { self.new ≡ line_of (formed_words (first_line (drop from text.now))) }
    {
        let mut at = from;
        while let Some(reading) = read_word(text, at) {
            self.add(reading.letter, reading.word);
            at = reading.end;
        }
        if is_line_end(text, at) {
            Ok(at)
        } else {
            Err(Malformed { at })
        }
    }
}
