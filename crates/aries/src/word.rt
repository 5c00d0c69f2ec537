// The words of a block.
ghost use Rattle.std.specs.Prelude.{◌≡◌, nat_abs, set, replicate};
ghost use Rattle.aries.specs.Letters.{index_of};
ghost use Rattle.aries.specs.ByLetter.{added, at, has, no_words, is_plain, measure_of};
ghost use Rattle.aries.specs.Blocks.{written, number, count};

use crate::block::Measure;
use std::marker::Model;

// A word: whether it has a sign and a point, and its value: as it is read, the number that its digits make where it has no
// point, hundredths where it has one; past refusal 5, a length or an angle has hundredths.
#[derive(Clone, Copy)]
pub struct Word {
    pub signed: bool,
    pub pointed: bool,
    pub value: i32,
}

impl Word {
    // Whether it has neither a sign nor a point.
    pub fn is_plain(self) -> bool
        ensures { result ≡ is_plain self }
    {
        !self.signed & !self.pointed
    }

    // Its number without the sign.
    pub fn size(self) -> u32
        ensures { result ≡ nat_abs self.value }
    {
        self.value.unsigned_abs()
    }

    // The G90 or G91 that it says as the word of a G.
    pub fn measure(self) -> Option<Measure>
        ensures { result ≡ measure_of self }
    {
        if !self.is_plain() {
            return None;
        }
        match self.size() {
            90 => Some(Measure::Absolute),
            91 => Some(Measure::Incremental),
            _ => None,
        }
    }
}

// The sign and the point of a word.
#[derive(Clone, Copy)]
struct Marks {
    signed: bool,
    pointed: bool,
}

// The words of a block from A to Z, where they are written. Marks and numbers lie apart: an array of 26 optional words takes half
// as much memory again, and with it a block is read a tenth slower.
#[derive(Clone, Drop)]
pub struct Letters {
    marks: [Option<Marks>; 26],
    numbers: [i32; 26],
}

impl Model for Letters {
    ghost use Rattle.std.specs.Prelude.{◌≡◌, List, Option, length};
    ghost use Rattle.aries.specs.declared.word.Word.{Word};
    ghost use Rattle.aries.specs.Marks.{letters_of};

    ghost Value = { List (Option Word) };

    ghost view = { λ l. letters_of l.marks l.numbers };

    ghost invariant = { λ l. length l.marks ≡ 26 };
}

// The place of a letter; what stands before A counts as A.
fn place_of(letter: u8) -> usize
    ensures { result ≡ index_of letter }
{
    usize::from(letter.saturating_sub(b'A'))
}

impl Letters {
    // No word.
    fn none() -> Letters
        ensures { result ≡ replicate 26 None }
    {
        Letters {
            marks: [None; 26],
            numbers: [0; 26],
        }
    }

    // The word with a letter.
    #[tactic(auto, using(crate::proofs::Marks::letters_at))]
    fn at(&self, letter: u8) -> Option<Word>
        ensures { result ≡ at self.now letter }
    {
        let place = place_of(letter);
        let value = self.numbers.get(place).copied().unwrap_or(0);
        let marks = self.marks.get(place).copied().flatten();
        marks.map(|marks| Word {
            signed: marks.signed,
            pointed: marks.pointed,
            value,
        })
    }

    // Whether a letter is written.
    #[tactic(auto, using(crate::proofs::Marks::letters_has))]
    fn has(&self, letter: u8) -> bool
        ensures { result ≡ has self.now letter }
    {
        let marks = self.marks.get(place_of(letter)).copied();
        marks.flatten().is_some()
    }

    // Puts a word in the place of its letter; what is no letter has none.
    fn put(&mut self, letter: u8, word: Word)
        ensures { self.new ≡ set self.old (index_of letter) (Some word) }
    {
        let place = place_of(letter);
        if place < self.marks.len() {
            self.marks[place] = Some(Marks {
                signed: word.signed,
                pointed: word.pointed,
            });
            self.numbers[place] = word.value;
        }
    }
}

// The words of a block by letter. G stands apart: the code, and the G90 or G91.
#[derive(Clone, Drop)]
pub struct Words {
    pub letters: Letters,
    pub code: Option<u32>,
    pub measure: Option<Measure>,
}

impl Words {
    // A block without words.
    pub fn none() -> Words
        ensures { result ≡ no_words }
    {
        Words {
            letters: Letters::none(),
            code: None,
            measure: None,
        }
    }

    // The word with a letter.
    pub fn at(&self, letter: u8) -> Option<Word>
        ensures { result ≡ at self.now.letters letter }
    {
        self.letters.at(letter)
    }

    // Puts a word in the place of its letter; what is no letter has none.
    pub fn put(&mut self, letter: u8, word: Word)
        ensures { self.new ≡ record self.old { letters = set self.old.letters (index_of letter) (Some word) } }
    {
        self.letters.put(letter, word);
    }

    // Adds a word: a G90 or G91, any other G as the code, any other letter in its place.
    #[tactic(auto, unfolding(crate::specs::ByLetter::added))]
    pub fn add(&mut self, letter: u8, word: Word)
        ensures { self.new ≡ added self.old letter word }
    {
        if letter != b'G' {
            self.put(letter, word);
        } else if let Some(measure) = word.measure() {
            self.measure = Some(measure);
        } else {
            self.code = Some(word.size());
        }
    }

    // Whether a letter is written.
    pub fn has(&self, letter: u8) -> bool
        ensures { result ≡ has self.now.letters letter }
    {
        self.letters.has(letter)
    }

    // The number of a letter, where it is written.
    pub fn written(&self, letter: u8) -> Option<i32>
        ensures { result ≡ written self.now.letters letter }
    {
        self.at(letter).map(|word| word.value)
    }

    // Its number, 0 where it is absent: what document 01 takes an omitted one for.
    pub fn number(&self, letter: u8) -> i32
        ensures { result ≡ number self.now.letters letter }
    {
        self.written(letter).unwrap_or(0)
    }

    // Its number without the sign.
    pub fn count(&self, letter: u8) -> u32
        ensures { result ≡ count self.now.letters letter }
    {
        self.number(letter).unsigned_abs()
    }
}
