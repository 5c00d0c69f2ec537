ghost use Rattle.std.specs.Prelude.{◌≡◌, Some};
ghost use Rattle.std.specs.Fmt.{decimal};
ghost use Rattle.aries.specs.Outcome.{refusal_number, refused_text};

use std::fmt;

// The refusals by their numbers, in checking order but for the last.
#[derive(Clone, Copy, Debug, PartialEq, Eq)]
pub enum Refusal {
    TextLength = 1,
    StrayByte = 2,
    BlocksSpent = 3,
    WordForm = 4,
    NotListed = 5,
    WrongNumber = 6,
    OutOfPlace = 7,
    NoMachine = 8,
    NotClosed = 9,
    NotStored = 10,
    TooDeep = 11,
    StoreFull = 12,
    NoLayout = 13,
    NoTool = 14,
    TooFar = 15,
    OutOfRange = 16,
    ListFull = 17,
    // of G66, judged before the four above
    ShearUnfit = 18,
}

// A refusal and its line: that of the block, or 0 where no line is at fault, as document 01 has it.
#[derive(Clone, Copy, Debug, PartialEq, Eq)]
pub struct Refused {
    pub refusal: Refusal,
    pub line: u64,
}

impl Refusal {
    // Its number.
    pub fn number(self) -> u8
        ensures { result ≡ refusal_number self }
    {
        self as u8
    }

    // The refusal in a line.
    pub fn at(self, line: u64) -> Refused
        ensures { result ≡ record { refusal = self; line = line } }
    {
        Refused {
            refusal: self,
            line,
        }
    }
}

// A refusal is shown as its number.
impl fmt::Display for Refusal {
    ghost output = { λ refusal. Some (decimal (refusal_number refusal)) };

    fn fmt<W: fmt::Write>(&self, f: &mut fmt::Formatter<W>) -> fmt::Result {
        write!(f, "{}", self.number())
    }
}

// With its line, as the program hitlist names it.
impl fmt::Display for Refused {
    ghost output = { λ refused. Some (refused_text refused) };

    #[tactic(auto, unfolding(crate::specs::Outcome::refused_text, crate::specs::Text::bytes))]
    fn fmt<W: fmt::Write>(&self, f: &mut fmt::Formatter<W>) -> fmt::Result {
        write!(f, "REFUSED {} LINE {}", self.refusal, self.line)
    }
}
