ghost use Rattle.std.specs.Prelude.{◌≡◌, ◌-◌, ◌≤◌};
ghost use Rattle.aries.specs.Macros.{no_macros, storing, characters, found_in};

// A slot for each macro number from 0 on, which no macro has, to 89.
pub const SLOTS: usize = 90;

// Where a stored body starts and ends in the text without spaces, and the line of its start.
#[derive(Clone, Copy)]
pub struct StoredBody {
    pub start: u16,
    pub end: u16,
    pub line: u16,
}

// Where a stored body starts in the text without spaces, and the line of its start.
#[derive(Clone, Copy)]
pub struct Start {
    pub offset: u16,
    pub line: u16,
}

// The stored bodies: where each starts and ends, by macro number, a struct by value as document 01 names it. Nothing is stored where
// there is no start.
#[derive(Clone, Copy)]
pub struct Macros {
    pub starts: [Option<Start>; SLOTS],
    pub ends: [u16; SLOTS],
}

impl Macros {
    // Nothing stored.
    pub fn none() -> Macros
        ensures { result ≡ no_macros }
    {
        Macros {
            starts: [None; SLOTS],
            ends: [0; SLOTS],
        }
    }

    // The body of a macro.
    pub fn find(&self, number: u8) -> Option<StoredBody>
        ensures { result ≡ found_in self.now number }
    {
        let n = usize::from(number);
        if SLOTS <= n {
            return None;
        }
        let start = self.starts[n]?;
        Some(StoredBody {
            start: start.offset,
            end: self.ends[n],
            line: start.line,
        })
    }

    // With the body of a macro in place of its old one.
    pub fn storing(mut self, number: u8, body: StoredBody) -> Macros
        ensures { result ≡ storing self number body }
    {
        let n = usize::from(number);
        if n < SLOTS {
            self.starts[n] = Some(Start {
                offset: body.start,
                line: body.line,
            });
            self.ends[n] = body.end;
        }
        self
    }

    // The characters of all bodies.
    #[tactic(auto, unfolding(crate::specs::Macros::characters))]
    pub fn characters(&self) -> usize
        ensures { result ≡ characters self.now }
    {
        let mut total = 0;
        for (start, end) in self.starts.iter().zip(&self.ends) {
            if let Some(start) = start {
                total += usize::from(end.saturating_sub(start.offset));
            }
        }
        total
    }
}
