use aries::block::{Call, Copies};
use aries::location::Location;

// A block that runs stored bodies: W and G73, or G75 and G76.
#[derive(Clone, Copy)]
pub enum Called {
    Macro(Call),
    Part(Copies),
}

// What comes next in a text.
#[derive(Clone, Copy)]
pub enum Next {
    // the lines from a place on
    Line(Location),
    // a block that runs stored bodies, and where its line ends
    Run(Called, Location),
    // the U line of a macro, likewise
    Open(u8, Location),
}
