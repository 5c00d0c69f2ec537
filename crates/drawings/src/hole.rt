// Holes, and where they stand: the rows of a drawing's table and the entries of a list.
ghost use Rattle.std.specs.Prelude.{◌≡◌, Option};
ghost use Rattle.drawings.specs.declared.hole.Hole.{Hole};
ghost use Rattle.drawings.specs.Holes.{row_hole, entry_hole};

// The numbers of a row of a table: X, Y and tool.
pub const ROW: usize = 3;

// The numbers of an entry of a list: X, Y, tool and mode.
pub const ENTRY: usize = 4;

// The modes of M00 and M01.
const STOP: i32 = 2;

const OPTIONAL_STOP: i32 = 3;

// A hole: X and Y in hundredths of a millimetre, and the tool that makes it. Two holes are one where all three are the same.
#[derive(Clone, Copy, Debug, PartialEq, Eq)]
pub struct Hole {
    pub x: i32,
    pub y: i32,
    pub tool: i32,
}

// A row of a table or an entry of a list, at which a hole may stand.
pub trait Place {
    ghost hole_of: { Self → Option Hole };

    // The hole that stands there; at a stop none does.
    fn hole(&self) -> Option<Hole>
        ensures { result ≡ hole_of self.now };
}

impl Place for [i32; ROW] {
    ghost hole_of = { row_hole };

    fn hole(&self) -> Option<Hole> {
        let [x, y, tool] = *self;
        Some(Hole { x, y, tool })
    }
}

impl Place for [i32; ENTRY] {
    ghost hole_of = { entry_hole };

    fn hole(&self) -> Option<Hole> {
        let [x, y, tool, mode] = *self;
        match mode {
            STOP | OPTIONAL_STOP => None,
            _ => Some(Hole { x, y, tool }),
        }
    }
}
