ghost use Rattle.std.specs.Prelude.{◌≡◌};
ghost use Rattle.aries.specs.Moves.{written_over, written_or};

use crate::point::Point;

// The kinds of block: by the G code or, without one, by the letters.
#[derive(Clone, Copy)]
pub enum Kind {
    G26,
    G28,
    G29,
    G36,
    G37,
    G50,
    G70,
    G72,
    G75,
    G76,
    G92,
    G93,
    G98,
    Position,
    Lone,
    LetterM,
    LetterB,
    LetterU,
    LetterV,
    LetterW,
    G66,
    G73,
}

// The X and Y words of a block: the number of each, where it is written.
#[derive(Clone, Copy)]
pub struct Axes {
    pub x: Option<i32>,
    pub y: Option<i32>,
}

impl Axes {
    // A point, with the axes that are written in place of its own.
    pub fn over(self, before: Point) -> Point
        ensures { result ≡ written_over self before }
    {
        Point {
            x: self.x.unwrap_or(before.x),
            y: self.y.unwrap_or(before.y),
        }
    }

    // X and Y, each of them as it was before where it is not written.
    pub fn or(self, before: Axes) -> Axes
        ensures { result ≡ written_or self before }
    {
        Axes {
            x: self.x.or(before.x),
            y: self.y.or(before.y),
        }
    }
}

// Steps from the first place of a grid or layout to the last one, along X and along Y: one less than its columns and
// its rows.
#[derive(Clone, Copy)]
pub struct Steps {
    pub x: u16,
    pub y: u16,
}

impl Steps {
    ghost use Rattle.aries.specs.Lanes.{places, lane_end, last_lane};

    // How many places there are.
    #[tactic(auto, using(crate::proofs::Lanes::places_fit))]
    pub fn places(self) -> u64
        ensures { result ≡ places self }
    {
        (u64::from(self.x) + 1) * (u64::from(self.y) + 1)
    }

    // The last place of a lane: of a row, or where lanes are vertical of a column.
    pub fn lane_end(self, vertical: bool) -> u16
        ensures { result ≡ lane_end vertical self }
    {
        if vertical { self.y } else { self.x }
    }

    // The last lane.
    pub fn last_lane(self, vertical: bool) -> u16
        ensures { result ≡ last_lane vertical self }
    {
        if vertical { self.x } else { self.y }
    }
}

// The pitches of a layout.
#[derive(Clone, Copy)]
pub struct Pitch {
    pub x: u32,
    pub y: u32,
}

// The lengths of G66: of the edge (I), of the tool along it (P) and across it (Q), which have the sign of the side where the
// tool lies, and what is added at both ends (D).
#[derive(Clone, Copy)]
pub struct Shear {
    pub length: i32,
    pub along: i32,
    pub across: i32,
    pub compensation: i32,
}

// A pattern code with its numbers.
#[derive(Clone, Copy)]
pub enum Pattern {
    // G28: count hits, the k-th at k times the pitch
    Line {
        pitch: i32,
        angle: i32,
        count: u16,
    },
    // G29
    Arc {
        radius: i32,
        angle: i32,
        step: i32,
        count: u16,
    },
    // G26
    Circle {
        radius: i32,
        angle: i32,
        clockwise: bool,
        count: u16,
    },
    // G36, row by row; vertical is G37, column by column
    Grid {
        vertical: bool,
        pitch: Point,
        steps: Steps,
    },
    // G66, at an angle within a full turn
    Shear {
        angle: u16,
        lengths: Shear,
    },
}

// What G98 sets: the reference point, the pitches with D added, and the steps P and K.
#[derive(Clone, Copy)]
pub struct Layout {
    pub reference: Point,
    pub pitch: Pitch,
    pub steps: Steps,
}

// A G75 block, or with vertical a G76 block: the part that it copies and the corner where it starts, by Q. Q stays a number here and
// in Mirroring, since what is proved of copies and mirrored parts holds of every number.
#[derive(Clone, Copy)]
pub struct Copies {
    pub vertical: bool,
    pub part: u8,
    pub corner: u8,
}

// A block that is carried out where it stands, in a body and outside bodies.
#[derive(Clone, Copy)]
pub enum Direct {
    // a lone G90 or G91
    Lone,
    // X or Y without a code: a hit, with the tool of T where it is written
    Punch(Axes, Option<u8>),
    // G70, with the tool of T
    Move(Axes, Option<u8>),
    // G72
    PatternOrigin(Axes),
    // a pattern code, with the tool of T and the memory of A, where they are written
    RunPattern(Pattern, Option<u8>, Option<u8>),
    // B
    Recall(u8),
    // M12, and M13 with false
    Nibble(bool),
    // M08, M09
    Idle,
    // M01, and M00 with false
    Stop(bool),
}

// A block that stands only outside bodies.
#[derive(Clone, Copy)]
pub enum Outside {
    // G92
    Machine(Point),
    // G50
    End,
    // G93
    Offset(Axes),
    // G98
    Layout(Layout),
    // U
    Open(u8),
    // V
    Close(u8),
    // G75 and G76
    Copy(Copies),
}

// A G73 block: the part that it runs, how that is mirrored, by Q, and X and Y, where they are written.
#[derive(Clone, Copy)]
pub struct Mirroring {
    pub part: u8,
    pub way: u8,
    pub axes: Axes,
}

// A block that calls a macro.
#[derive(Clone, Copy)]
pub enum Call {
    // W
    Plain(u8),
    // G73
    Mirrored(Mirroring),
}

// What a block asks for, by where it may stand: direct blocks and calls stand anywhere.
#[derive(Clone, Copy)]
pub enum Block {
    Direct(Direct),
    Call(Call),
    Outside(Outside),
}

// How X and Y are read from a block on: by G90 or by G91.
#[derive(Clone, Copy)]
pub enum Measure {
    Absolute,
    Incremental,
}

// A block with the G90 or G91 that stands in it, if one does.
#[derive(Clone, Copy)]
pub struct Instruction {
    pub measure: Option<Measure>,
    pub block: Block,
}
