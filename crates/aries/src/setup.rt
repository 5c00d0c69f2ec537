ghost use Rattle.std.specs.Prelude.{◌≡◌};
ghost use Rattle.aries.specs.Setup.{fresh_setup, with_machine, reference_of, with_origin, ordinary_frame};
ghost use Rattle.aries.specs.Moves.{◌⊕◌};
ghost use Rattle.aries.specs.Program.{fresh_program};

use crate::block::Layout;
use crate::job::Job;
use crate::machine::Machine;
use crate::macros::Macros;
use crate::mirror::Mirror;
use crate::point::Point;
use crate::state::{Frame, Progress};

// The reference point of the layout in force, zero before G98.
pub fn reference_of(sheet: Option<Layout>) -> Point
    ensures { result ≡ reference_of sheet }
{
    sheet.map_or(Point::ZERO, |layout| layout.reference)
}

// What G92, G93 and G98 set up for a job: the machine, the layout of the sheet, and where X and Y are measured from, reference
// plus offset.
#[derive(Clone, Copy)]
pub struct Setup {
    pub job: Job,
    pub machine: Machine,
    pub sheet: Option<Layout>,
    pub offset: Point,
    pub origin: Point,
}

impl Setup {
    // The setup at the start.
    pub fn fresh(job: Job) -> Setup
        ensures { result ≡ fresh_setup job }
    {
        Setup {
            job,
            machine: Machine::Aries222,
            sheet: None,
            offset: Point::ZERO,
            origin: Point::ZERO,
        }
    }

    // The frame of blocks outside bodies.
    pub fn frame(self) -> Frame
        ensures { result ≡ ordinary_frame self }
    {
        Frame {
            job: self.job,
            machine: self.machine,
            origin: self.origin,
            mirror: Mirror::none(),
        }
    }

    // The setup with another machine.
    pub fn with_machine(mut self, machine: Machine) -> Setup
        ensures { result ≡ with_machine self machine }
    {
        self.machine = machine;
        self
    }

    // The setup with another layout and offset, and their origin.
    pub fn with_origin(self, sheet: Option<Layout>, offset: Point, origin: Point) -> Setup
        requires { origin ≡ reference_of sheet ⊕ offset }
        ensures { result ≡ with_origin self sheet offset }
    {
        Setup {
            sheet,
            offset,
            origin,
            ..self
        }
    }
}

// How far a program has come: no G92 yet, running, between a U line and its V line, or past G50.
#[derive(Clone, Copy, Debug, PartialEq, Eq)]
pub enum Stage {
    Fresh,
    Running,
    Storing,
    Ended,
}

// A program under way.
#[derive(Clone, Copy)]
pub struct Program {
    pub stage: Stage,
    pub setup: Setup,
    pub macros: Macros,
    pub progress: Progress,
}

impl Program {
    // The program at its start.
    pub fn fresh(job: Job) -> Program
        ensures { result ≡ fresh_program job }
    {
        Program {
            stage: Stage::Fresh,
            setup: Setup::fresh(job),
            macros: Macros::none(),
            progress: Progress::fresh(),
        }
    }
}
