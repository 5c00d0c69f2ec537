ghost use Rattle.std.specs.Prelude.{◌≡◌, IfErr};
ghost use Rattle.aries.specs.declared.setup.Stage.TheVariants.{Running};
ghost use Rattle.aries.specs.Program.{at_stage};
ghost use Rattle.turns.specs.Turns.{Alone, left_at, Settles};

use crate::origins::set_origin;
use crate::turn::{Called, Next};
use aries::block::{Block, Outside};
use aries::location::Location;
use aries::machine::Machine;
use aries::refusal::{Refusal, Refused};
use aries::setup::{Program, Stage};

// A block before G92 or after G50, which has begun in a line that ends at a place: only G92 may come, and that first.
#[tactic(auto, unfolding(crate::specs::Turns::placed, aries::specs::Program::carry_out, aries::specs::Program::carry_outside))]
pub fn start(end: Location, block: Block, program: &mut Program) -> Result<Next, Refused>
    requires { Alone program.old.stage }
    ensures settles { Settles (left_at result program.new) end block program.old }
    ensures kept { IfErr result (λ e. program.new ≡ program.old) }
{
    let (Stage::Fresh, Block::Outside(Outside::Machine(pair))) = (program.stage, block) else {
        return Err(Refusal::OutOfPlace.at(end.line));
    };
    let machine = Machine::named(pair).ok_or(Refusal::NoMachine.at(end.line))?;
    program.stage = Stage::Running;
    program.setup = program.setup.with_machine(machine);
    program.progress.state = program.progress.state.moved_to(pair);
    Ok(Next::Line(end))
}

// A block that stands only outside bodies, which has begun in a line that ends at a place. It is carried out as while the program runs.
#[tactic(auto, unfolding(crate::specs::Turns::placed, aries::specs::Program::carry_out, aries::specs::Program::carry_outside))]
pub fn settle(end: Location, outside: Outside, program: &mut Program) -> Result<Next, Refused>
    ensures settles { Settles (left_at result program.new) end (Block.Outside outside) (at_stage Running program.old) }
    ensures kept { IfErr result (λ e. program.new ≡ at_stage Running program.old) }
{
    program.stage = Stage::Running; // whatever it was
    let setup = program.setup;
    match outside {
        Outside::Machine(_) => Err(Refusal::OutOfPlace.at(end.line)),
        Outside::End => {
            program.stage = Stage::Ended;
            Ok(Next::Line(end))
        }
        Outside::Offset(axes) => set_origin(end, setup.sheet, axes.over(setup.offset), program),
        Outside::Layout(layout) => set_origin(end, Some(layout), setup.offset, program),
        Outside::Open(number) => Ok(Next::Open(number, end)),
        Outside::Close(_) => Err(Refusal::NotClosed.at(end.line)),
        Outside::Copy(copies) => Ok(Next::Run(Called::Part(copies), end)),
    }
}
