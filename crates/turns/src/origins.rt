ghost use Rattle.std.specs.Prelude.{◌≡◌, IfErr};
ghost use Rattle.aries.specs.Moves.{◌⊕◌};
ghost use Rattle.aries.specs.WidePoints.{point_of};
ghost use Rattle.aries.specs.Setup.{reference_of};
ghost use Rattle.turns.specs.Turns.{left_at, SetsOrigin};

use crate::turn::Next;
use aries::block::Layout;
use aries::location::Location;
use aries::point::{Point, WidePoint};
use aries::refusal::{Refusal, Refused};
use aries::setup::{self, Program};

// Reference plus offset.
fn origin_place(sheet: Option<Layout>, offset: Point) -> WidePoint
    ensures { point_of result ≡ reference_of sheet ⊕ offset }
{
    let reference = setup::reference_of(sheet);
    WidePoint {
        x: signed::sum(reference.x, offset.x),
        y: signed::sum(reference.y, offset.y),
    }
}

// G93 and G98: the origin by a layout and an offset, in a line that ends at a place.
#[tactic(auto, unfolding(aries::specs::Setup::set_origin))]
pub fn set_origin(
    end: Location,
    sheet: Option<Layout>,
    offset: Point,
    program: &mut Program,
) -> Result<Next, Refused>
    ensures sets { SetsOrigin (left_at result program.new) end sheet offset program.old }
    ensures kept { IfErr result (λ e. program.new ≡ program.old) }
{
    let place = origin_place(sheet, offset);
    let origin = place.located().ok_or(Refusal::TooFar.at(end.line))?;
    program.setup = program.setup.with_origin(sheet, offset, origin);
    Ok(Next::Line(end))
}
