ghost use Rattle.std.specs.Prelude.{◌≡◌, true, ◌<◌, ◌≤◌, pos, ◌*ℤ◌};
ghost use Rattle.lanes.specs.Cursors.{passed};
ghost use Rattle.aries.specs.WidePoints.{point_of, Moderate};
ghost use Rattle.aries.specs.declared.block.Steps.{Steps};
ghost use Rattle.aries.specs.Judging.{is_near};
ghost use Rattle.aries.specs.Lanes.{lane_end};
ghost use Rattle.aries.specs.Moves.{point_at, ◌⊕◌};
ghost use Rattle.aries.specs.Patterns.{polar, turned, circle_angle, grid_offset};
ghost use Rattle.patterns.specs.Offsets.{toward};

use aries::point::{Point, WidePoint};
use lanes::Cursor;
use sine::Direction;

// Two full turns, in hundredths of a degree.
const TWO_TURNS: u64 = 72_000;

// The place at a distance from the start, in a direction.
fn polar_place(start: Point, distance: i32, direction: Direction) -> WidePoint
    ensures result_value { point_of result ≡ start ⊕ toward distance direction }
    ensures moderate { Moderate result }
{
    WidePoint {
        x: sine::displaced(start.x, distance, direction.cosine),
        y: sine::displaced(start.y, distance, direction.sine),
    }
}

// The place on a line that lies n pitches from the start.
pub fn line_place(start: Point, pitch: i32, direction: Direction, n: u16) -> WidePoint
    requires { is_near (pos n *ℤ pitch) ≡ true }
    ensures result_value { point_of result ≡ start ⊕ toward (pos n *ℤ pitch) direction }
    ensures moderate { Moderate result }
{
    let distance = signed::narrow(signed::product(n, pitch));
    polar_place(start, distance, direction)
}

// The place at a radius from the start and an angle.
pub fn arc_place(start: Point, radius: i32, angle: i64) -> WidePoint
    ensures result_value { point_of result ≡ start ⊕ polar radius angle }
    ensures moderate { Moderate result }
{
    polar_place(start, radius, sine::direction_of(angle))
}

// The part k / n of a full turn, to the nearest hundredth of a degree, halves up: all is doubled, so that n is the half.
fn turned(n: u16, k: u16) -> u16
    requires { k < n }
    ensures { result ≡ turned n k }
{
    let parts = u64::from(n);
    let done = u64::from(k);
    // two turns fit
    ((TWO_TURNS * done + parts) / (2 * parts)) as u16
}

// The angle of hit k of a circle of n hits.
pub fn circle_angle(angle: i32, clockwise: bool, n: u16, k: u16) -> i64
    requires { k < n }
    ensures { result ≡ circle_angle angle clockwise n k }
{
    let side = if clockwise { -1 } else { 1 };
    signed::affine(angle, turned(n, k), side)
}

// The place so many columns and rows from the start.
fn step_place(start: Point, pitch: Point, column: u16, row: u16) -> WidePoint
    ensures result_value { point_of result ≡ start ⊕ point_at (pos column *ℤ pitch.x) (pos row *ℤ pitch.y) }
    ensures moderate { Moderate result }
{
    WidePoint {
        x: signed::affine(start.x, column, pitch.x),
        y: signed::affine(start.y, row, pitch.y),
    }
}

// The place of a cursor in a grid, whose lanes are rows or, in a vertical one, columns.
pub fn grid_place(start: Point, vertical: bool, pitch: Point, cursor: Cursor) -> WidePoint
    requires { cursor.lane ≤ 65535 }
    ensures result_value { (steps : Steps) → cursor.last ≡ lane_end vertical steps → point_of result ≡ start ⊕ grid_offset vertical pitch steps (passed cursor) }
    ensures moderate { Moderate result }
{
    let (column, row) = cursor.column_and_row(vertical);
    step_place(start, pitch, column, row)
}
