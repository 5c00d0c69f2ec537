// The places of a layout: where its copies lie, and in which order.
#![tactic(auto)]

ghost use Rattle.std.specs.Prelude.{◌≡◌, ◌-◌, ◌*◌, ◌≤◌, ◌<◌, pos, ◌+ℤ◌};
ghost use Rattle.aries.specs.Judging.{near};
ghost use Rattle.aries.specs.Lanes.{lane_end};
ghost use Rattle.aries.specs.Layouts.{copy_count, from_right, from_top, facing, place_at, copy_place};
ghost use Rattle.aries.specs.WidePoints.{point_of};
ghost use Rattle.lanes.specs.Cursors.{passed};
ghost use Rattle.placing.specs.Places.{all_near, last_copy};

use aries::block::{Copies, Layout};
use aries::point::{Point, WidePoint};
use lanes::Cursor;

// The corners, by Q.
const LOWER_LEFT: u8 = 1;

const LOWER_RIGHT: u8 = 2;

const UPPER_LEFT: u8 = 3;

const UPPER_RIGHT: u8 = 4;

// Whether the first place is at the right.
fn from_right(corner: u8) -> bool
    ensures { result ≡ from_right corner }
{
    matches!(corner, LOWER_RIGHT | UPPER_RIGHT)
}

// Whether the first place is at the top.
fn from_top(corner: u8) -> bool
    ensures { result ≡ from_top corner }
{
    matches!(corner, UPPER_LEFT | UPPER_RIGHT)
}

// A coordinate of a place: so many pitches from the origin, counted from the near end or from the far one.
fn coordinate(origin: i32, far: bool, last: u16, n: u16, pitch: u32) -> i64
    requires { n ≤ last }
    ensures { result ≡ origin +ℤ pos (facing far last n * pitch) }
{
    let steps = if far { last - n } else { n };
    signed::scaled(origin, steps, pitch)
}

// Whether 15 lets a place pass.
fn is_near(place: WidePoint) -> bool
    ensures { result ≡ near (point_of place) }
{
    place.located().is_some()
}

// The places of a layout from an origin on, as a G75 or G76 block goes through them.
#[derive(Clone, Copy)]
pub struct Places {
    pub origin: Point,
    pub layout: Layout,
    pub copies: Copies,
}

impl Places {
    // How many they are.
    pub fn copy_count(self) -> u64
        ensures { result ≡ copy_count self.layout }
    {
        self.layout.steps.places()
    }

    // The cursor of the first one. Lanes are rows, or for G76 columns.
    pub fn first(self) -> Cursor
        ensures last { result.last ≡ lane_end self.copies.vertical self.layout.steps }
        ensures place { passed result ≡ 0 }
    {
        Cursor::first(self.layout.steps.lane_end(self.copies.vertical))
    }

    // The cursor of the last one.
    fn last(self) -> Cursor
        ensures last { result.last ≡ lane_end self.copies.vertical self.layout.steps }
        ensures place { passed result ≡ copy_count self.layout - 1 }
    {
        let last = self.layout.steps.lane_end(self.copies.vertical);
        Cursor {
            lane: u32::from(self.layout.steps.last_lane(self.copies.vertical)),
            rest: last,
            last,
        }
    }

    // The place of a column and a row, counted from a corner.
    fn place_at(self, corner: u8, column: u16, row: u16) -> WidePoint
        requires { (column ≤ self.layout.steps.x) × (row ≤ self.layout.steps.y) }
        ensures { point_of result ≡ place_at self.origin self.layout corner column row }
    {
        let steps = self.layout.steps;
        let pitch = self.layout.pitch;
        WidePoint {
            x: coordinate(self.origin.x, from_right(corner), steps.x, column, pitch.x),
            y: coordinate(self.origin.y, from_top(corner), steps.y, row, pitch.y),
        }
    }

    // The place of the copy that a cursor stands at.
    pub fn copy_place(self, cursor: Cursor) -> WidePoint
        requires last { cursor.last ≡ lane_end self.copies.vertical self.layout.steps }
        requires place { passed cursor < copy_count self.layout }
        ensures { point_of result ≡ copy_place self.origin self.layout self.copies (passed cursor) }
    {
        let (column, row) = cursor.column_and_row(self.copies.vertical);
        self.place_at(self.copies.corner, column, row)
    }

    // Whether all are near: the lower left one and the upper right one are, and the others lie between them.
    fn all_near(self) -> bool
        ensures { result ≡ all_near self.origin self.layout }
    {
        let steps = self.layout.steps;
        is_near(self.place_at(LOWER_LEFT, 0, 0))
            && is_near(self.place_at(LOWER_LEFT, steps.x, steps.y))
    }

    // The place of the last copy, if all places are near.
    pub fn last_copy(self) -> Option<Point>
        ensures { result ≡ last_copy self.origin self.layout self.copies }
    {
        if self.all_near() {
            self.copy_place(self.last()).located()
        } else {
            None
        }
    }
}
