ghost use Rattle.std.specs.Prelude.{◌≡◌};
ghost use Rattle.aries.specs.Steady.{Steady};

use crate::{places, sizes};
use aries::block::{Pattern, Shear, Steps};
use aries::point::{Point, WidePoint};
use aries::refusal::Refusal;
use aries::state::Frame;
use lanes::Cursor;
use press::hits;
use press::hits::Tooling;
use shears::places::Cut;

// A series of hits to be made: in a frame, with a tool, from a start on, after so many entries.
#[derive(Clone, Copy)]
pub struct Series {
    pub frame: Frame,
    pub tooling: Tooling,
    pub start: Point,
    pub entries: usize,
    ghost steady: { Steady 0 frame },
}

// How far a series of hits has come: the last point and the count of entries.
#[derive(Clone, Copy)]
pub struct Reached {
    pub current: Point,
    pub entries: usize,
}

impl Reached {
    // Back at a point, with the same count.
    fn back_at(mut self, point: Point) -> Reached
        ensures { result ≡ record { current = point; entries = self.entries } }
    {
        self.current = point;
        self
    }
}

impl Series {
    ghost use Rattle.std.specs.Prelude.{true, ◌<◌, ℕ, pos, ◌*ℤ◌};
    ghost use Rattle.aries.specs.declared.block.Pattern.{Pattern};
    ghost use Rattle.aries.specs.declared.block.Pattern.TheVariants as pattern;
    ghost use Rattle.aries.specs.declared.block.Pattern.TheVariants.{Line, Arc, Circle, Grid};
    ghost use Rattle.aries.specs.declared.point.WidePoint.{WidePoint};
    ghost use Rattle.aries.specs.Judging.{is_near, limits};
    ghost use Rattle.aries.specs.Moves.{punch};
    ghost use Rattle.aries.specs.Patterns.{reach_is_near, shear_is_fit};
    ghost use Rattle.aries.specs.Shear.{is_fit};
    ghost use Rattle.aries.specs.WidePoints.{point_of, Moderate};
    ghost use Rattle.aries.specs.Runs.{lent};
    ghost use Rattle.patterns.specs.Series.{begun, Comes, LieAt, hits, series};

    // Before the first hit.
    fn begun(self) -> Reached
        ensures { result ≡ begun self }
    {
        Reached {
            current: self.start,
            entries: self.entries,
        }
    }

    // One hit more, or its refusal.
    fn punch_next(
        self,
        list: &mut [i32],
        place: WidePoint,
        from: Reached,
    ) -> Result<Reached, Refusal>
        requires { Moderate place }
        ensures { Comes result self from (lent list.old) (lent list.new) (λ line. punch (limits self.frame.job) self.frame line (point_of place)) }
    {
        let current = hits::hit(list, self.frame, self.tooling, place, from.entries)?;
        Ok(Reached {
            current,
            entries: from.entries + 1,
        })
    }

    // So many hits in turn, up to the first refusal, by where hit k lies.
    fn punch_each<F: Fn(u32) -> WidePoint>(
        self,
        list: &mut [i32],
        count: u32,
        place: F,
    ) -> Result<Reached, Refusal>
        requires callable { (k : ℕ) → k < count → F.pre place k }
        requires moderate { (k : ℕ) (w : WidePoint) → k < count → F.post place k w → Moderate w }
        ensures { (p : Pattern) → LieAt (F.post place) p self.start count → Comes result self (begun self) (lent list.old) (lent list.new) (hits self p count) }
    {
        let mut reached = self.begun();
        for k in 0..count {
            reached = self.punch_next(list, place(k), reached)?;
        }
        Ok(reached)
    }

    // The hits of a line.
    fn punch_line(
        self,
        list: &mut [i32],
        pitch: i32,
        angle: i32,
        count: u16,
    ) -> Result<Reached, Refusal>
        requires { is_near (pos count *ℤ pitch) ≡ true }
        ensures { Comes result self (begun self) (lent list.old) (lent list.new) (series self (Line pitch angle count)) }
    {
        let start = self.start;
        let direction = sine::direction_of(i64::from(angle));
        self.punch_each(list, u32::from(count), |k| {
            // k is below the count, as below
            places::line_place(start, pitch, direction, (k + 1) as u16)
        })
    }

    // The hits of an arc.
    fn punch_arc(
        self,
        list: &mut [i32],
        radius: i32,
        angle: i32,
        step: i32,
        count: u16,
    ) -> Result<Reached, Refusal>
        ensures { Comes result self (begun self) (lent list.old) (lent list.new) (series self (Arc radius angle step count)) }
    {
        let start = self.start;
        self.punch_each(list, u32::from(count), |k| {
            places::arc_place(start, radius, signed::affine(angle, k as u16, step))
        })
    }

    // The hits of a circle, which ends at its start.
    fn punch_circle(
        self,
        list: &mut [i32],
        radius: i32,
        angle: i32,
        clockwise: bool,
        count: u16,
    ) -> Result<Reached, Refusal>
        ensures { Comes result self (begun self) (lent list.old) (lent list.new) (series self (Circle radius angle clockwise count)) }
    {
        let start = self.start;
        let circle = self.punch_each(list, u32::from(count), |k| {
            let turned = places::circle_angle(angle, clockwise, count, k as u16);
            places::arc_place(start, radius, turned)
        })?;
        Ok(circle.back_at(start))
    }

    // The hits of a grid, lane by lane. Not through `punch_each`: by its number alone, a hit's lane would take a division.
    fn punch_grid(
        self,
        list: &mut [i32],
        vertical: bool,
        pitch: Point,
        steps: Steps,
    ) -> Result<Reached, Refusal>
        ensures { Comes result self (begun self) (lent list.old) (lent list.new) (series self (Grid vertical pitch steps)) }
    {
        let count = sizes::grid_hits(steps);
        let mut reached = self.begun();
        let mut cursor = Cursor::first(steps.lane_end(vertical));
        for k in 0..count {
            cursor = cursor.next();
            let place = places::grid_place(self.start, vertical, pitch, cursor);
            reached = self.punch_next(list, place, reached)?;
        }
        Ok(reached)
    }

    // The hits of a G66, which ends at its start.
    fn punch_shear(self, list: &mut [i32], angle: u16, lengths: Shear) -> Result<Reached, Refusal>
        requires { is_fit lengths ≡ true }
        ensures { Comes result self (begun self) (lent list.old) (lent list.new) (series self (pattern.Shear angle lengths)) }
    {
        let start = self.start;
        let cut = Cut::prepare(angle, lengths);
        let edge = self.punch_each(list, cut.hits, |k| cut.place(start, k))?;
        Ok(edge.back_at(start))
    }

    // The hits of a pattern in turn, up to the first refusal.
    #[tactic(auto, unfolding(aries::specs::Patterns::reach_is_near, aries::specs::Patterns::shear_is_fit))]
    pub fn punch_pattern(self, list: &mut [i32], pattern: Pattern) -> Result<Reached, Refusal>
        requires near { reach_is_near pattern ≡ true }
        requires fit { shear_is_fit pattern ≡ true }
        ensures { Comes result self (begun self) (lent list.old) (lent list.new) (series self pattern) }
    {
        match pattern {
            Pattern::Line {
                pitch,
                angle,
                count,
            } => self.punch_line(list, pitch, angle, count),
            Pattern::Arc {
                radius,
                angle,
                step,
                count,
            } => self.punch_arc(list, radius, angle, step, count),
            Pattern::Circle {
                radius,
                angle,
                clockwise,
                count,
            } => self.punch_circle(list, radius, angle, clockwise, count),
            Pattern::Grid {
                vertical,
                pitch,
                steps,
            } => self.punch_grid(list, vertical, pitch, steps),
            Pattern::Shear { angle, lengths } => self.punch_shear(list, angle, lengths),
        }
    }
}
