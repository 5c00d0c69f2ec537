ghost use Rattle.std.specs.Prelude.{◌≡◌, true, ◌-◌, ◌<◌, get_or, Some, None};
ghost use Rattle.aries.specs.Moves.{
  moved_to,
  waiting_for,
  in_mode,
  choosing,
  remembering,
  measuring,
  dropping,
  standing_at,
  giving,
  mirror_spans,
  fresh_state,
  fresh_progress,
  with_state,
};
ghost use Rattle.aries.specs.Patterns.{start_of};
ghost use Rattle.aries.specs.Macros.{begun};
ghost use Rattle.aries.specs.Judging.{most_blocks, near};
ghost use Rattle.aries.specs.Machine.{in_range};
ghost use Rattle.aries.specs.WidePoints.{point_of, Moderate};
ghost use Rattle.aries.specs.Mirrors.{mirrored, seen};
ghost use Rattle.aries.specs.Reader.{reader_at, reader_of, given_of};
ghost use Rattle.aries.specs.Setup.{frame_at};
ghost use Rattle.aries.specs.Steady.{Steady};

use crate::block::{Axes, Measure, Pattern};
use crate::job::Job;
use crate::machine::Machine;
use crate::mirror::Mirror;
use crate::point::{Point, WidePoint};
use crate::reader::{Given, Reader};

// Tools are numbered from 1 to
pub const LAST_TOOL: u8 = 99;

// How many pattern memories there are.
pub const MEMORIES: usize = 5;

// The punching state: what a block of a body leaves to the next. The memories, most of its bytes, stand first, where they are
// copied aligned. Spans are X and Y as G73 blocks have given them last, where one has; waiting is the pattern origin that G72 set and
// no pattern has used up yet; tool is the one that is chosen. Incremental is G91 and nibble N: both are only asked as conditions. That the
// spans are near is a clause of those who need it, and no invariant, which `giving` would have to ask of its axes.
#[derive(Clone, Copy)]
pub struct State {
    pub memories: [Option<Pattern>; MEMORIES],
    pub current: Point,
    pub spans: Axes,
    pub waiting: Option<Point>,
    pub incremental: bool,
    pub nibble: bool,
    pub tool: Option<u8>,
}

impl State {
    // The state at the start: G90 holds, the mode is P, no tool is chosen, nothing is stored and no letter given.
    pub fn fresh() -> State
        ensures { result ≡ fresh_state }
    {
        State {
            memories: [None; MEMORIES],
            current: Point::ZERO,
            spans: Axes { x: None, y: None },
            waiting: None,
            incremental: false,
            nibble: false,
            tool: None,
        }
    }

    // The state with another current point.
    pub fn moved_to(mut self, p: Point) -> State
        ensures { result ≡ moved_to self p }
    {
        self.current = p;
        self
    }

    // The state with no pattern origin waiting.
    pub fn dropping(mut self) -> State
        ensures { result ≡ dropping self }
    {
        self.waiting = None;
        self
    }

    // The state with a pattern origin waiting.
    pub fn waiting_at(mut self, p: Point) -> State
        ensures { result ≡ waiting_for self (Some p) }
    {
        self.waiting = Some(p);
        self
    }

    // The state at a point, with no pattern origin waiting.
    pub fn standing_at(self, p: Point) -> State
        ensures { result ≡ standing_at self p }
    {
        self.dropping().moved_to(p)
    }

    // The state with X and Y of a G73 given, those that are written.
    pub fn giving(mut self, axes: Axes) -> State
        ensures { result ≡ giving self axes }
    {
        self.spans = axes.or(self.spans);
        self
    }

    // a and b of a mirror: X and Y as G73 blocks have given them last, and zero where none has.
    pub fn mirror_spans(self) -> Point
        ensures { result ≡ mirror_spans self }
    {
        self.spans.over(Point::ZERO)
    }

    // Which of them G73 blocks have given.
    fn given(self) -> Given
        ensures { result ≡ given_of self }
    {
        Given {
            x: self.spans.x.is_some(),
            y: self.spans.y.is_some(),
        }
    }

    // The state in mode N, or with false in mode P.
    pub fn in_mode(mut self, nibble: bool) -> State
        ensures { result ≡ in_mode self nibble }
    {
        self.nibble = nibble;
        self
    }

    // The state with the tool of T, where it is written.
    pub fn choosing(mut self, tool: Option<u8>) -> State
        ensures { result ≡ choosing self tool }
    {
        self.tool = tool.or(self.tool);
        self
    }

    // The state with a pattern in the memory of A, where it is written. Past the last memory nothing is stored.
    pub fn remembering(mut self, memory: Option<u8>, p: Pattern) -> State
        ensures { result ≡ remembering self memory p }
    {
        if let Some(n) = memory {
            let place = usize::from(n.saturating_sub(1));
            if place < MEMORIES {
                self.memories[place] = Some(p);
            }
        }
        self
    }

    // The state once a block's G90 or G91 holds.
    fn measuring(mut self, measure: Option<Measure>) -> State
        ensures { result ≡ measuring self measure }
    {
        self.incremental = match measure {
            None => self.incremental,
            Some(Measure::Absolute) => false,
            Some(Measure::Incremental) => true,
        };
        self
    }

    // Where a pattern starts: at the waiting origin, or else at the current point.
    pub fn start(self) -> Point
        ensures { result ≡ start_of self }
    {
        self.waiting.unwrap_or(self.current)
    }

    // What pattern memory n holds: nothing past the last one, and for 0 what memory 1 does.
    pub fn memory(self, n: u8) -> Option<Pattern>
        ensures { result ≡ get_or self.memories (n - 1) None }
    {
        let place = usize::from(n.saturating_sub(1));
        if place < MEMORIES {
            self.memories[place]
        } else {
            None
        }
    }
}

// What a block is carried out in: the caller's job, where X and Y are measured from, the machine whose range is judged, and
// how points are seen in the mirrors that are open.
#[derive(Clone, Copy)]
pub struct Frame {
    pub job: Job,
    pub machine: Machine,
    pub origin: Point,
    pub mirror: Mirror,
}

impl Frame {
    // The same frame with another origin.
    pub fn at(mut self, origin: Point) -> Frame
        ensures { result ≡ frame_at self origin }
    {
        self.origin = origin;
        self
    }

    // The same frame with the mirror of a G73 open, by its Q and its a and b.
    pub fn mirrored(mut self, way: u8, spans: Point) -> Frame
        requires { (Steady 0 self) × (near spans ≡ true) }
        ensures { result ≡ mirrored way spans self }
    {
        let before = self.mirror;
        let mirror = before.opened(way, spans);
        self.mirror = mirror;
        self
    }

    // Where a place is seen after all mirrors.
    pub fn seen(self, p: WidePoint) -> WidePoint
        requires { Moderate p }
        ensures { point_of result ≡ seen self (point_of p) }
    {
        let mirror = self.mirror;
        let x = mirror.x;
        let y = mirror.y;
        let origin_x = self.origin.x;
        let origin_y = self.origin.y;
        let p_x = p.x;
        let p_y = p.y;
        WidePoint {
            x: x.seen_from(origin_x, p_x),
            y: y.seen_from(origin_y, p_y),
        }
    }

    // What blocks are read by: the setting of the job, and the letters given.
    pub fn reader(self, given: Given) -> Reader
        ensures { result ≡ reader_at self.job.setting given }
    {
        let job = self.job;
        let setting = job.setting;
        Reader { setting, given }
    }

    // The same with the letters that a state has.
    pub fn reader_of(self, state: &State) -> Reader
        ensures { result ≡ reader_of self state.now }
    {
        self.reader(state.given())
    }

    // Whether a place is in the punching range.
    pub fn covers(self, place: WidePoint) -> bool
        ensures { result ≡ in_range self (point_of place) }
    {
        let machine = self.machine;
        machine.covers(place)
    }
}

// A state with the count of blocks carried out and of entries made so far.
#[derive(Clone, Copy)]
pub struct Progress {
    pub state: State,
    pub blocks: u32,
    pub entries: usize,
}

impl Progress {
    // At the start.
    pub fn fresh() -> Progress
        ensures { result ≡ fresh_progress }
    {
        let state = State::fresh();
        Progress {
            state,
            blocks: 0,
            entries: 0,
        }
    }

    // The same counts with another state.
    pub fn with_state(mut self, s: State) -> Progress
        ensures { result ≡ with_state self s }
    {
        self.state = s;
        self
    }

    // A block begins, with its G90 or G91: one more, if it counts.
    pub fn begun(mut self, counted: bool, measure: Option<Measure>) -> Progress
        requires { counted ≡ true → self.blocks < most_blocks }
        ensures { result ≡ begun counted measure self }
    {
        let state = self.state;
        let measured = state.measuring(measure);
        self.state = measured;
        if counted {
            self.blocks += 1;
        }
        self
    }
}
