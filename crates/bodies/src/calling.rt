ghost use Rattle.std.specs.Prelude.{◌≡◌};
ghost use Rattle.aries.specs.Steady.{GivenNear, Steady};
ghost use Rattle.bodies.specs.Calling.{part_of, begun_by, frame_by, left_by};

use aries::block::Call;
use aries::point::Point;
use aries::state::{Frame, Progress, State};

// The macro that a block calls.
pub fn part_of(block: Call) -> u8
    ensures { result ≡ part_of block }
{
    match block {
        Call::Plain(number) => number,
        Call::Mirrored(mirroring) => mirroring.part,
    }
}

// Its body begins: by W with the progress as it is, by G73 at the origin with the letters of the block given.
pub fn begin_call(block: Call, origin: Point, progress: &mut Progress)
    ensures { progress.new ≡ begun_by block origin progress.old }
{
    if let Call::Mirrored(mirroring) = block {
        progress.state = progress.state.giving(mirroring.axes).standing_at(origin);
    }
}

// The frame that its body is carried out in: by W as it is, by G73 with a mirror by a and b.
pub fn frame_by(block: Call, frame: Frame, state: &State) -> Frame
    requires { (Steady 0 frame) × (GivenNear state.now) }
    ensures { result ≡ frame_by block state.now frame }
{
    match block {
        Call::Plain(_) => frame,
        Call::Mirrored(mirroring) => frame.mirrored(mirroring.way, state.mirror_spans()),
    }
}

// Its body has come to its end: by W the progress is left as it is, by G73 at the origin.
pub fn end_call(block: Call, origin: Point, progress: &mut Progress)
    ensures { progress.new ≡ left_by block origin progress.old }
{
    if let Call::Mirrored(_) = block {
        progress.state = progress.state.standing_at(origin);
    }
}
