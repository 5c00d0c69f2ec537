ghost use Rattle.std.specs.Prelude.{◌≡◌, true, ◌≤◌};
ghost use Rattle.sine.specs.Sine.{turn};
ghost use Rattle.aries.specs.Numbers.{is_ranged};
ghost use Rattle.aries.specs.Blocks.{number, count, count_written, axes, steps, point_of_xy, layout, copies, mirroring, line_pattern, arc_pattern, circle_pattern, grid_pattern, shear_pattern, pattern_block, m_block, block_of};
ghost use Rattle.aries.specs.Letters.{letter_a, letter_j, letter_k, letter_p, letter_q, letter_t, letter_w};
ghost use Rattle.lengths.specs.Sized.{Sized};

use aries::block::{
    Axes, Block, Call, Copies, Direct, Kind, Layout, Mirroring, Outside, Pattern, Pitch, Shear,
    Steps,
};
use aries::point::Point;
use aries::word::Words;

// A whole number that a byte holds: a memory, a macro, a corner.
fn small(words: &Words, letter: u8) -> u8
    requires { count words.now.letters letter ≤ 255 }
    ensures { result ≡ count words.now.letters letter }
{
    // fits, by the clause
    words.count(letter) as u8
}

// A whole number that a byte holds, where it is written: the tool of T, the memory of A.
fn small_written(words: &Words, letter: u8) -> Option<u8>
    requires { count words.now.letters letter ≤ 255 }
    ensures { result ≡ count_written words.now.letters letter }
{
    words
        .written(letter)
        // fits, by the clause
        .map(|value| value.unsigned_abs() as u8)
}

// A count of hits or steps.
fn count(words: &Words, letter: u8) -> u16
    requires { count words.now.letters letter ≤ 999 }
    ensures { result ≡ count words.now.letters letter }
{
    // fits, by the clause
    words.count(letter) as u16
}

// X and Y, where they are written.
fn axes_of(words: &Words) -> Axes
    ensures { result ≡ axes words.now.letters }
{
    Axes {
        x: words.written(b'X'),
        y: words.written(b'Y'),
    }
}

// X and Y as a point; an absent one is zero.
fn point_of(words: &Words) -> Point
    ensures { result ≡ point_of_xy words.now.letters }
{
    Point {
        x: words.number(b'X'),
        y: words.number(b'Y'),
    }
}

// P and K as steps.
fn steps_of(words: &Words) -> Steps
    requires { (count words.now.letters letter_p ≤ 999) × (count words.now.letters letter_k ≤ 999) }
    ensures { result ≡ steps words.now.letters }
{
    Steps {
        x: count(words, b'P'),
        y: count(words, b'K'),
    }
}

// What G98 sets; D is added to both pitches.
fn layout_of(words: &Words) -> Layout
    requires sized { Sized words.now.letters }
    requires counts { (count words.now.letters letter_p ≤ 999) × (count words.now.letters letter_k ≤ 999) }
    ensures { result ≡ layout words.now.letters }
{
    let d = words.count(b'D');
    Layout {
        reference: point_of(words),
        pitch: Pitch {
            x: words.count(b'I') + d,
            y: words.count(b'J') + d,
        },
        steps: steps_of(words),
    }
}

// The part and the corner of a G75 block, or with vertical of a G76 block.
fn copies_of(words: &Words, vertical: bool) -> Copies
    requires { (count words.now.letters letter_w ≤ 255) × (count words.now.letters letter_q ≤ 255) }
    ensures { result ≡ copies vertical words.now.letters }
{
    Copies {
        vertical,
        part: small(words, b'W'),
        corner: small(words, b'Q'),
    }
}

// G73: the part, the way it is mirrored, and X and Y as they are written.
fn mirroring_of(words: &Words) -> Mirroring
    requires { (count words.now.letters letter_w ≤ 255) × (count words.now.letters letter_q ≤ 255) }
    ensures { result ≡ mirroring words.now.letters }
{
    Mirroring {
        part: small(words, b'W'),
        way: small(words, b'Q'),
        axes: axes_of(words),
    }
}

// G28.
fn line_of(words: &Words) -> Pattern
    requires { count words.now.letters letter_k ≤ 999 }
    ensures { result ≡ line_pattern words.now.letters }
{
    Pattern::Line {
        pitch: words.number(b'I'),
        angle: words.number(b'J'),
        count: count(words, b'K'),
    }
}

// G29, in which P is an angle.
fn arc_of(words: &Words) -> Pattern
    requires { count words.now.letters letter_k ≤ 999 }
    ensures { result ≡ arc_pattern words.now.letters }
{
    Pattern::Arc {
        radius: words.number(b'I'),
        angle: words.number(b'J'),
        step: words.number(b'P'),
        count: count(words, b'K'),
    }
}

// G26: K negative is clockwise.
fn circle_of(words: &Words) -> Pattern
    requires { count words.now.letters letter_k ≤ 999 }
    ensures { result ≡ circle_pattern words.now.letters }
{
    Pattern::Circle {
        radius: words.number(b'I'),
        angle: words.number(b'J'),
        clockwise: words.number(b'K') < 0,
        count: count(words, b'K'),
    }
}

// G36, or with vertical G37.
fn grid_of(words: &Words, vertical: bool) -> Pattern
    requires { (count words.now.letters letter_p ≤ 999) × (count words.now.letters letter_k ≤ 999) }
    ensures { result ≡ grid_pattern vertical words.now.letters }
{
    let pitch = Point {
        x: words.number(b'I'),
        y: words.number(b'J'),
    };
    Pattern::Grid {
        vertical,
        pitch,
        steps: steps_of(words),
    }
}

// The angle J, within a full turn.
#[tactic(auto, using(sine::proofs::Angles::turn_small))]
fn angle_of(words: &Words) -> u16
    ensures { result ≡ turn (number words.now.letters letter_j) }
{
    // a full turn fits
    sine::turn(i64::from(words.number(b'J'))) as u16
}

// G66, in which P and Q are lengths; an absent Q equals P.
#[tactic(auto, unfolding(aries::specs::Blocks::shear_pattern))]
fn shear_of(words: &Words) -> Pattern
    ensures { result ≡ shear_pattern words.now.letters }
{
    let along = words.number(b'P');
    let lengths = Shear {
        length: words.number(b'I'),
        along,
        across: words.written(b'Q').unwrap_or(along),
        compensation: words.number(b'D'),
    };
    Pattern::Shear {
        angle: angle_of(words),
        lengths,
    }
}

// A pattern with its T and A.
fn pattern_block(words: &Words, pattern: Pattern) -> Block
    requires { (count words.now.letters letter_t ≤ 255) × (count words.now.letters letter_a ≤ 255) }
    ensures { result ≡ pattern_block words.now.letters pattern }
{
    let tool = small_written(words, b'T');
    let memory = small_written(words, b'A');
    Block::Direct(Direct::RunPattern(pattern, tool, memory))
}

// An M code: M00 and M01 are stops, M12 and M13 set the mode, the others do nothing.
fn m_block(n: u32) -> Block
    ensures { result ≡ m_block n }
{
    Block::Direct(match n {
        0 => Direct::Stop(false),
        1 => Direct::Stop(true),
        12 => Direct::Nibble(true),
        13 => Direct::Nibble(false),
        _ => Direct::Idle,
    })
}

// What a block of a kind asks for.
#[tactic(auto, unfolding(aries::specs::Blocks::block_of))]
pub fn block_of(words: &Words, kind: Kind) -> Block
    requires sized { Sized words.now.letters }
    requires ranged { is_ranged words.now.letters kind ≡ true }
    ensures { result ≡ block_of words.now.letters kind }
{
    match kind {
        Kind::G26 => pattern_block(words, circle_of(words)),
        Kind::G28 => pattern_block(words, line_of(words)),
        Kind::G29 => pattern_block(words, arc_of(words)),
        Kind::G36 => pattern_block(words, grid_of(words, false)),
        Kind::G37 => pattern_block(words, grid_of(words, true)),
        Kind::G66 => pattern_block(words, shear_of(words)),
        Kind::G50 => Block::Outside(Outside::End),
        Kind::G70 => Block::Direct(Direct::Move(axes_of(words), small_written(words, b'T'))),
        Kind::G72 => Block::Direct(Direct::PatternOrigin(axes_of(words))),
        Kind::G73 => Block::Call(Call::Mirrored(mirroring_of(words))),
        Kind::G75 => Block::Outside(Outside::Copy(copies_of(words, false))),
        Kind::G76 => Block::Outside(Outside::Copy(copies_of(words, true))),
        Kind::G92 => Block::Outside(Outside::Machine(point_of(words))),
        Kind::G93 => Block::Outside(Outside::Offset(axes_of(words))),
        Kind::G98 => Block::Outside(Outside::Layout(layout_of(words))),
        Kind::Position => Block::Direct(Direct::Punch(axes_of(words), small_written(words, b'T'))),
        Kind::Lone => Block::Direct(Direct::Lone),
        Kind::LetterM => m_block(words.count(b'M')),
        Kind::LetterB => Block::Direct(Direct::Recall(small(words, b'B'))),
        Kind::LetterU => Block::Outside(Outside::Open(small(words, b'U'))),
        Kind::LetterV => Block::Outside(Outside::Close(small(words, b'V'))),
        Kind::LetterW => Block::Call(Call::Plain(small(words, b'W'))),
    }
}
