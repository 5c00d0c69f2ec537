ghost use Rattle.std.specs.Prelude.{◌≡◌};
ghost use Rattle.aries.specs.Macros.{carry_direct};
ghost use Rattle.aries.specs.Runs.{lent, lent_both, leaving, Carried};
ghost use Rattle.aries.specs.Steady.{Steady};
ghost use Rattle.stretches.specs.Hits.{makes_hits};

use aries::block::Direct;
use aries::refusal::Refused;
use aries::state::{Frame, Progress};
use patterns::runs;
use press::{entries, moves};
use tallies::{FIGURES, count_hits};

// Whether the entries of a block are hits.
fn makes_hits(block: Direct) -> bool
    ensures { result ≡ makes_hits block }
{
    matches!(
        block,
        Direct::Punch(_, _) | Direct::RunPattern(_, _, _) | Direct::Recall(_)
    )
}

// A direct block that has been decoded and counted, with the list alone.
#[tactic(auto, unfolding(aries::specs::Macros::carry_direct))]
fn carry_out(
    list: &mut [i32],
    frame: Frame,
    line: u64,
    block: Direct,
    progress: &mut Progress,
) -> Result<(), Refused>
    requires { Steady 0 frame }
    ensures { Carried (leaving result progress.new) frame (lent list.old) (lent list.new) progress.old (λ j. carry_direct j frame line block) }
{
    match block {
        Direct::Lone => {
            progress.state = progress.state.dropping();
            Ok(())
        }
        Direct::Punch(axes, tool) => moves::position(list, frame, line, axes, tool, progress),
        Direct::Move(axes, tool) => moves::move_to(frame, line, axes, tool, progress),
        Direct::PatternOrigin(axes) => moves::set_pattern_origin(frame, line, axes, progress),
        Direct::RunPattern(pattern, tool, memory) => {
            runs::run_pattern(list, frame, line, pattern, tool, memory, progress)
        }
        Direct::Recall(n) => runs::recall(list, frame, line, n, progress),
        Direct::Nibble(on) => {
            progress.state = progress.state.in_mode(on);
            Ok(())
        }
        Direct::Idle => Ok(()),
        Direct::Stop(optional) => entries::stop(list, frame, line, optional, progress),
    }
}

// A direct block that has been decoded and counted. Hits are counted with the tool that it leaves; a stop is not counted.
pub fn carry_direct(
    list: &mut [i32],
    tally: &mut [u64; FIGURES],
    frame: Frame,
    line: u64,
    block: Direct,
    progress: &mut Progress,
) -> Result<(), Refused>
    requires { Steady 0 frame }
    ensures { Carried (leaving result progress.new) frame (lent_both list.old tally.old) (lent_both list.new tally.new) progress.old (λ j. carry_direct j frame line block) }
{
    let before = progress.entries;
    carry_out(list, frame, line, block, progress)?;
    if makes_hits(block) {
        count_hits(tally, progress.state.tool, before, progress.entries);
    }
    Ok(())
}
