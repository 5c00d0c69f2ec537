// The tally of hits by tool, kept up as blocks make entries.
#![tactic(auto)]

ghost use Rattle.std.specs.Prelude.{◌≡◌};
ghost use Rattle.aries.specs.Tallying.{with_chosen};
ghost use Rattle.aries.specs.Tally.{no_tally};

// The number of the last tool.
pub use aries::state::LAST_TOOL;

// The figures of a tool: its hits, and the first and the last index where it stands.
pub const TOOL_FIGURES: usize = 3;

// The figures of a tally, those of all tools, one after the other as programs in C lend them.
pub const FIGURES: usize = 297;

// Counts hits with the tool chosen that follow one another, from a place of the list up to another; where no tool is chosen there are
// none. Hits above the largest number stay there.
pub fn count_hits(tally: &mut [u64; FIGURES], tool: Option<u8>, from: usize, to: usize)
    ensures { tally.new ≡ with_chosen tally.old tool from to }
{
    let Some(tool) = tool else { return };
    if !(1..=LAST_TOOL).contains(&tool) || to <= from {
        return;
    }
    // the tally's figures have 64 bits, as C lends them, and an index of 0 is none; usize has no From into u64
    let at = TOOL_FIGURES * usize::from(tool - 1);
    let first = tally[at + 1];
    tally[at] = tally[at].saturating_add((to - from) as u64);
    tally[at + 1] = if first == 0 { (from + 1) as u64 } else { first };
    tally[at + 2] = to as u64;
}

// Clears a tally.
pub fn clear(tally: &mut [u64; FIGURES])
    ensures { tally.new ≡ no_tally }
{
    *tally = [0; FIGURES];
}
