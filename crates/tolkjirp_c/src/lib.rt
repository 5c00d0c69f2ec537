// The archive for programs in C or Rust: it exports the one function of the library under its own name.
#![tactic(auto)]

ghost use Rattle.std.specs.Prelude.{length};
ghost use Rattle.aries.specs.Program.{expand};
ghost use Rattle.tolkjirp.specs.Exported.{Exported};

use tallies::FIGURES;

// Expands a program text, at the decimal point setting that a number states, into a lent list, four numbers an entry: X, Y,
// tool and mode, and a lent tally, three numbers for each of 99 tools: its hits, and the first and the last index where it
// stands. What the entries leave of the list is zero, and after a refusal all of list and tally. The answer takes the
// refusal's number or 0, the count of entries, the refusal's line.
#[unsafe(no_mangle)]
pub extern "C" fn tolkjirp_expand(
    setting: i32,
    text: &[u8],
    list: &mut [i32],
    tally: &mut [u64; FIGURES],
    answer: &mut [u64; 3],
)
    ensures { Exported answer.new list.new tally.new (length list.old) (expand setting text.now (length list.old)) }
{
    tolkjirp::exported::tolkjirp_expand(setting, text, list, tally, answer);
}
