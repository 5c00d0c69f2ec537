// The function for programs in C or Rust: the answer is given as three numbers. The crate tolkjirp_c exports it.
ghost use Rattle.std.specs.Prelude.{◌≡◌, length};
ghost use Rattle.aries.specs.Program.{expand};
ghost use Rattle.tolkjirp.specs.Exported.{three_numbers, Exported};

use aries::refusal::Refused;
use tallies::FIGURES;

// An answer as three numbers: the refusal's number or 0, the count of entries, the refusal's line.
fn three_numbers(answer: Result<usize, Refused>) -> [u64; 3]
    ensures { result ≡ three_numbers answer }
{
    match answer {
        // usize has no From into u64
        Ok(count) => [0, count as u64, 0],
        Err(refused) => [u64::from(refused.refusal.number()), 0, refused.line],
    }
}

// Expands a program text, at the decimal point setting that a number states, into a lent list, four numbers an entry: X, Y,
// tool and mode, and a lent tally, three numbers for each of 99 tools: its hits, and the first and the last index where it
// stands. What the entries leave of the list is zero, and after a refusal all of list and tally. The answer takes the
// refusal's number or 0, the count of entries, the refusal's line.
pub fn tolkjirp_expand(
    setting: i32,
    text: &[u8],
    list: &mut [i32],
    tally: &mut [u64; FIGURES],
    answer: &mut [u64; 3],
)
    ensures { Exported answer.new list.new tally.new (length list.old) (expand setting text.now (length list.old)) }
{
    *answer = three_numbers(crate::expand(setting, text, list, tally));
}
