// The lines of the tools used, put at the end of a buffer.
ghost use Rattle.std.specs.Prelude.{◌+◌, ◌*◌, ◌≤◌, ◌<◌, length};
ghost use Rattle.aries.specs.Numbers.{last_tool};
ghost use Rattle.printing.specs.Buffers.{Ends};
ghost use Rattle.printing.specs.Listing.{figure_field, tool_line, used_line, tool_lines, longest_line};

use crate::buffer::put_byte;
use crate::number::put_decimal;
use aries::state::LAST_TOOL;
use tallies::{FIGURES, TOOL_FIGURES};

// A space and a figure of the tally.
#[tactic(auto, using(crate::proofs::Decimals::decimal_word, crate::proofs::Buffers::in_front))]
fn put_figure(out: &mut [u8], figure: u64) -> usize
    requires { 21 ≤ length out.old }
    ensures put { Ends (figure_field figure) out.old result out.new }
    ensures bound { length out.old ≤ result + 21 }
{
    let number = put_decimal(out, figure);
    put_byte(&mut out[..number], b' ')
}

// The line of a tool that i others come before; its figures go by index, as they do in the definition.
#[tactic(auto, using(crate::proofs::Decimals::decimal_tool, crate::proofs::Buffers::in_front), unfolding(crate::specs::Listing::tool_line))]
fn put_tool(out: &mut [u8], tally: &[u64; FIGURES], i: usize) -> usize
    requires i_lt_last_tool { i < last_tool }
    requires room { longest_line ≤ length out.old }
    ensures put { Ends (tool_line tally.now i) out.old result out.new }
    ensures bound { length out.old ≤ result + longest_line }
{
    let at = TOOL_FIGURES * i;
    let feed = put_byte(out, b'\n');
    let last = put_figure(&mut out[..feed], tally[at + 2]);
    let first = put_figure(&mut out[..last], tally[at + 1]);
    let hits = put_figure(&mut out[..first], tally[at]);
    // usize has no From into u64
    put_decimal(&mut out[..hits], (i + 1) as u64)
}

// The same where the tool has hits, else nothing.
fn put_used(out: &mut [u8], tally: &[u64; FIGURES], i: usize) -> usize
    requires i_lt_last_tool { i < last_tool }
    requires room { longest_line ≤ length out.old }
    ensures put { Ends (used_line tally.now i) out.old result out.new }
    ensures bound { length out.old ≤ result + longest_line }
{
    if 0 < tally[TOOL_FIGURES * i] {
        return put_tool(out, tally, i);
    }
    out.len()
}

// The lines of all tools used.
pub fn put_tools(out: &mut [u8], tally: &[u64; FIGURES]) -> usize
    requires { longest_line * last_tool ≤ length out.old }
    ensures put { Ends (tool_lines tally.now) out.old result out.new }
    ensures bound { length out.old ≤ result + longest_line * last_tool }
{
    let mut end = out.len();
    for i in (0..usize::from(LAST_TOOL)).rev() {
        end = put_used(&mut out[..end], tally, i);
    }
    end
}
