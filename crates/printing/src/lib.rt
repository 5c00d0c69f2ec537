// The listing of a text's answer, entries and tally, as bytes: a head with the count, a line for each entry and one for each
// tool used, or one line for a refusal.
#![tactic(auto)]

mod buffer; // bytes put at the end of a buffer
mod line; // the lines of a listing
mod number; // numbers in decimal digits
mod tool; // the lines of the tools used

ghost use Rattle.std.specs.Prelude.{suc, ◌+◌, ◌*◌, ◌≤◌, length};
ghost use Rattle.printing.specs.Buffers.{Ends};
ghost use Rattle.printing.specs.Examples.{Examples, PlatePrinted, StopsPrinted, ToolsPrinted};
ghost use Rattle.printing.specs.Listing.{entry_lines, listing, longest_line, listing_room};

pub use crate::line::render_refusal;
use crate::line::{put_entry, put_head};
use crate::tool::put_tools;
use aries::refusal::Refused;
use tallies::FIGURES;

// The lines of the first entries.
fn put_entries(out: &mut [u8], list: &[i32], count: usize) -> usize
    requires { longest_line * suc count ≤ length out.old }
    ensures put { Ends (entry_lines list.now count) out.old result out.new }
    ensures bound { longest_line ≤ result }
{
    let mut end = out.len();
    for i in (0..count).rev() {
        end = put_entry(&mut out[..end], list, i);
    }
    end
}

// Puts the listing at the end of a buffer and answers where it starts. The buffer has 72 bytes for the head, for each entry
// and for each of 99 tools; no line is longer.
#[tactic(auto, using(crate::proofs::Buffers::in_front), unfolding(crate::specs::Listing::listing))]
pub fn render(
    out: &mut [u8],
    list: &[i32],
    tally: &[u64; FIGURES],
    answer: Result<usize, Refused>,
) -> usize
    requires { listing_room answer ≤ length out.old }
    ensures { Ends (listing answer list.now tally.now) out.old result out.new }
{
    match answer {
        Ok(count) => {
            let tools = put_tools(out, tally);
            let entries = put_entries(&mut out[..tools], list, count);
            put_head(&mut out[..entries], count)
        }
        Err(refused) => render_refusal(out, refused.refusal.number(), refused.line),
    }
}

// M1 of document 01, from its text to its listing.
pub fn plate_printed()
    ensures { PlatePrinted }
{}

// M00 and M01 of document 02, from a text to its listing.
pub fn stops_printed()
    ensures { StopsPrinted }
{}

// The lines of tools of document 02, from texts to their listings.
pub fn tools_printed()
    ensures { ToolsPrinted }
{}

// Other listings.
pub fn examples_hold()
    ensures { Examples }
{}
