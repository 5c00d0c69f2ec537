// A list against a drawing: whether its hits are the holes of the drawing's table, and whether a hit is made twice. A list
// is handed over without what is left of it past its entries, and a table without what is left of it past its rows.
#![tactic(auto)]

mod count; // how often a hole stands at some places
mod hole; // holes, in a table and in a list

ghost use Rattle.std.specs.Prelude.{◌≡◌, map};
ghost use Rattle.drawings.specs.Holes.{entry_hole};
ghost use Rattle.drawings.specs.Checks.{checked, AgreeExactlyWhen};
ghost use Rattle.drawings.specs.Repeats.{repeat_of, first_repeat};

use crate::count::{first_over, first_place};
use crate::hole::{ENTRY, Place, ROW};

// Where a list and a table differ. Rows and entries are counted from 1.
#[derive(Clone, Copy, Debug, PartialEq, Eq)]
pub enum Mismatch {
    // A row whose hole stands in the table more often than in the list.
    Missing(usize),
    // An entry whose hole stands in the list more often than in the table.
    TooMany(usize),
}

// An entry that makes a hole which an earlier one has made, and the first that made it, both counted from 1.
#[derive(Clone, Copy, Debug, PartialEq, Eq)]
pub struct Repeat {
    pub entry: usize,
    pub first: usize,
}

// Compares the hits of a list with the holes of a table, in any order: rows first, then entries.
#[tactic(auto, using(crate::proofs::Holes::holes_of_rows, crate::proofs::Holes::holes_of_entries))]
pub fn check_holes(list: &[i32], table: &[i32]) -> Result<(), Mismatch>
    ensures { result ≡ checked list.now table.now }
{
    let (rows, _) = table.as_chunks::<ROW>();
    let (entries, _) = list.as_chunks::<ENTRY>();
    if let Some(row) = first_over(rows, entries) {
        return Err(Mismatch::Missing(row));
    }
    if let Some(entry) = first_over(entries, rows) {
        return Err(Mismatch::TooMany(entry));
    }
    Ok(())
}

// A list and a table agree exactly if every hole stands in both equally often.
#[tactic(auto, using(crate::proofs::Checks::agree_exactly_when))]
pub fn agree_exactly_when()
    ensures { AgreeExactlyWhen }
{}

// What an entry repeats of those before it.
fn repeat_of(before: &[[i32; ENTRY]], entry: &[i32; ENTRY]) -> Option<Repeat>
    ensures { result ≡ repeat_of (map entry_hole before.now) (entry_hole entry.now) }
{
    let first = first_place(entry.hole()?, before)?;
    Some(Repeat {
        entry: before.len() + 1,
        first,
    })
}

// The first entry that hits a place which an earlier one has hit with the same tool.
pub fn first_repeat(list: &[i32]) -> Option<Repeat>
    ensures { result ≡ first_repeat list.now }
{
    let (entries, _) = list.as_chunks::<ENTRY>();
    entries
        .iter()
        .enumerate()
        .find_map(|(i, entry)| repeat_of(&entries[..i], entry))
}
