// A drawing's hole table: lines of X, Y and tool, read into three numbers a row.
#![tactic(auto)]

mod number; // numbers at the front of a line
mod row; // a row

ghost use Rattle.std.specs.Prelude.{◌≡◌, ◌+◌, ◌*◌, ◌/◌, ◌≤◌, length};
ghost use Rattle.tables.specs.Tables.{with_numbers, Reads, table_of};

use crate::row::{Row, is_blank, read_row};

// The numbers of a row: X, Y and tool.
const ROW: usize = 3;

// The first line that is neither blank nor a row, or a row for which no place is left.
#[derive(Clone, Copy, Debug, PartialEq, Eq)]
pub struct BadLine {
    pub line: u64,
}

// Puts a row behind those that are there. They are counted: of a slice that shrinks from line to line, or of its chunks, the
// proof would not know what is written.
fn put_row(table: &mut [i32], rows: usize, row: Row)
    requires { 3 * rows + 3 ≤ length table.old }
    ensures { table.new ≡ with_numbers table.old rows row }
{
    let at = ROW * rows;
    table[at..at + ROW].copy_from_slice(&[row.x, row.y, row.tool]);
}

// Reads a table, line by line, into a lent one, up to the first line that is neither blank nor a row, or a row for which no
// place is left, and answers how many rows it has. Behind a last line feed a blank line is read more.
pub fn read_table(text: &[u8], table: &mut [i32]) -> Result<usize, BadLine>
    ensures { Reads result table.new (table_of (length table.old / 3) text.now) }
{
    let places = table.len() / ROW;
    let mut rows = 0;
    for (before, line) in text.split(|&b| b == b'\n').enumerate() {
        if is_blank(line) {
            continue;
        }
        let bad = BadLine {
            // usize has no From into u64
            line: before as u64 + 1,
        };
        let row = read_row(line).ok_or(bad)?;
        if rows == places {
            return Err(bad);
        }
        put_row(table, rows, row);
        rows += 1;
    }
    Ok(rows)
}
