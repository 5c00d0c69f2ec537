// A row of a table: a length, a length and a tool, parted by spaces.
ghost use Rattle.std.specs.Prelude.{◌≡◌};
ghost use Rattle.std.specs.Option.{option_copied};
ghost use Rattle.tables.specs.Rows.{past_spaces, parted, is_blank, row_of};

use crate::number::{read_length, read_tool};

// A row that was read.
#[derive(Clone, Copy)]
pub struct Row {
    pub x: i32,
    pub y: i32,
    pub tool: i32,
}

// A line without the spaces at its front.
fn past_spaces(line: &[u8]) -> &[u8]
    ensures { result.now ≡ past_spaces line.now }
{
    let spaces = line.iter().take_while(|b| **b == b' ').count();
    &line[spaces..]
}

// A line without the spaces at its front, of which there is at least one.
fn parted(line: &[u8]) -> Option<&[u8]>
    ensures { option_copied result ≡ parted line.now }
{
    match line {
        [b' ', ..] => Some(past_spaces(line)),
        _ => None,
    }
}

// Whether a line has no bytes but spaces.
pub fn is_blank(line: &[u8]) -> bool
    ensures { result ≡ is_blank line.now }
{
    past_spaces(line).is_empty()
}

// Reads a row from a line.
#[tactic(auto, unfolding(crate::specs::Rows::row_of))]
pub fn read_row(line: &[u8]) -> Option<Row>
    ensures { result ≡ row_of line.now }
{
    let (x, rest) = read_length(past_spaces(line))?;
    let (y, rest) = read_length(parted(rest)?)?;
    let (tool, rest) = read_tool(parted(rest)?)?;
    is_blank(rest).then_some(Row { x, y, tool })
}
