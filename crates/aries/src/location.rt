// A place of the text between two lines, at the end of a line or at its start, and the number of that line.
#[derive(Clone, Copy)]
pub struct Location {
    pub offset: usize,
    pub line: u64,
}
