/// A line and a column, both counted from 1. A column is a number of characters: a tab is one, and
/// a U+FEFF that begins the text is none.
#[derive(Clone, Copy, Debug, PartialEq, Eq)]
pub struct Pos {
    pub line: u32,
    pub col: u32,
}

/// A part of a text, from the byte `start` up to and without the byte `end`.
#[derive(Clone, Copy, Debug, PartialEq, Eq)]
pub struct Span {
    pub start: u32,
    pub end: u32,
}
