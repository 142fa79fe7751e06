//! Ranges of the source.

/// A range of bytes of one source line: the number of the line, from 0, and the columns of its
/// first byte and after its last.
#[derive(Clone, Copy, Debug, PartialEq, Eq)]
pub struct Span {
    pub line: u32,
    pub start: u16,
    pub end: u16,
}
