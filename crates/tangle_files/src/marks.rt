//! How line marks are written.

/// How line marks are written. With `#line` a compiler gives the lines of the web in its messages;
/// without `#line` the C is easier to read.
#[derive(Clone, Copy, Debug, PartialEq, Eq)]
pub enum MarkMode {
    /// A line feed, `#line` with the line and the file's name, and a line feed.
    Full,
    /// One line feed.
    Bare,
}
