//! Where a line is from.

/// The origin of a line: the number of its file in the table of files, from 0, and the number of
/// the line in the file, from 1.
// A number is copied, and no proof maps numbers to names: only faults have the names of files.
#[derive(Clone, Copy, Debug, PartialEq, Eq)]
pub struct Origin {
    pub file: u16,
    pub line: u32,
}
