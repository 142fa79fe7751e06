//! The pieces of a web.
use crate::items::OccurrenceNumber;
use tangle_lines::Origin;

/// A piece: a C part. `Web::piece_text` gives its text.
#[derive(Clone, Copy)]
pub struct Piece {
    /// The number of the section that the piece is in, from 1.
    pub section: usize,
    /// The origin of its opening mark: the line on which its head ends.
    pub origin: Origin,
    /// The number of the occurrence that names the piece, from 0 among all occurrences of the web;
    /// `None` for a piece of the unnamed program.
    pub occurrence: Option<OccurrenceNumber>,
}
