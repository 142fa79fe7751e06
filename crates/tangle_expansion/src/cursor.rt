//! Positions in a node that is being written.
ghost use Rattle.std.specs.Prelude.{◌≡◌, ◌≤◌};

/// A position in a node that is being written: the numbers of tags passed, of pieces closed, of
/// marks written in the current piece, and of bytes passed.
#[derive(Clone, Copy, Debug)]
pub(crate) struct Cursor {
    pub(crate) tag: usize,
    pub(crate) piece: usize,
    pub(crate) marks: usize,
    pub(crate) start: usize,
    ghost pieces_low: { piece ≤ tag },
    ghost marks_low: { marks ≤ tag },
}

/// The cursor at the start of a node.
pub(crate) fn first_cursor() -> Cursor
    ensures tag { result.tag ≡ 0 }
    ensures piece { result.piece ≡ 0 }
    ensures marks { result.marks ≡ 0 }
    ensures start { result.start ≡ 0 }
{
    Cursor {
        tag: 0,
        piece: 0,
        marks: 0,
        start: 0,
    }
}
