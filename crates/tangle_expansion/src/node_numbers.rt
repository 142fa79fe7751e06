//! The section numbers of a node's pieces, and the origins of their marks.
ghost use Rattle.std.specs.Prelude.{◌≡◌, get_or};
ghost use Rattle.digraph.specs.Graph.{row_at};
ghost use Rattle.tangle_expansion.specs.Numbers.{no_numbers, no_origin};
ghost use Rattle.tangle_expansion.specs.PieceNumbers.{numbers_of_rows};

use crate::piece_numbers::PieceNumbers;
use digraph::{Node, Rows};
use std::marker::Model;
use tangle_lines::Origin;

/// The numbers of a node's pieces, whose positions in the web are in the row.
#[derive(Drop)]
pub(crate) struct NodeNumbers<'n> {
    pieces: &'n PieceNumbers,
    row: &'n [usize],
}

impl<'n> Model for NodeNumbers<'n> {
    ghost use Rattle.std.specs.Prelude.{List, map};
    ghost use Rattle.tangle_expansion.specs.Numbers.{PieceNumbersRead};
    ghost use Rattle.tangle_expansion.specs.PieceNumbers.{numbers_of_position};

    ghost Value = { List PieceNumbersRead };

    ghost view = { λ n. map (numbers_of_position n.pieces.now) n.row.now };
}

impl<'n> NodeNumbers<'n> {
    /// The numbers of the pieces in the row of a node; no numbers where there is no row.
    pub(crate) fn at(pieces: &'n PieceNumbers, rows: &'n Rows<usize>, node: Node) -> Self
        ensures { result ≡ row_at (numbers_of_rows pieces.now rows.now) node }
    {
        NodeNumbers {
            pieces,
            row: rows.row(node.number()),
        }
    }

    /// The section number of the node's piece with this number.
    pub(crate) fn section(&self, piece: usize) -> usize
        ensures { result ≡ (get_or self.now piece no_numbers).section }
    {
        match self.row.get(piece) {
            Some(n) => self.pieces.sections.get(*n).copied().unwrap_or(0),
            None => 0,
        }
    }

    /// The origin of a mark of the node's piece with this number. Its opening mark has the number
    /// 0.
    pub(crate) fn mark_origin(&self, piece: usize, mark: usize) -> Origin
        ensures { result ≡ get_or (get_or self.now piece no_numbers).origins mark no_origin }
    {
        let none = Origin { file: 0, line: 0 };
        match self.row.get(piece) {
            Some(n) => {
                let origins = self.pieces.origins.row(*n);
                origins.get(mark).copied().unwrap_or(none)
            }
            None => none,
        }
    }
}
