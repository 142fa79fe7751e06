//! The pieces of each node.
ghost use Rattle.std.specs.Prelude.{◌≡◌, ◌<◌, ◌+◌, ℕ, IfOk, IfSome, length, slice_index_or};
ghost use Rattle.digraph.specs.Rows.{IsRowsOf};
ghost use Rattle.tangle_names.specs.NameTable.{table_of};
ghost use Rattle.tangle_scan.specs.Web.{no_piece};
ghost use Rattle.tangle_bodies.specs.Nodes.{IsNodeOf, title_at};
ghost use Rattle.tangle_bodies.specs.WebShapes.{is_piece_of};
ghost use Rattle.tangle_graph.specs.Grouping.{node_of_piece, has_number_in};
ghost use Rattle.tangle_graph.specs.Grouping.{positions_of};

use digraph::{GrowingRows, Node, Rows};
use std::alloc::{AllocError, Global};
use tangle_bodies::node_of_occurrence;
use tangle_names::NameTable;
use tangle_scan::{OccurrenceNumber, Web};

/// The number of nodes: the program, and each name of the table.
///
/// # Errors
///
/// `AllocError` where no list could have an entry for each.
fn node_count(table: &NameTable) -> Result<usize, AllocError>
    ensures { IfOk result (λ count. count ≡ length table.now.names + 1) }
{
    table.count().checked_add(1).ok_or(AllocError)
}

/// The node that a piece belongs to, by the occurrence that defines the piece. A piece without an
/// occurrence belongs to the program.
fn node_of_piece(table: &NameTable, occurrence: Option<OccurrenceNumber>) -> Option<Node>
    requires { IfSome occurrence (λ n. n < length table.now.resolved) }
    ensures node { result ≡ node_of_piece table.now occurrence }
    ensures within { IfSome result (IsNodeOf table.now.names) }
{
    match occurrence {
        Some(occurrence) => node_of_occurrence(table, occurrence.number()),
        None => Some(Node::program()),
    }
}

/// The node of the piece at this position.
fn node_at(web: &Web, table: &NameTable, i: usize) -> Option<Node>
    requires table { table.now ≡ table_of web.now }
    requires piece { i < length web.now.pieces }
    ensures node { (n : ℕ) → n < length table.now.names + 1 → has_number_in n result
        ≡ is_piece_of table.now (title_at table.now.names n)
        (slice_index_or web.now.pieces i no_piece) }
    ensures within { IfSome result (IsNodeOf table.now.names) }
{
    let pieces = web.pieces();
    node_of_piece(table, pieces[i].occurrence)
}

/// The positions of the pieces of each node, in the order of the source.
pub(crate) fn pieces_by_node(
    alloc: Global,
    web: &Web,
    table: &NameTable,
) -> Result<Rows<usize>, AllocError>
    requires { table.now ≡ table_of web.now }
    ensures { IfOk result (IsRowsOf (length table.now.names + 1)
        (positions_of table.now web.now.pieces (length web.now.pieces))) }
{
    let mut rows = GrowingRows::with_rows(alloc, node_count(table)?)?;
    for i in 0..web.pieces().len() {
        if let Some(node) = node_at(web, table, i) {
            rows.push_to(node.number(), i)?;
        }
    }
    rows.finish(alloc)
}
