//! Comparing the shapes of two nodes, each of a store of its own.
ghost use Rattle.std.specs.Prelude.{◌≡◌, ◌↔◌, [], true, All, IfSome, MatchOption};
ghost use Rattle.tangle_bodies.specs.NodeBodies.{HoldsShape, body_uses};
ghost use Rattle.tangle_bodies.specs.Shapes.{Shapes};
ghost use Rattle.tangle_graph.specs.Stores.{IsNodeIn, IsStoreOf, shape_in_store};

use crate::store::Store;
use digraph::Node;
use tangle_bodies::NodeBody;

/// The body of the node, which holds its shape; `None` for a node that the store doesn't have.
fn body_in(store: &Store, node: Node) -> Option<&NodeBody>
    ensures uses { IfSome result
        (λ body. All (IsNodeIn store.now) (body_uses body.now)) }
    ensures shape { (shapes : Shapes) → IsStoreOf shapes store.now
        → MatchOption result (shape_in_store store.now shapes node ≡ [])
        (λ body. HoldsShape store.now.names (shape_in_store store.now shapes node) body.now) }
{
    if node.number() > store.names().count() {
        return None;
    }
    Some(store.body(node))
}

/// Whether the two nodes have the same shape: the same pieces, without section numbers, file names
/// and line numbers, and with each use as the name that it resolves to. All nodes without a piece
/// have the same shape; a node that a store doesn't have counts as one without a piece.
pub fn same_shape(old: &Store, old_node: Node, new: &Store, new_node: Node) -> bool
    ensures { (old_shapes new_shapes : Shapes) → IsStoreOf old_shapes old.now
        → IsStoreOf new_shapes new.now
        → ((result ≡ true) ↔ (shape_in_store old.now old_shapes old_node
        ≡ shape_in_store new.now new_shapes new_node)) }
{
    match body_in(old, old_node) {
        Some(body) => match body_in(new, new_node) {
            Some(other) => body.has_shape_of(old.names(), other, new.names()),
            None => !old.has_piece(old_node),
        },
        None => !new.has_piece(new_node),
    }
}
