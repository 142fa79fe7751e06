//! Entries of nodes, and the nodes of two tables.
ghost use Rattle.std.specs.Prelude.{◌≡◌, ◌≢◌, None, IfSome, slice_index_or};
ghost use Rattle.digraph.specs.Nodes.{Node};
ghost use Rattle.tangle_bodies.specs.Nodes.{title_at};
ghost use Rattle.tangle_bodies.specs.Nodes.{IsNodeOf};

use digraph::Node;
use tangle_names::Names;

/// The entry of the node in a list with an entry for each node; `none` where it has none.
pub(crate) fn entry<T: Copy>(entries: &[T], node: Node, none: T) -> T
    ensures { result ≡ slice_index_or entries.now node none }
{
    match entries.get(node.number()) {
        Some(found) => *found,
        None => none,
    }
}

/// The node among the old names that has the title of this node of the new names, if there is one.
#[tactic(auto, using(crate::proofs::NodeLemmas::nodes_before))]
pub fn node_before(old: &Names, new: &Names, node: Node) -> Option<Node>
    requires { IsNodeOf new.now node }
    ensures inside { IfSome result (IsNodeOf old.now) }
    ensures title { IfSome result (λ before. title_at old.now before ≡ title_at new.now node) }
    ensures none { result ≡ None → (other : Node) → IsNodeOf old.now other
        → title_at old.now other ≢ title_at new.now node }
{
    let Some(id) = node.name_number() else {
        return Some(node);
    };
    // After most edits a name keeps its number, and needs no look-up.
    let text = new.text(id);
    if id < old.count() && old.text(id) == text {
        return Some(node);
    }
    match old.find(text) {
        Some(before) => Some(Node::name(before)),
        None => None,
    }
}
