//! What differs between two webs, of which the second is what an edit made of the first.
use crate::graph::add_node;
use crate::listing::Listing;
use std::alloc::Global;
use tangle_graph::{Built, Node, Store, affected, is_flagged, node_before};
use tangle_lines::{NoMemory, Sink};
use tangle_names::Names;

fn comparison(edited: &Built, other: Option<Node>) -> &'static [u8] {
    match other {
        Some(other) if is_flagged(&edited.new_shapes, other) => b"changed",
        Some(_) => b"same",
        None => b"gone",
    }
}

fn list_compared<S: Sink>(out: &mut Listing<S>, node: Node, edited: &Built, other: Option<Node>) {
    out.begin(b"and");
    add_node(out, node);
    out.word(comparison(edited, other));
    out.end();
}

// Lists the nodes of the first web, each compared with that of its name in the second.
fn list_comparisons<S: Sink>(out: &mut Listing<S>, first: &Store, edited: &Built) {
    let names = first.names();
    for id in 0..names.count() {
        let node = Node::name(id);
        let other = node_before(edited.store.names(), names, node);
        list_compared(out, node, edited, other);
    }
    list_compared(out, Node::program(), edited, Some(Node::program()));
}

fn list_affected_node<S: Sink>(out: &mut Listing<S>, names: &Names, node: Node) {
    out.begin(b"affected");
    add_node(out, node);
    if let Some(id) = node.name_number()
        && id < names.count()
    {
        out.text(names.text(id));
    }
    out.end();
}

/// Lists which nodes of the first web have the same shape in the second, and which nodes of the
/// second have to be expanded again.
///
/// # Errors
///
/// `NoMemory`, where an allocation failed. What was listed before stays.
pub fn list_differences<S: Sink>(
    alloc: Global,
    out: &mut Listing<S>,
    first: &Store,
    edited: &Built,
) -> Result<(), NoMemory> {
    list_comparisons(out, first, edited);
    for node in &affected(alloc, &edited.store, &edited.new_shapes)? {
        list_affected_node(out, edited.store.names(), *node);
    }
    Ok(())
}
