//! The nodes of a web: what is known of each, and what it uses and is used by.
use crate::listing::Listing;
use tangle_graph::{Node, Store, is_flagged};
use tangle_lines::Sink;

/// Adds a node.
pub fn add_node<S: Sink>(out: &mut Listing<S>, node: Node) {
    match node.name_number() {
        Some(id) => {
            out.word(b"name");
            out.number(id);
        }
        None => out.word(b"program"),
    }
}

fn list_neighbors<S: Sink>(out: &mut Listing<S>, word: &[u8], nodes: &[Node]) {
    for node in nodes {
        out.begin_inner(word);
        add_node(out, *node);
        out.end();
    }
}

fn list_node<S: Sink>(out: &mut Listing<S>, store: &Store, new_shapes: &[bool], node: Node) {
    out.begin(b"node");
    add_node(out, node);
    out.word(b"weight");
    out.number(store.weight(node));
    out.word(b"depth");
    out.number(store.depth(node));
    out.word_if(store.has_piece(node), b"piece");
    out.word_if(store.expandable(node), b"expandable");
    out.word_if(store.self_containing(node), b"self-containing");
    out.end();
    list_neighbors(out, b"uses", store.uses(node));
    list_neighbors(out, b"used by", store.users(node));
    if is_flagged(new_shapes, node) {
        out.begin_inner(b"another shape than itself");
    } else {
        out.begin_inner(b"same shape as itself");
    }
    out.end();
}

/// Lists the nodes, the program last. The flags say which nodes have a new shape where the store is
/// built again for the same web.
pub fn list_nodes<S: Sink>(out: &mut Listing<S>, store: &Store, new_shapes: &[bool]) {
    for id in 0..store.names().count() {
        list_node(out, store, new_shapes, Node::name(id));
    }
    list_node(out, store, new_shapes, Node::program());
}
