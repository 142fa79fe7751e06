//! The graph of names of a store: all that follows from the names and the uses of the nodes,
//! whatever else the nodes contain.
ghost use Rattle.std.specs.Prelude.{◌≡◌, ◌<◌, IfOk, All, length, map, true};
ghost use Rattle.std.specs.List.Sorted.{IsStrictlyIncreasing};
ghost use Rattle.digraph.specs.Graph.{InRange};
ghost use Rattle.tangle_bodies.specs.NodeBodies.{body_uses};
ghost use Rattle.tangle_graph.specs.NameGraphs.{AreUsesOf, IsNameGraphOf};
ghost use Rattle.tangle_bodies.specs.NodeBodies.{node_bodies};

use digraph::{Node, Ordered, Rows, once_each, order, self_containing, users};
use std::alloc::{AllocError, Global};
use std::rc::Rc;
use tangle_bodies::NodeBody;
use tangle_lines::NoMemory;
use tangle_names::Names;

/// The names, shared with their table; for each node the nodes that it uses, those that use it,
/// and whether it contains itself; and the nodes that reach no cycle, each after those that it
/// uses.
///
/// The stores before and after an edit share it where the names and the uses do not change.
#[derive(Drop)]
pub(crate) struct NameGraph {
    pub(crate) names: Names,
    pub(crate) uses: Rows<Node>,
    pub(crate) users: Rows<Node>,
    pub(crate) order: Ordered,
    pub(crate) self_containing: Vec<bool>,
}

impl NameGraph {
    /// Builds the graph of these names, with the uses that the bodies of the nodes have, to be
    /// shared.
    pub(crate) fn shared(
        alloc: Global,
        names: Names,
        bodies: &[Rc<NodeBody>],
    ) -> Result<Rc<NameGraph>, NoMemory>
        requires { All (All (λ node. node < length bodies.now))
            (map body_uses (node_bodies bodies.now)) }
        ensures names { IfOk result (λ name_graph. name_graph.value.names ≡ names) }
        ensures name_graph { IfOk result
            (λ name_graph. IsNameGraphOf (map body_uses (node_bodies bodies.now))
            name_graph.value) }
    {
        let uses = uses_of_bodies(alloc, bodies)?;
        let users = users(alloc, &uses)?;
        let order = order(alloc, &uses, &users)?;
        let self_containing = self_containing(alloc, &uses, &users)?;
        let name_graph = NameGraph {
            names,
            uses,
            users,
            order,
            self_containing,
        };
        Ok(Rc::new(alloc, name_graph)?)
    }
}

/// For each node, the nodes that its items use, each once.
fn uses_of_bodies(alloc: Global, bodies: &[Rc<NodeBody>]) -> Result<Rows<Node>, AllocError>
    requires { All (All (λ node. node < length bodies.now))
        (map body_uses (node_bodies bodies.now)) }
    ensures uses { IfOk result (AreUsesOf (map body_uses (node_bodies bodies.now))) }
    ensures range { IfOk result InRange }
    ensures increasing { IfOk result (All IsStrictlyIncreasing) }
{
    let mut rows = Rows::new(alloc);
    let mut nodes = Vec::new(alloc);
    for body in bodies {
        nodes.clear();
        nodes.extend_from_slice(body.uses())?;
        once_each(&mut nodes);
        rows.push_row(&nodes)?;
    }
    Ok(rows)
}

pub(crate) fn are_same_names(names: &Names, others: &Names) -> bool
    ensures { result ≡ true → names.now ≡ others.now }
{
    // Values are compared, since no clause says whether two `Rc`s are one.
    let count = names.count();
    if count != others.count() {
        return false;
    }
    for id in 0..count {
        if names.text(id) != others.text(id) {
            return false;
        }
    }
    true
}

/// Whether each node uses the same nodes, in the same order, as the node with its number did.
pub(crate) fn have_same_uses(before: &[Rc<NodeBody>], bodies: &[Rc<NodeBody>]) -> bool
    ensures { result ≡ true → map body_uses (node_bodies before.now)
        ≡ map body_uses (node_bodies bodies.now) }
{
    if before.len() != bodies.len() {
        return false;
    }
    for (n, body) in bodies.iter().enumerate() {
        if before[n].uses() != body.uses() {
            return false;
        }
    }
    true
}
