//! The nodes that occurrences mean, and the bodies of nodes.
ghost use Rattle.std.specs.Prelude.{◌≡◌, ◌<◌, ◌↔◌, IfSome, length, true};
ghost use Rattle.tangle_bodies.specs.NodeBodies.{body_uses};
ghost use Rattle.tangle_bodies.specs.Nodes.{IsNodeOf, node_of_occurrence, title_at};

use digraph::Node;
use std::rc::Rc;
use tangle_names::{NameTable, Names, Resolved};
use tangle_scan::ItemTag;

/// The node of the name to which the occurrence with this number resolves, if it resolves to one.
pub fn node_of_occurrence(table: &NameTable, occurrence: usize) -> Option<Node>
    requires { occurrence < length table.now.resolved }
    ensures node { result ≡ node_of_occurrence table.now occurrence }
    ensures within { IfSome result (IsNodeOf table.now.names) }
{
    match table.resolve(occurrence) {
        Resolved::Name(id) => Some(Node::name(id)),
        Resolved::NoFullName | Resolved::Ambiguous => None,
    }
}

/// Whether a node of one table of names has the title of a node of another table.
pub(crate) fn has_title_of(names: &Names, node: Node, other_names: &Names, other: Node) -> bool
    requires node { IsNodeOf names.now node }
    requires other { IsNodeOf other_names.now other }
    ensures { (result ≡ true) ↔ (title_at names.now node ≡ title_at other_names.now other) }
{
    match (node.name_number(), other.name_number()) {
        (Some(id), Some(other)) => names.text(id) == other_names.text(other),
        (None, None) => true,
        _ => false,
    }
}

/// The items of a node's pieces, without the nodes that their uses mean. So nothing in them depends
/// on the numbers of one web, and the expansions that are kept over edits share them.
#[derive(Drop)]
pub struct NodeItems {
    /// The bytes of all items.
    pub bytes: Vec<u8>,
    /// What the bytes are, and what comes between them. By these tags the node is written and
    /// shapes are compared.
    pub tags: Vec<ItemTag>,
}

/// The body of a node in one web: the items of its pieces, and the nodes that they use.
#[derive(Drop)]
pub struct NodeBody {
    /// The items of its pieces.
    pub items: Rc<NodeItems>,
    pub(crate) uses: Vec<Node>,
}

impl NodeBody {
    /// The nodes that its items use: one for each use that resolves to a name.
    pub fn uses(&self) -> &[Node]
        ensures { result.now ≡ body_uses self.now }
    {
        self.uses.as_slice()
    }
}
