//! Compares shapes.
ghost use Rattle.std.specs.Prelude.{◌≡◌, ◌↔◌, true, false};
ghost use Rattle.std.specs.List.{All};
ghost use Rattle.tangle_scan.specs.UnfoldedTags.{unfolded_tags};
ghost use Rattle.tangle_bodies.specs.NodeBodies.{HaveOneShape, body_items, body_uses};
ghost use Rattle.tangle_bodies.specs.Nodes.{IsNodeOf, titles_at};

use crate::nodes::{NodeBody, NodeItems, has_title_of};
use digraph::Node;
use tangle_names::Names;
use tangle_scan::have_same_items;

/// Whether these nodes of one table of names have, one by one, the titles of those of another.
pub(crate) fn have_titles_of(
    names: &Names,
    nodes: &[Node],
    other_names: &Names,
    others: &[Node],
) -> bool
    requires inside { All (IsNodeOf names.now) nodes.now }
    requires other_inside { All (IsNodeOf other_names.now) others.now }
    ensures { (result ≡ true)
        ↔ (titles_at names.now nodes.now ≡ titles_at other_names.now others.now) }
{
    if nodes.len() != others.len() {
        return false;
    }
    for i in 0..nodes.len() {
        if !has_title_of(names, nodes[i], other_names, others[i]) {
            return false;
        }
    }
    true
}

/// Whether the items have the same kinds and the same bytes as others.
pub(crate) fn same_items(items: &NodeItems, others: &NodeItems) -> bool
    ensures { (result ≡ true) ↔ ((unfolded_tags items.now.tags.items items.now.bytes.items
        ≡ unfolded_tags others.now.tags.items others.now.bytes.items)
        × (items.now.bytes.items ≡ others.now.bytes.items)) }
{
    items.bytes == others.bytes && have_same_items(&items.tags, &others.tags, &items.bytes)
}

impl NodeBody {
    /// Whether this body and another, each with the names of its web, have the same shape: the same
    /// pieces, with items of the same kinds and bytes, and uses of the same names. Section numbers
    /// and origins do not belong to a shape, but the positions of the marks do.
    pub fn has_shape_of(&self, names: &Names, other: &NodeBody, other_names: &Names) -> bool
        requires inside { All (IsNodeOf names.now) (body_uses self.now) }
        requires other_inside { All (IsNodeOf other_names.now) (body_uses other.now) }
        ensures { (result ≡ true)
            ↔ HaveOneShape names.now other_names.now (body_items self.now) (body_items other.now) }
    {
        same_items(&self.items, &other.items)
            && have_titles_of(names, &self.uses, other_names, &other.uses)
    }
}
