//! The nodes that an edit affects.
ghost use Rattle.std.specs.Prelude.{◌≡◌, ◌||◌, filter, IfOk};
ghost use Rattle.std.specs.List.{list_any};
ghost use Rattle.tangle_bodies.specs.Shapes.{Shapes};
ghost use Rattle.tangle_graph.specs.Ordering.{IsOrderIn};
ghost use Rattle.tangle_graph.specs.Stores.{AreNewShapes, IsStoreOf, StoreRead, flag_at};
ghost use Rattle.tangle_graph.specs.Affected.{ListsAffected};
ghost use Rattle.tangle_graph.specs.AffectedFlags.{AreFlagged, is_expandable_and_flagged};
ghost use Rattle.tangle_graph.specs.AffectedFlags.{uses_flagged};

use crate::flags::{is_flagged, set_flag};
use crate::store::Store;
use digraph::Node;
use std::alloc::Global;
use tangle_lines::NoMemory;

/// The nodes that an edit affects: each that is expandable in the new store, and reaches there a
/// node whose shape differs from its shape in the old store. Each is listed once, after those
/// listed nodes that it uses.
///
/// # Errors
///
/// `NoMemory` where an allocation failed.
pub fn affected(alloc: Global, new: &Store, new_shapes: &[bool]) -> Result<Vec<Node>, NoMemory>
    ensures { (old : StoreRead) (before after : Shapes) → AreNewShapes old new.now new_shapes.now
        → IsStoreOf before old → IsStoreOf after new.now
        → IfOk result (λ nodes. ListsAffected before after new.now nodes.items) }
{
    let order = new.order();
    let flags = reaching_new_shapes(alloc, new, new_shapes, order)?;
    listed_nodes(alloc, new, &flags, order)
}

/// Flags, along the order, each node that reaches one with a new shape.
pub(crate) fn reaching_new_shapes(
    alloc: Global,
    new: &Store,
    new_shapes: &[bool],
    order: &[Node],
) -> Result<Vec<bool>, NoMemory>
    requires { IsOrderIn new.now order.now }
    ensures { (old : StoreRead) (before after : Shapes) → AreNewShapes old new.now new_shapes.now
        → IsStoreOf before old → IsStoreOf after new.now
        → IfOk result (λ flags. AreFlagged before after new.now flags.items order.now) }
{
    // In this order each node comes after what it uses, so no search is needed.
    let mut flags = new.no_flags(alloc)?;
    for node in order {
        let flag = has_cause(new, new_shapes, &flags, *node);
        set_flag(&mut flags, *node, flag);
    }
    Ok(flags)
}

/// Whether the node has a new shape, or uses a flagged node.
fn has_cause(new: &Store, new_shapes: &[bool], flags: &[bool], node: Node) -> bool
    ensures { result ≡ (flag_at new_shapes.now node || uses_flagged new.now flags.now node) }
{
    is_flagged(new_shapes, node) || any_flagged(flags, new.uses(node))
}

fn any_flagged(flags: &[bool], nodes: &[Node]) -> bool
    ensures { result ≡ list_any (flag_at flags.now) nodes.now }
{
    nodes.iter().any(|node| is_flagged(flags, *node))
}

/// The nodes that are expandable and flagged, in the order of the store.
pub(crate) fn listed_nodes(
    alloc: Global,
    store: &Store,
    flags: &[bool],
    order: &[Node],
) -> Result<Vec<Node>, NoMemory>
    ensures { IfOk result (λ nodes. nodes.items
        ≡ filter (is_expandable_and_flagged store.now flags.now) order.now) }
{
    let mut nodes = Vec::new(alloc);
    for node in order {
        if store.expandable(*node) && is_flagged(flags, *node) {
            nodes.push(*node)?;
        }
    }
    Ok(nodes)
}
