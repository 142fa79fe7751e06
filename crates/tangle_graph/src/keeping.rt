//! Keeps the expansions of a web: all are made, or after an edit those of the affected nodes, and
//! the others are shared.
ghost use Rattle.std.specs.Prelude.{◌≡◌, ◌++◌, ◌∷◌, [], true, IfOk, OnOk};
ghost use Rattle.tangle_bodies.specs.Shapes.{Shapes};
ghost use Rattle.tangle_graph.specs.Stores.{AreNewShapes, IsNodeIn, IsStoreOf, KeepsUsed};
ghost use Rattle.tangle_graph.specs.Stores.{is_expandable_at};
ghost use Rattle.tangle_graph.specs.Affected.{EditedShapes, ListsAffectedAfter};
ghost use Rattle.tangle_graph.specs.Keeping.{IsEditOf, IsRight, IsUnaffected, KeepsJust};
ghost use Rattle.tangle_graph.specs.Keeping.{ListsExpandableAfter, PutsRight};

use crate::edits::reaching_new_shapes;
use crate::flags::is_flagged;
use crate::nodes::node_before;
use crate::store::Store;
use digraph::Node;
use std::alloc::Global;
use tangle_expansion::{Expansion, Kept, Work};
use tangle_lines::NoMemory;

/// Expands each expandable node of the store, and keeps its expansion. The nodes are added to the
/// end of the work's list.
///
/// # Errors
///
/// `NoMemory` where an allocation failed.
pub fn expand_all(alloc: Global, store: &Store, work: &mut Work) -> Result<Kept, NoMemory>
    ensures kept { (shapes : Shapes) → IsStoreOf shapes store.now
        → IfOk result (λ kept. KeepsJust shapes store.now kept) }
    ensures work { OnOk result (ListsExpandableAfter store.now work.old work.new) }
{
    let order = store.order();
    let mut kept = Kept::new(alloc);
    for node in order {
        if store.expandable(*node) {
            expand_next(alloc, store, *node, &mut kept, work)?;
        }
    }
    Ok(kept)
}

/// Shares the old expansion of each unaffected expandable node, and expands the affected nodes,
/// each after those that it uses. The affected nodes are added to the end of the work's list. The
/// flags say which nodes have a new shape.
///
/// # Errors
///
/// `NoMemory` where an allocation failed. The old expansions do not change.
pub fn expand_again(
    alloc: Global,
    old: &Store,
    old_kept: &Kept,
    new: &Store,
    new_shapes: &[bool],
    work: &mut Work,
) -> Result<Kept, NoMemory>
    requires new_shapes { AreNewShapes old.now new.now new_shapes.now }
    requires edit { (shapes : EditedShapes) × IsEditOf old.now new.now old_kept.now shapes }
    ensures kept { (shapes : EditedShapes) → IsEditOf old.now new.now old_kept.now shapes
        → IfOk result (λ kept. KeepsJust shapes.new new.now kept) }
    ensures work { (shapes : EditedShapes) → IsEditOf old.now new.now old_kept.now shapes
        → OnOk result (ListsAffectedAfter shapes.old shapes.new new.now work.old work.new) }
{
    let order = new.order();
    let flags = reaching_new_shapes(alloc, new, new_shapes, order)?;
    let mut kept = Kept::new(alloc);
    for node in order {
        if new.expandable(*node) {
            if is_flagged(&flags, *node) {
                expand_next(alloc, new, *node, &mut kept, work)?;
            } else {
                let share = share_old(old, old_kept, new, *node)?;
                kept.put(*node, share)?;
            }
        }
    }
    Ok(kept)
}

/// Shares the old expansion of the node: that of the old node with the same title.
fn share_old(old: &Store, old_kept: &Kept, new: &Store, node: Node) -> Result<Expansion, NoMemory>
    requires node { IsNodeIn new.now node }
    requires edit { (shapes : EditedShapes) × IsEditOf old.now new.now old_kept.now shapes
        × IsUnaffected new.now shapes node }
    ensures { (shapes : EditedShapes) → IsEditOf old.now new.now old_kept.now shapes
        → IsUnaffected new.now shapes node
        → IfOk result (IsRight shapes.new new.now node) }
{
    let before = node_before(old.names(), new.names(), node).unwrap();
    old_kept.get(before).unwrap().share()
}

/// Expands a node, and keeps its expansion.
fn expand_next(
    alloc: Global,
    store: &Store,
    node: Node,
    kept: &mut Kept,
    work: &mut Work,
) -> Result<(), NoMemory>
    requires { is_expandable_at store.now node ≡ true }
    ensures kept { (shapes : Shapes) → IsStoreOf shapes store.now
        → KeepsUsed shapes store.now kept.old node
        → OnOk result (PutsRight shapes store.now kept.old kept.new node) }
    ensures listed { OnOk result (work.new ≡ work.old ++ node ∷ []) }
{
    let expansion = store.expand(alloc, node, kept, work)?;
    kept.put(node, expansion)
}
