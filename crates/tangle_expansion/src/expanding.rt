//! Makes the expansion of a node from those of the names that it uses.
ghost use Rattle.std.specs.Prelude.{◌≡◌, ◌++◌, ◌∷◌, [], IfOk, OnOk, OnErr};
ghost use Rattle.tangle_expansion.specs.Expanded.{expanded};
ghost use Rattle.tangle_expansion.specs.Kept.{kept_at, kept_for};
ghost use Rattle.tangle_bodies.specs.NodeBodies.{body_uses};

use crate::expansion::{Expansion, SharedExpansion};
use crate::kept::Kept;
use crate::work::Work;
use digraph::Node;
use std::alloc::Global;
use std::rc::Rc;
use tangle_bodies::NodeBody;
use tangle_lines::NoMemory;

/// Shares the kept expansion of the node, if there is one.
fn share_kept(kept: &Kept, node: Node) -> Result<Option<Expansion>, NoMemory>
    ensures { IfOk result (λ shared. shared ≡ kept_at kept.now node) }
{
    match kept.get(node) {
        Some(expansion) => Ok(Some(expansion.share()?)),
        None => Ok(None),
    }
}

/// Makes the expansion of a node, which shares the node's items and the kept expansions of the
/// names that the node uses.
fn expansion_of(alloc: Global, body: &NodeBody, kept: &Kept) -> Result<Expansion, NoMemory>
    ensures { IfOk result
        (λ e. e ≡ expanded body.now.items.value (kept_for kept.now (body_uses body.now))) }
{
    let mut used = Vec::with_capacity(alloc, body.uses().len())?;
    for node in body.uses() {
        used.push(share_kept(kept, *node)?)?;
    }
    let items = body.items.clone()?;
    let shared = Rc::new(alloc, SharedExpansion { items, used })?;
    Ok(Expansion { shared })
}

/// Expands a node with this body: its items, with the kept expansion of each used name, if there is
/// one. The node is added to the end of the work's list.
///
/// # Errors
///
/// `NoMemory` where an allocation failed; the work does not change then.
pub fn expand(
    alloc: Global,
    node: Node,
    body: &NodeBody,
    kept: &Kept,
    work: &mut Work,
) -> Result<Expansion, NoMemory>
    ensures right { IfOk result
        (λ e. e ≡ expanded body.now.items.value (kept_for kept.now (body_uses body.now))) }
    ensures listed { OnOk result (work.new ≡ work.old ++ node ∷ []) }
    ensures err { OnErr result (work.new ≡ work.old) }
{
    let expansion = expansion_of(alloc, body, kept)?;
    work.add(node)?;
    Ok(expansion)
}
