//! The nodes that use each node.
ghost use Rattle.std.specs.Prelude.{◌≡◌, ◌<◌, ◌∷◌, [], ◌==◌, IfOk, OnOk, length, All};
ghost use Rattle.std.specs.Prelude.{if◌then◌else◌};
ghost use Rattle.std.specs.List.{list_any};
ghost use Rattle.std.specs.List.Sorted.{IsStrictlyIncreasing};
ghost use Rattle.digraph.specs.Graph.{InRange};
ghost use Rattle.digraph.specs.Rows.{GrowsBy, IsOnceEach, IsReversed};

use crate::growing::GrowingRows;
use crate::nodes::Node;
use crate::rows::Rows;
use std::alloc::{AllocError, Global};

/// Sorts the nodes of the row by their numbers, and leaves each once.
pub fn once_each(row: &mut Vec<Node>)
    ensures { IsOnceEach row.old.items row.new.items }
{
    row.sort_unstable();
    row.dedup();
}

/// For each node, the nodes that use it, each once and in increasing order. The rows of `uses` must
/// already be like this, as [`once_each`] leaves them.
///
/// # Errors
///
/// `AllocError` where an allocation failed.
pub fn users(alloc: Global, uses: &Rows<Node>) -> Result<Rows<Node>, AllocError>
    requires range { InRange uses.now }
    requires increasing { All IsStrictlyIncreasing uses.now }
    ensures { IfOk result (λ users. IsReversed uses.now users) }
{
    let mut users = GrowingRows::with_rows(alloc, uses.len())?;
    for n in 0..uses.len() {
        add_user(&mut users, uses.row(n), Node::new(n))?;
    }
    users.finish(alloc)
}

/// Adds the user at the end of each row whose number is in `row`.
fn add_user(users: &mut GrowingRows<Node>, row: &[Node], user: Node) -> Result<(), AllocError>
    requires increasing { IsStrictlyIncreasing row.now }
    requires within { All (λ m. m < length users.old) row.now }
    ensures { OnOk result (GrowsBy (λ m. if list_any (λ x. x == m) row.now then user ∷ [] else [])
        users.old users.new) }
{
    for m in row {
        users.push_to(m.number(), user)?;
    }
    Ok(())
}
