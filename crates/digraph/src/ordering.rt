//! A topological order of a graph's nodes: each comes after those that it uses.
ghost use Rattle.std.specs.Prelude.{◌≡◌, ◌<◌, ℕ, IfOk, true, false, length};
ghost use Rattle.digraph.specs.Graph.{InRange};
ghost use Rattle.digraph.specs.Order.{AreAcyclic, IsOrder};
ghost use Rattle.digraph.specs.OrderSoFar.{IsOrderSoFar, IsStuck, unflagged};

use crate::nodes::Node;
use crate::proposals::topological_order;
use crate::reach::any_with;
use crate::rows::Rows;
use std::alloc::{AllocError, Global};

/// The nodes that reach no cycle, each after those that it uses; and a flag for each node: whether
/// it is one of these.
#[derive(Drop)]
pub struct Ordered {
    pub nodes: Vec<Node>,
    pub acyclic: Vec<bool>,
}

/// The order of a graph. So cycles are found too: what is not in the order reaches one.
///
/// `users` has, for each node, the nodes that use it; the result does not depend on it, only the
/// speed.
///
/// # Errors
///
/// `AllocError` where an allocation failed.
pub fn order(alloc: Global, uses: &Rows<Node>, users: &Rows<Node>) -> Result<Ordered, AllocError>
    requires { InRange uses.now }
    ensures order { IfOk result (λ order. IsOrder uses.now order.nodes.items) }
    ensures cycles { IfOk result (λ order. AreAcyclic uses.now order.acyclic.items) }
{
    let mut acyclic = vec![in alloc; false; uses.len()]?;
    let mut nodes = Vec::new(alloc);
    for n in &topological_order(alloc, uses, users)? {
        if *n < uses.len() {
            add_to_order(uses, *n, &mut acyclic, &mut nodes)?;
        }
    }
    while add_each(uses, &mut acyclic, &mut nodes)? {}
    Ok(Ordered { nodes, acyclic })
}

/// Goes once over the nodes and adds each that can be added. Returns whether any was.
fn add_each(
    uses: &Rows<Node>,
    flags: &mut Vec<bool>,
    order: &mut Vec<Node>,
) -> Result<bool, AllocError>
    requires range { InRange uses.now }
    requires order { IsOrderSoFar uses.now flags.old.items order.old.items }
    ensures order { IfOk result (λ _. IsOrderSoFar uses.now flags.new.items order.new.items) }
    ensures more { IfOk result
        (λ any. any ≡ true → unflagged flags.new.items < unflagged flags.old.items) }
    ensures none { IfOk result
        (λ any. any ≡ false → (n : ℕ) → n < length uses.now → IsStuck uses.now order.new.items n) }
{
    let mut any = false;
    for n in 0..uses.len() {
        any |= add_to_order(uses, n, flags, order)?;
    }
    Ok(any)
}

/// Adds the node if it isn't in the order and all nodes that it uses are. Returns whether it was
/// added.
fn add_to_order(
    uses: &Rows<Node>,
    n: usize,
    flags: &mut Vec<bool>,
    order: &mut Vec<Node>,
) -> Result<bool, AllocError>
    requires range { InRange uses.now }
    requires node { n < length uses.now }
    requires order { IsOrderSoFar uses.now flags.old.items order.old.items }
    ensures order { IfOk result (λ _. IsOrderSoFar uses.now flags.new.items order.new.items) }
    ensures more { IfOk result
        (λ now. now ≡ true → unflagged flags.new.items < unflagged flags.old.items) }
    ensures same { IfOk result
        (λ now. now ≡ false → (flags.new.items ≡ flags.old.items)
        × (order.new.items ≡ order.old.items)) }
    ensures stuck { IfOk result (λ now. now ≡ false → IsStuck uses.now order.old.items n) }
{
    if flags[n] || any_with(uses.row(n), flags, false) {
        return Ok(false);
    }
    order.push(Node::new(n))?;
    flags[n] = true;
    Ok(true)
}
