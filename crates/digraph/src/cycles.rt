//! Finds the nodes that contain themselves.
ghost use Rattle.std.specs.Prelude.{◌≡◌, ◌<◌, ◌↔◌, IfOk, true, length, vec_len};
ghost use Rattle.digraph.specs.Graph.{InRange, HasUse};
ghost use Rattle.digraph.specs.Reach.{ContainsItself};
ghost use Rattle.digraph.specs.Flags.{FlagsJust};
ghost use Rattle.digraph.specs.Evidence.{IsEvidence};

use crate::evidence::Evidence;
use crate::nodes::Node;
use crate::reach::{any_with, reaching};
use crate::rows::Rows;
use std::alloc::{AllocError, Global};

/// A flag for each node: whether it contains itself, that is, reaches itself in one step or more.
///
/// `users` has, for each node, the nodes that use it; the result does not depend on it, only the
/// speed.
///
/// # Errors
///
/// `AllocError` where an allocation failed.
pub fn self_containing(
    alloc: Global,
    uses: &Rows<Node>,
    users: &Rows<Node>,
) -> Result<Vec<bool>, AllocError>
    requires { InRange uses.now }
    ensures size { IfOk result (λ flags. vec_len flags ≡ length uses.now) }
    ensures flags { IfOk result
        (λ flags. FlagsJust uses.now flags.items (ContainsItself (HasUse uses.now))) }
{
    let evidence = Evidence::gather(alloc, uses, users)?;
    let mut flags = Vec::new(alloc);
    for n in 0..uses.len() {
        let flag = contains_itself(alloc, uses, users, &evidence, n)?;
        flags.push(flag)?;
    }
    Ok(flags)
}

/// Whether the node contains itself: by the evidence or, where that does not decide, by a search
/// from this node alone.
fn contains_itself(
    alloc: Global,
    uses: &Rows<Node>,
    users: &Rows<Node>,
    evidence: &Evidence,
    n: usize,
) -> Result<bool, AllocError>
    requires range { InRange uses.now }
    requires evidence { IsEvidence uses.now evidence.now }
    requires node { n < length uses.now }
    ensures { IfOk result (λ flag. (flag ≡ true) ↔ ContainsItself (HasUse uses.now) n) }
{
    match evidence.conclusion(uses, n) {
        Some(flag) => Ok(flag),
        None => Ok(any_with(uses.row(n), &reaching(alloc, uses, users, n)?, true)),
    }
}
