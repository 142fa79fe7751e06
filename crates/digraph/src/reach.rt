//! Finds the nodes that reach a target.
ghost use Rattle.std.specs.Prelude.{◌≡◌, ◌≢◌, ◌<◌, ℕ, IfOk, true, false, All, Contains, length};
ghost use Rattle.std.specs.Prelude.{slice_index_or, vec_len};
ghost use Rattle.digraph.specs.Graph.{InRange};
ghost use Rattle.digraph.specs.Flags.{FlagsJust};
ghost use Rattle.digraph.specs.Finding.{IsFinding, IsDecided, ReachesNode};
ghost use Rattle.digraph.specs.OrderSoFar.{unflagged};

use crate::nodes::Node;
use crate::proposals::backward;
use crate::rows::Rows;
use std::alloc::{AllocError, Global};

/// A flag for each node: whether it reaches the target. The nodes are tried in the order of a
/// search first, and then until nothing changes.
///
/// `users` has, for each node, the nodes that use it; the result does not depend on it, only the
/// speed.
///
/// # Errors
///
/// `AllocError` where an allocation failed.
pub fn reaching(
    alloc: Global,
    uses: &Rows<Node>,
    users: &Rows<Node>,
    target: usize,
) -> Result<Vec<bool>, AllocError>
    requires range { InRange uses.now }
    requires target { target < length uses.now }
    ensures size { IfOk result (λ found. vec_len found ≡ length uses.now) }
    ensures flags { IfOk result
        (λ found. FlagsJust uses.now found.items (ReachesNode uses.now target)) }
{
    let mut found = vec![in alloc; false; uses.len()]?;
    for n in &backward(alloc, users, target)? {
        if *n < uses.len() {
            find(uses, *n, target, &mut found);
        }
    }
    while find_each(uses, target, &mut found) {}
    Ok(found)
}

/// Tries each node once. Returns whether any was found.
fn find_each(uses: &Rows<Node>, target: usize, found: &mut [bool]) -> bool
    requires range { InRange uses.now }
    requires finding { IsFinding uses.now target found.old }
    ensures finding { IsFinding uses.now target found.new }
    ensures more { result ≡ true → unflagged found.new < unflagged found.old }
    ensures none { result ≡ false → (n : ℕ) → n < length uses.now
        → IsDecided uses.now target found.new n }
{
    let mut any = false;
    for n in 0..uses.len() {
        any |= find(uses, n, target, found);
    }
    any
}

/// Finds the node if it is the target or uses one that was found. Returns whether it was found by
/// this call.
fn find(uses: &Rows<Node>, n: usize, target: usize, found: &mut [bool]) -> bool
    requires range { InRange uses.now }
    requires node { n < length uses.now }
    requires finding { IsFinding uses.now target found.old }
    ensures finding { IsFinding uses.now target found.new }
    ensures more { result ≡ true → unflagged found.new < unflagged found.old }
    ensures same { result ≡ false → found.new ≡ found.old }
    ensures decided { result ≡ false → IsDecided uses.now target found.old n }
{
    if found[n] || !(n == target || any_with(uses.row(n), found, true)) {
        return false;
    }
    found[n] = true;
    true
}

/// Whether some node of the row has this flag.
pub fn any_with(row: &[Node], flags: &[bool], flag: bool) -> bool
    requires { All (λ m. m < length flags.now) row.now }
    ensures one { result ≡ true
        → (m : ℕ) × Contains row.now m × (slice_index_or flags.now m false ≡ flag) }
    ensures none { result ≡ false
        → (m : ℕ) → Contains row.now m → slice_index_or flags.now m false ≢ flag }
{
    for m in row {
        if flags[m.number()] == flag {
            return true;
        }
    }
    false
}
