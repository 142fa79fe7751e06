//! Flags the nodes that their roots reach, and the nodes that reach their roots. The flags are
//! right in whatever order the nodes are tried; a bad order leaves some nodes without a flag.
ghost use Rattle.std.specs.Prelude.{◌≡◌, ◌<◌, ◌⊎◌, ℕ, true, All, Contains, length};
ghost use Rattle.std.specs.Prelude.{slice_index};
ghost use Rattle.digraph.specs.Graph.{InRange};
ghost use Rattle.digraph.specs.Flags.{IsFlagged};
ghost use Rattle.digraph.specs.Roots.{FromRoots, ToRoots};

use crate::nodes::Node;
use crate::rows::Rows;

/// Flags nodes that their roots reach; they are tried from the end of `backwards` to its front. All
/// such nodes are flagged if, in `backwards`, each comes after the next one on a path from its
/// root.
pub fn flag_reached(uses: &Rows<Node>, roots: &[usize], backwards: &[usize], flags: &mut [bool])
    requires range { InRange uses.now }
    requires roots { length roots.now ≡ length uses.now }
    requires flags { FromRoots uses.now roots.now flags.old }
    ensures { FromRoots uses.now roots.now flags.new }
{
    for n in backwards.iter().rev() {
        if *n < uses.len() {
            flag_from_root(uses, *n, roots, flags);
        }
    }
}

/// Flags the node if it is a root. If it is flagged then, flags the nodes with the same root that
/// it uses.
fn flag_from_root(uses: &Rows<Node>, n: usize, roots: &[usize], flags: &mut [bool])
    requires range { InRange uses.now }
    requires node { n < length uses.now }
    requires roots { length roots.now ≡ length uses.now }
    requires flags { FromRoots uses.now roots.now flags.old }
    ensures { FromRoots uses.now roots.now flags.new }
{
    let root = roots[n];
    if root == n {
        flags[n] = true;
    }
    if flags[n] {
        flag_row(uses.row(n), root, roots, flags);
    }
}

/// Flags the nodes of the row that have this root.
fn flag_row(row: &[Node], root: usize, roots: &[usize], flags: &mut [bool])
    requires range { All (λ m. m < length roots.now) row.now }
    requires flags { length flags.old ≡ length roots.now }
    ensures { (m : ℕ) → IsFlagged flags.new m → IsFlagged flags.old m
        ⊎ (Contains row.now m × (slice_index roots.now m ≡ root)) }
{
    for m in row {
        let m = m.number();
        if roots[m] == root {
            flags[m] = true;
        }
    }
}

/// Flags nodes that reach their roots; they are tried in this order. All such nodes are flagged if
/// each comes after the next one on a path to its root.
pub fn flag_reaching(uses: &Rows<Node>, roots: &[usize], order: &[usize], flags: &mut [bool])
    requires range { InRange uses.now }
    requires roots { length roots.now ≡ length uses.now }
    requires flags { ToRoots uses.now roots.now flags.old }
    ensures { ToRoots uses.now roots.now flags.new }
{
    for n in order {
        if *n < uses.len() {
            flag_to_root(uses, *n, roots, flags);
        }
    }
}

/// Flags the node if it is a root, or uses a flagged node with the same root.
fn flag_to_root(uses: &Rows<Node>, n: usize, roots: &[usize], flags: &mut [bool])
    requires range { InRange uses.now }
    requires node { n < length uses.now }
    requires roots { length roots.now ≡ length uses.now }
    requires flags { ToRoots uses.now roots.now flags.old }
    ensures { ToRoots uses.now roots.now flags.new }
{
    let root = roots[n];
    if root == n || leads_to_root(uses.row(n), root, roots, flags) {
        flags[n] = true;
    }
}

/// Whether some node of the row has this root and is flagged.
pub fn leads_to_root(row: &[Node], root: usize, roots: &[usize], flags: &[bool]) -> bool
    requires range { All (λ m. m < length roots.now) row.now }
    requires flags { length flags.now ≡ length roots.now }
    ensures { result ≡ true → (m : ℕ) × Contains row.now m × (slice_index roots.now m ≡ root)
        × IsFlagged flags.now m }
{
    for m in row {
        let m = m.number();
        if roots[m] == root && flags[m] {
            return true;
        }
    }
    false
}
