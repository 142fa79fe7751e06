//! Ranks of nodes, which never fall along a use.
ghost use Rattle.std.specs.Prelude.{◌≡◌, ◌<◌, ◌≤◌, true, All, length, slice_index};
ghost use Rattle.digraph.specs.Graph.{InRange};
ghost use Rattle.digraph.specs.Roots.{NeverFalls};

use crate::nodes::Node;
use crate::rows::Rows;

/// Whether the rank falls along no use.
pub fn never_falls(uses: &Rows<Node>, ranks: &[usize]) -> bool
    requires range { InRange uses.now }
    requires ranks { length ranks.now ≡ length uses.now }
    ensures { result ≡ true → NeverFalls uses.now ranks.now }
{
    for n in 0..uses.len() {
        if lowest(uses.row(n), ranks) < ranks[n] {
            return false;
        }
    }
    true
}

/// A number that exceeds the rank of no node in the row.
pub fn lowest(row: &[Node], ranks: &[usize]) -> usize
    requires { All (λ m. m < length ranks.now) row.now }
    ensures { All (λ m. result ≤ slice_index ranks.now m) row.now }
{
    let mut low = usize::MAX;
    for m in row {
        low = low.min(ranks[m.number()]);
    }
    low
}
