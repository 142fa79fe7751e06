//! Counts the symbols of a body without those of used names.
ghost use Rattle.std.specs.Prelude.{◌≡◌, ◌≤◌, ◌<◌, ◌^◌, ℕ, List, length, min};
ghost use Rattle.tangle_bodies.specs.Flat.{own_weight};
ghost use Rattle.tangle_bodies.specs.Flat.{own_symbols};
ghost use Rattle.tangle_bodies.specs.NodeBodies.{HoldsShape};
ghost use Rattle.tangle_bodies.specs.Shapes.{Program, Shape};

use crate::nodes::{NodeBody, NodeItems};
use tangle_scan::ItemKind;

/// The number of symbols that a tag of this kind gives besides its bytes.
pub fn symbols_of_kind(kind: ItemKind) -> usize
    ensures count { result ≡ length (own_symbols Program 0 0 kind) }
    ensures small { result ≤ 2 }
{
    match kind {
        ItemKind::PieceStart => 2,
        ItemKind::Mark | ItemKind::AllMacros | ItemKind::PieceEnd => 1,
        ItemKind::Use | ItemKind::NoUse => 1,
        _ => 0,
    }
}

impl NodeBody {
    /// The number of the node's own symbols, where each use counts as one. At most `usize::MAX` is
    /// returned.
    pub fn symbol_count(&self) -> usize
        ensures { (names : List (List ℕ)) (shape : Shape) → HoldsShape names shape self.now
            → (cap : ℕ) → cap < 2 ^ 64
            → min cap result ≡ min cap (own_weight shape) }
    {
        let items: &NodeItems = &self.items;
        let mut count = 0;
        for tag in items.tags.as_slice() {
            count += symbols_of_kind(tag.kind);
        }
        items.bytes.len().saturating_add(count)
    }
}
