//! Kept expansions, by node.
ghost use Rattle.std.specs.Prelude.{◌≡◌, ◌≤◌, ◌+◌, None, OnOk, OnErr, length, max};
ghost use Rattle.std.specs.Option.{option_copied};
ghost use Rattle.digraph.specs.Nodes.{Node};
ghost use Rattle.tangle_expansion.specs.Kept.{kept_at, PutsKept, SameKept};

use crate::expansion::Expansion;
use digraph::Node;
use std::alloc::Global;
use tangle_lines::NoMemory;

/// The kept expansions, by node.
#[derive(Drop)]
pub struct Kept {
    by_node: Vec<Option<Expansion>>,
}

impl Kept {
    /// No expansions. Nothing is allocated yet.
    pub fn new(alloc: Global) -> Kept
        ensures { (node : Node) → kept_at result node ≡ None }
    {
        Kept {
            by_node: Vec::new(alloc),
        }
    }

    /// Makes entries up to that of the node, if it has none, and none beyond it.
    fn make_entry(&mut self, node: Node) -> Result<(), NoMemory>
        ensures kept { SameKept self.old self.new }
        ensures length { OnOk result (length self.new.by_node.items
            ≤ max (length self.old.by_node.items) (node + 1)) }
    {
        let size = node.number().saturating_add(1);
        // All memory is asked for at once, so that a node far beyond a store's makes no entry.
        self.by_node
            .reserve(size.saturating_sub(self.by_node.len()))?;
        for _entry in self.by_node.len()..size {
            self.by_node.push(None)?;
        }
        Ok(())
    }

    /// Keeps this expansion for the node, instead of an older one.
    ///
    /// # Errors
    ///
    /// `NoMemory` where an allocation failed; the kept expansions do not change then, and the new
    /// one is dropped.
    pub fn put(&mut self, node: Node, expansion: Expansion) -> Result<(), NoMemory>
        ensures ok { OnOk result (PutsKept self.old self.new node expansion) }
        ensures err { OnErr result (SameKept self.old self.new) }
    {
        self.make_entry(node)?;
        let Some(entry) = self.by_node.get_mut(node.number()) else {
            return Err(NoMemory);
        };
        *entry = Some(expansion);
        Ok(())
    }

    /// The expansion that is kept for the node, if there is one.
    pub fn get(&self, node: Node) -> Option<&Expansion>
        ensures { option_copied result ≡ kept_at self.now node }
    {
        self.by_node.get(node.number())?.as_ref()
    }
}
