//! The list of the nodes that were expanded.
ghost use Rattle.std.specs.Prelude.{◌≡◌, ◌++◌, ◌∷◌, [], length, OnOk, OnErr};

use digraph::Node;
use std::alloc::Global;
use std::marker::Model;
use tangle_lines::NoMemory;

/// The list of the nodes that were expanded, one after another.
#[derive(Drop)]
pub struct Work {
    nodes: Vec<Node>,
}

impl Model for Work {
    ghost use Rattle.std.specs.Prelude.{List};
    ghost use Rattle.digraph.specs.Nodes.{Node};

    ghost Value = { List Node };

    ghost view = { λ w. w.nodes.items };
}

impl Work {
    /// An empty list. Nothing is allocated yet.
    pub fn new(alloc: Global) -> Work
        ensures { result ≡ [] }
    {
        Work {
            nodes: Vec::new(alloc),
        }
    }

    /// The number of nodes that were expanded.
    pub fn made(&self) -> u64
        ensures { result ≡ length self.now }
    {
        self.nodes.len() as u64
    }

    /// Adds an expanded node to the end of the list.
    pub(crate) fn add(&mut self, node: Node) -> Result<(), NoMemory>
        ensures ok { OnOk result (self.new ≡ self.old ++ node ∷ []) }
        ensures err { OnErr result (self.new ≡ self.old) }
    {
        self.nodes.push(node)?;
        Ok(())
    }
}
