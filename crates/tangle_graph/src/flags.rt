//! Flags of the nodes of a store: a list with one for each node.
ghost use Rattle.std.specs.Prelude.{◌≡◌, ◌+◌, IfOk, false, length, set};
ghost use Rattle.digraph.specs.Nodes.{Node};
ghost use Rattle.tangle_graph.specs.Stores.{flag_at};

use crate::nodes::entry;
use crate::store::Store;
use digraph::Node;
use std::alloc::Global;
use tangle_lines::NoMemory;

impl Store {
    /// A list with a flag for each node of the store, none of which is set.
    ///
    /// # Errors
    ///
    /// `NoMemory` where an allocation failed.
    pub(crate) fn no_flags(&self, alloc: Global) -> Result<Vec<bool>, NoMemory>
        ensures size { IfOk result (λ flags. length flags.items ≡ length self.now.names + 1) }
        ensures none { IfOk result (λ flags. (node : Node) → flag_at flags.items node ≡ false) }
    {
        let mut flags = vec![in alloc; false; self.names().count()]?;
        flags.push(false)?;
        Ok(flags)
    }
}

/// Whether the flag of the node is set. A node without a flag counts as one whose flag is not set.
pub fn is_flagged(flags: &[bool], node: Node) -> bool
    ensures { result ≡ flag_at flags.now node }
{
    entry(flags, node, false)
}

/// Sets the flag of the node to this value. For a node without a flag nothing changes.
pub(crate) fn set_flag(flags: &mut Vec<bool>, node: Node, flag: bool)
    ensures { flags.new.items ≡ set flags.old.items node flag }
{
    let n = node.number();
    if n < flags.len() {
        flags[n] = flag;
    }
}
