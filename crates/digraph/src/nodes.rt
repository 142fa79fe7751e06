//! The nodes of a graph of names.
ghost use Rattle.std.specs.Prelude.{◌≡◌, ◌^◌, ◌-◌, ℕ, min, suc};
ghost use Rattle.digraph.specs.Nodes.{name_of_node};

use std::marker::Model;

/// A node of a graph of names, as one number: the unnamed program is 0, and the full name with the
/// number `id` in its table is `id + 1`. So no node has another number after a name is added at the
/// end of a table.
#[derive(Clone, Copy, Debug, PartialEq, Eq, PartialOrd, Ord)]
pub struct Node {
    number: usize,
}

impl Model for Node {
    ghost Value = { ℕ };

    ghost view = { λ n. n.number };

    ghost inverse = { λ number. record { number = number } };
}

impl Node {
    /// The node of the unnamed program.
    pub fn program() -> Node
        ensures { result ≡ 0 }
    {
        Node { number: 0 }
    }

    /// The node of the full name with this number. The number 2⁶⁴ - 1, which no name of a table
    /// has, gives the node of the number before it.
    pub fn name(id: usize) -> Node
        ensures { result ≡ min (suc id) (2 ^ 64 - 1) }
    {
        Node {
            number: id.saturating_add(1),
        }
    }

    /// The node with this number.
    pub fn new(number: usize) -> Node
        ensures { result ≡ number }
    {
        Node { number }
    }

    /// Its number: that of its entry in a list with an entry for each node.
    pub fn number(self) -> usize
        ensures { result ≡ self }
    {
        self.number
    }

    /// The number of its name; `None` for the program.
    pub fn name_number(self) -> Option<usize>
        ensures { result ≡ name_of_node self }
    {
        self.number.checked_sub(1)
    }
}
