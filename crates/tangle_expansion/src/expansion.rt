//! Expansions, which share the items of their nodes and the expansions of the used nodes.
ghost use Rattle.std.specs.Prelude.{◌≡◌, IfOk};

use std::marker::Model;
use std::rc::Rc;
use tangle_bodies::NodeItems;
use tangle_lines::NoMemory;

/// The expansion of a node: its items, and the expansions of the nodes that it uses. It has no
/// numbers of nodes, since it may be kept while these change: they are given where it is written.
#[cycle(expansion)]
#[derive(Drop)]
pub struct Expansion {
    pub(crate) shared: Rc<SharedExpansion>,
}

#[cycle(expansion)]
#[derive(Drop)]
pub(crate) struct SharedExpansion {
    pub(crate) items: Rc<NodeItems>,
    /// For each use of a name, the expansion of the name, if it has a piece.
    pub(crate) used: Vec<Option<Expansion>>,
}

impl Model for Expansion {
    ghost use Rattle.tangle_expansion.specs.Expanded.{Expanded};
    ghost use Rattle.tangle_expansion.specs.ExpandedCode.{expanded_code};
    ghost use Rattle.std.specs.Coded.{codes};

    ghost Value = { Expanded };

    ghost coded = { expanded_code (Prim.hlevel codes) };

    ghost use Rattle.tangle_expansion.specs.ExpansionView.{expansion_read};

    ghost view = { expansion_read };

    ghost use Rattle.tangle_expansion.specs.Expanded.{shared_depth};

    ghost size = { λ e. shared_depth e.used };

    ghost use Rattle.tangle_expansion.specs.Deeper.{is_deeper};

    ghost size_decreases = { λ e h. is_deeper e };
}

impl Expansion {
    /// Shares the expansion.
    ///
    /// # Errors
    ///
    /// `NoMemory` where the counter of shares is full.
    pub fn share(&self) -> Result<Expansion, NoMemory>
        ensures { IfOk result (λ e. e ≡ self.now) }
    {
        let shared = self.shared.clone()?;
        Ok(Expansion { shared })
    }
}
