//! Evidence by which most nodes are decided to contain themselves or not: ranks that never fall
//! along a use, and flags of the nodes that their roots reach, and that reach their roots.
ghost use Rattle.std.specs.Prelude.{◌≡◌, ◌<◌, ◌↔◌, IfOk, IfSome, true, length};
ghost use Rattle.digraph.specs.Graph.{InRange, HasUse};
ghost use Rattle.digraph.specs.Reach.{ContainsItself};
ghost use Rattle.digraph.specs.Evidence.{IsEvidence};

use crate::nodes::Node;
use crate::proposals::{postorder, rank_components};
use crate::ranks::{lowest, never_falls};
use crate::roots::{flag_reached, flag_reaching, leads_to_root};
use crate::rows::Rows;
use std::alloc::{AllocError, Global};

/// Proposed ranks and roots, and the results of checking them.
#[derive(Drop)]
pub struct Evidence {
    ranks: Vec<usize>,
    never_falls: bool,
    roots: Vec<usize>,
    from_root: Vec<bool>,
    to_root: Vec<bool>,
}

impl Evidence {
    /// Proposes components, with a rank and a root for each node, and checks them.
    pub fn gather(
        alloc: Global,
        uses: &Rows<Node>,
        users: &Rows<Node>,
    ) -> Result<Evidence, AllocError>
        requires { InRange uses.now }
        ensures { IfOk result (λ evidence. IsEvidence uses.now evidence) }
    {
        let order = postorder(alloc, uses)?;
        let mut ranks = vec![in alloc; 0usize; uses.len()]?;
        let mut roots = vec![in alloc; 0usize; uses.len()]?;
        let visits = rank_components(alloc, users, &order, &mut ranks, &mut roots)?;
        let mut from_root = vec![in alloc; false; uses.len()]?;
        flag_reached(uses, &roots, &order, &mut from_root);
        let mut to_root = vec![in alloc; false; uses.len()]?;
        flag_reaching(uses, &roots, &visits, &mut to_root);
        let never_falls = never_falls(uses, &ranks);
        Ok(Evidence {
            ranks,
            never_falls,
            roots,
            from_root,
            to_root,
        })
    }

    /// Whether the node contains itself; `None` where the evidence does not decide.
    pub fn conclusion(&self, uses: &Rows<Node>, n: usize) -> Option<bool>
        requires range { InRange uses.now }
        requires evidence { IsEvidence uses.now self.now }
        requires node { n < length uses.now }
        ensures { IfSome result (λ flag. (flag ≡ true) ↔ ContainsItself (HasUse uses.now) n) }
    {
        let row = uses.row(n);
        if self.from_root[n] && leads_to_root(row, self.roots[n], &self.roots, &self.to_root) {
            return Some(true);
        }
        if self.never_falls && lowest(row, &self.ranks) > self.ranks[n] {
            return Some(false);
        }
        None
    }
}
