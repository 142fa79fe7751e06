//! A law of orders.
ghost use Rattle.std.specs.Prelude.{◌<◌, ◌↔◌, ℕ, List, Contains, length};
ghost use Rattle.digraph.specs.Graph.{Graph, HasUse, InRange};
ghost use Rattle.digraph.specs.Reach.{ReachesCycle, HasPath};
ghost use Rattle.digraph.specs.Order.{IsOrder};

/// A node is in an order exactly if it reaches no cycle. From each other node there is a path of
/// any length.
pub fn order_holds_what_reaches_no_cycle()
    ensures held { (graph : Graph) (order : List ℕ) (n : ℕ) → IsOrder graph order → InRange graph
        → n < length graph
        → (Contains order n ↔ ¬ (ReachesCycle (HasUse graph) n)) }
    ensures left_out { (graph : Graph) (order : List ℕ) (n : ℕ) → IsOrder graph order
        → InRange graph → n < length graph → ¬ (Contains order n)
        → ReachesCycle (HasUse graph) n × ((steps : ℕ) → HasPath (HasUse graph) steps n) }
{}
