//! The weight and the depth of each node.
ghost use Rattle.std.specs.Prelude.{◌≡◌, ◌+◌, ◌≤◌, ◌&&◌, ℕ, IfOk, length, map, min, sum_by};
ghost use Rattle.std.specs.Prelude.{List, nat_lt, nat_le};
ghost use Rattle.digraph.specs.Graph.{InRange};
ghost use Rattle.digraph.specs.Order.{IsOrder};
ghost use Rattle.tangle_bodies.specs.NodeBodies.{HoldsShape, body_uses};
ghost use Rattle.tangle_bodies.specs.Shapes.{Shapes, Title};
ghost use Rattle.tangle_expansion.specs.Limits.{weight_cap, levels, heaviest};
ghost use Rattle.tangle_bodies.specs.NodeBodies.{AreBodiesOf, node_bodies};
ghost use Rattle.tangle_graph.specs.Measures.{AreMeasures, AreUsesMeasured, greatest_by};
ghost use Rattle.tangle_graph.specs.Measures.{measure_at, measure_of};
ghost use Rattle.tangle_graph.specs.NameGraphs.{AreUsesOf};

use crate::nodes::entry;
use digraph::{Node, Rows};
use std::alloc::{AllocError, Global};
use std::rc::Rc;
use tangle_bodies::NodeBody;

/// The greatest weight of an expandable node.
const HEAVIEST: u32 = 16_777_216;

/// The weight that is recorded for each heavier node.
const WEIGHT_CAP: u32 = HEAVIEST + 1;

/// The depth that is recorded for each node that is too deep to be expandable: one more than the
/// greatest allowed depth.
const LEVELS: u16 = 1001;

/// The weight and the depth of a node, and whether it is expandable.
#[derive(Clone, Copy)]
pub(crate) struct Measure {
    pub(crate) weight: u32,
    pub(crate) depth: u16,
    pub(crate) is_expandable: bool,
}

/// What is recorded of a node without a piece.
pub(crate) const NO_PIECE: Measure = Measure {
    weight: 0,
    depth: 0,
    is_expandable: false,
};

/// What is recorded of a node that reaches a name that contains itself.
const BEYOND: Measure = Measure {
    weight: WEIGHT_CAP,
    depth: LEVELS,
    is_expandable: false,
};

/// The weight of a node with this number of symbols of its own, which uses these nodes.
#[tactic(auto, unfolding(tangle_expansion::specs::Limits::weight_cap))]
fn weight_with_uses(own: u32, measures: &[Measure], uses: &[Node]) -> u32
    requires { own ≤ weight_cap }
    ensures { result ≡ min weight_cap
        (own + sum_by (λ node. (measure_at measures.now node).weight) uses.now) }
{
    let mut weight = own;
    for node in uses {
        let used = entry(measures, *node, NO_PIECE).weight;
        weight = weight.saturating_add(used).min(WEIGHT_CAP);
    }
    weight
}

/// The greatest depth of these nodes, or 0 if there is none.
fn greatest_depth(measures: &[Measure], uses: &[Node]) -> u16
    ensures { result ≡ greatest_by (λ node. (measure_at measures.now node).depth) uses.now }
{
    let mut greatest = 0;
    for node in uses {
        greatest = greatest.max(entry(measures, *node, NO_PIECE).depth);
    }
    greatest
}

/// Whether both limits allow this weight and this depth.
#[tactic(auto, unfolding(tangle_expansion::specs::Limits::levels, tangle_expansion::specs::Limits::heaviest))]
fn is_within(weight: u32, depth: u16) -> bool
    ensures { result ≡ (nat_lt depth levels && nat_le weight heaviest) }
{
    depth < LEVELS && weight <= HEAVIEST
}

/// The measure of the node with this body, by those of the nodes that it uses.
#[tactic(auto, unfolding(tangle_expansion::specs::Limits::levels, tangle_expansion::specs::Limits::weight_cap))]
fn measure_of_node(measures: &[Measure], body: &NodeBody) -> Measure
    ensures { (shapes : Shapes) (names : List (List ℕ)) (title : Title)
        → HoldsShape names (shapes title) body.now
        → AreUsesMeasured shapes names measures.now (body_uses body.now)
        → result ≡ measure_of shapes title }
{
    let own = body.symbol_count().min(WEIGHT_CAP as usize) as u32;
    if own == 0 {
        return NO_PIECE;
    }
    let weight = weight_with_uses(own, measures, body.uses());
    let depth = greatest_depth(measures, body.uses())
        .saturating_add(1)
        .min(LEVELS);
    Measure {
        weight,
        depth,
        is_expandable: is_within(weight, depth),
    }
}

/// The measure of each node with these bodies and uses. In the order a node comes after those that
/// it uses; a node that reaches a cycle is not in it.
pub(crate) fn measures_of_nodes(
    alloc: Global,
    uses: &Rows<Node>,
    order: &[Node],
    bodies: &[Rc<NodeBody>],
) -> Result<Vec<Measure>, AllocError>
    requires uses { AreUsesOf (map body_uses (node_bodies bodies.now)) uses.now }
    requires size { length bodies.now ≡ length uses.now }
    requires range { InRange uses.now }
    requires order { IsOrder uses.now order.now }
    ensures size { IfOk result (λ measures. length measures.items ≡ length uses.now) }
    ensures measures { IfOk result (λ measures. (shapes : Shapes) (names : List (List ℕ))
        → AreBodiesOf shapes names (node_bodies bodies.now)
        → AreMeasures shapes names measures.items) }
{
    let mut measures = vec![in alloc; BEYOND; uses.len()]?;
    for node in order {
        let n = node.number();
        measures[n] = measure_of_node(&measures, &bodies[n]);
    }
    Ok(measures)
}
