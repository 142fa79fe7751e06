//! The body of each node, and whether its shape is new.
ghost use Rattle.std.specs.Prelude.{◌≡◌, ◌≢◌, [], IfOk, All, IfSome};
ghost use Rattle.std.specs.Prelude.{true, MatchOption, None};
ghost use Rattle.digraph.specs.Nodes.{Node};
ghost use Rattle.tangle_bodies.specs.NodeBodies.{HoldsShape, body_items, body_uses};
ghost use Rattle.tangle_bodies.specs.NodeBodies.{items_read};
ghost use Rattle.tangle_bodies.specs.Nodes.{title_at};
ghost use Rattle.tangle_bodies.specs.Shapes.{Shapes};
ghost use Rattle.tangle_bodies.specs.WebShapes.{shapes};
ghost use Rattle.tangle_bodies.specs.NodeBodies.{AreBodiesOf, IsBodyOf, node_bodies};
ghost use Rattle.tangle_bodies.specs.Nodes.{IsNodeOf};
ghost use Rattle.tangle_graph.specs.NewBodies.{AreNewBodies, IsGrouped, IsNewBody};
ghost use Rattle.tangle_graph.specs.Stores.{IsStoreOf};

use crate::nodes::node_before;
use crate::store::Store;
use digraph::{Node, Rows};
use std::alloc::Global;
use std::rc::Rc;
use tangle_bodies::{BodyBuilder, NodeBody};
use tangle_lines::NoMemory;
use tangle_names::{NameTable, Names};
use tangle_scan::Web;

/// A web with its table of names, these names, and a row for each node: the numbers of the node's
/// pieces.
#[derive(Clone, Copy)]
pub(crate) struct GroupedWeb<'w, 's, 'a> {
    pub(crate) web: &'w Web<'s, 'a>,
    pub(crate) table: &'w NameTable,
    pub(crate) names: &'w Names,
    pub(crate) pieces: &'w Rows<usize>,
}

/// The old body of a node, with the old names, and whether these are still the names.
#[derive(Clone, Copy)]
struct OldBody<'s> {
    names: &'s Names,
    body: &'s Rc<NodeBody>,
    same_names: bool,
}

/// The body that the node had in the old store. It holds the node's old shape; a node without an
/// old body had no piece.
fn body_before<'s>(
    old: Option<&'s Store>,
    names: &Names,
    same_names: bool,
    node: Node,
) -> Option<OldBody<'s>>
    requires same_names { same_names ≡ true → IfSome old (λ store. store.now.names ≡ names.now) }
    requires node { IsNodeOf names.now node }
    ensures same_names { IfSome result
        (λ before. before.same_names ≡ true → before.names.now ≡ names.now) }
    ensures uses { IfSome result
        (λ before. All (IsNodeOf before.names.now) (body_uses before.body.now.value)) }
    ensures shape { IfSome old.entry (λ store. (shapes : Shapes) → IsStoreOf shapes store.now
        → MatchOption result (shapes (title_at names.now node) ≡ [])
        (λ before. HoldsShape before.names.now (shapes (title_at names.now node))
        before.body.now.value)) }
{
    let old = old?;
    let found = if same_names {
        node
    } else {
        node_before(old.names(), names, node)?
    };
    Some(OldBody {
        names: old.names(),
        body: old.body(found),
        same_names,
    })
}

/// The body of a node, and whether the node has another shape than before.
#[derive(Drop)]
struct BodyAfter {
    body: Rc<NodeBody>,
    has_new_shape: bool,
}

/// A body with the items that were made.
fn new_body(alloc: Global, builder: &BodyBuilder) -> Result<Rc<NodeBody>, NoMemory>
    ensures { IfOk result (λ body. body_items body.value ≡ builder.now) }
{
    Ok(Rc::new(alloc, builder.body(alloc)?)?)
}

/// A body with the items of this one and the uses that were made: this one, if it has these uses.
fn kept_body(
    alloc: Global,
    builder: &BodyBuilder,
    body: &Rc<NodeBody>,
    has_same_uses: bool,
) -> Result<Rc<NodeBody>, NoMemory>
    requires { has_same_uses ≡ true → builder.now.uses ≡ body_uses body.now.value }
    ensures { IfOk result (λ kept. body_items kept.value
        ≡ items_read body.now.value.items.value builder.now.uses) }
{
    if has_same_uses {
        return Ok(body.clone()?);
    }
    let stored: &NodeBody = body;
    Ok(Rc::new(alloc, builder.body_of(alloc, stored.items.clone()?)?)?)
}

/// The body of the node. It shares the old body's items if the node has its old shape.
fn body_after(
    alloc: Global,
    builder: &mut BodyBuilder,
    grouped: GroupedWeb,
    node: Node,
    old: Option<&Store>,
    same_names: bool,
) -> Result<BodyAfter, NoMemory>
    requires grouped { IsGrouped grouped }
    requires node { IsNodeOf grouped.names.now node }
    requires same_names { same_names ≡ true
        → IfSome old (λ store. store.now.names ≡ grouped.names.now) }
    ensures body { IfOk result
        (λ made. IsBodyOf (shapes grouped.entry.web.now grouped.entry.table.now)
        grouped.entry.names.now node made.body.value) }
    ensures new_shape { IfOk result (λ made. IfSome old.entry
        (λ store. IsNewBody store.now grouped.entry.names.now node made.has_new_shape
        made.body.value)) }
{
    let GroupedWeb {
        web,
        table,
        names,
        pieces,
    } = grouped;
    let row = pieces.row(node.number());
    builder.make(web, table, row)?;
    let Some(before) = body_before(old, names, same_names, node) else {
        let body = new_body(alloc, builder)?;
        let has_new_shape = !row.is_empty();
        return Ok(BodyAfter {
            body,
            has_new_shape,
        });
    };
    let has_same_uses = builder.has_uses_of(before.body);
    let same_uses = before.same_names && has_same_uses;
    let has_new_shape = !builder.has_shape_of(names, before.body, before.names, same_uses);
    let body = if has_new_shape {
        new_body(alloc, builder)?
    } else {
        kept_body(alloc, builder, before.body, has_same_uses)?
    };
    Ok(BodyAfter {
        body,
        has_new_shape,
    })
}

/// The body of each node, and a flag for each node: whether its shape is new.
#[derive(Drop)]
pub(crate) struct Bodies {
    pub(crate) bodies: Vec<Rc<NodeBody>>,
    pub(crate) new_shapes: Vec<bool>,
}

/// The body of each node of the web. An old body is shared if the node has its old shape and uses
/// the same numbers.
pub(crate) fn bodies_by_node(
    alloc: Global,
    grouped: GroupedWeb,
    old: Option<&Store>,
    same_names: bool,
) -> Result<Bodies, NoMemory>
    requires grouped { IsGrouped grouped }
    requires same_names { same_names ≡ true
        → IfSome old (λ store. store.now.names ≡ grouped.names.now) }
    ensures bodies { IfOk result
        (λ made. AreBodiesOf (shapes grouped.entry.web.now grouped.entry.table.now)
        grouped.entry.names.now (node_bodies made.bodies.items)) }
    ensures new_shapes { IfOk result (λ made. IfSome old.entry
        (λ store. AreNewBodies store.now grouped.entry.names.now (node_bodies made.bodies.items)
        made.new_shapes.items)) }
{
    let count = grouped.pieces.len();
    let mut builder = BodyBuilder::new(alloc);
    let mut bodies = Vec::with_capacity(alloc, count)?;
    let mut new_shapes = Vec::with_capacity(alloc, count)?;
    for n in 0..count {
        let made = body_after(alloc, &mut builder, grouped, Node::new(n), old, same_names)?;
        new_shapes.push(made.has_new_shape)?;
        bodies.push(made.body)?;
    }
    Ok(Bodies { bodies, new_shapes })
}
