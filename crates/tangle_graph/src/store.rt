//! The store of a web's graph of names.
ghost use Rattle.std.specs.Prelude.{◌≡◌, ◌++◌, ◌∷◌, [], IfOk, OnOk, OnErr};
ghost use Rattle.std.specs.Prelude.{All, true, ◌<◌, length, map, IfSome, Some};
ghost use Rattle.tangle_names.specs.NameTable.{table_of};
ghost use Rattle.tangle_bodies.specs.NodeBodies.{body_uses, node_bodies};
ghost use Rattle.tangle_bodies.specs.Nodes.{IsGroupedBy};
ghost use Rattle.tangle_bodies.specs.Shapes.{Shapes};
ghost use Rattle.tangle_bodies.specs.WebShapes.{shapes};
ghost use Rattle.tangle_expansion.specs.Numbers.{numbers_of};
ghost use Rattle.tangle_graph.specs.Faults.{graph_faults};
ghost use Rattle.tangle_graph.specs.NameGraphs.{IsNameGraphOf};
ghost use Rattle.tangle_graph.specs.Ordering.{IsOrderIn};
ghost use Rattle.tangle_graph.specs.Stores.{AreNewShapes, IsNodeIn, IsStoreOf, KeepsUsed};
ghost use Rattle.tangle_graph.specs.Keeping.{IsRight};
ghost use Rattle.tangle_graph.specs.Stores.{body_at, expanded_at, reaches_cycle_at};
ghost use Rattle.tangle_graph.specs.Stores.{contains_itself_at, is_expandable_at};
ghost use Rattle.tangle_graph.specs.Stores.{weight_at, depth_at, uses_at, users_at, has_piece_at};
ghost use Rattle.tangle_graph.specs.WebStores.{IsStoreOfWeb};

use crate::bodies::{GroupedWeb, bodies_by_node};
use crate::faults::FaultSearch;
use crate::measures::{Measure, NO_PIECE, measures_of_nodes};
use crate::name_graph::{NameGraph, are_same_names, have_same_uses};
use crate::named_files::NamedFiles;
use crate::nodes::entry;
use crate::outputs::outputs;
use crate::pieces::pieces_by_node;
use digraph::{Node, Rows};
use std::alloc::Global;
use std::marker::Model;
use std::rc::Rc;
use tangle_bodies::NodeBody;
use tangle_expansion::{Expansion, Kept, Numbers, Output, Work, expand};
use tangle_lines::{Fault, MarkMode, NoMemory};
use tangle_names::{Counted, NameTable, Names};
use tangle_scan::Web;

/// For each node of a web: its pieces, the names that it uses and the nodes that use it, its weight
/// and depth, whether it contains itself and whether it is expandable. Also the output files.
///
/// A node is a full name or the unnamed program. It uses a name if one of its pieces has a use that
/// resolves to the name. A node that is none of a store's counts as one without a piece.
#[derive(Drop)]
pub struct Store {
    name_graph: Rc<NameGraph>,
    pieces: Rc<Rows<usize>>,
    measures: Vec<Measure>,
    outputs: Vec<Output>,
    bodies: Rc<Vec<Rc<NodeBody>>>,
}

impl Model for Store {
    ghost use Rattle.tangle_graph.specs.StoreView.{StoreInvariant, store_read};
    ghost use Rattle.tangle_graph.specs.Stores.{StoreRead};

    ghost Value = { StoreRead };

    ghost view = { store_read };

    ghost invariant = { λ s. StoreInvariant s };
}

/// A store, with a flag for each of its nodes: whether the shape of the node is new.
#[derive(Drop)]
pub struct Built {
    pub store: Store,
    pub new_shapes: Vec<bool>,
}

impl Store {
    /// The store of a web with its table of names, for a main file of this name. A weight or depth
    /// beyond its limit is stored as one more than the limit. No node is expanded.
    ///
    /// What did not change is shared with the store of an older web, if there is one. Nodes of the
    /// two stores are matched by name, and the program with the program. A node that the old store
    /// does not have has a new shape if it has a piece.
    ///
    /// # Errors
    ///
    /// `NoMemory` where an allocation failed. The old store does not change.
    pub fn build(
        alloc: Global,
        web: &Web,
        table: &NameTable,
        out: &[u8],
        old: Option<&Store>,
    ) -> Result<Built, NoMemory>
        requires { table.now ≡ table_of web.now }
        ensures store { IfOk result (λ made. IsStoreOfWeb web.now table.now out.now made.store) }
        ensures new_shapes { IfOk result (λ made. IfSome old.entry
            (λ before. AreNewShapes before.now made.store made.new_shapes.items)) }
    {
        let pieces = Rc::new(alloc, pieces_by_node(alloc, web, table)?)?;
        let names = table.names()?;
        let rows: &Rows<usize> = &pieces;
        let grouped = GroupedWeb {
            web,
            table,
            names: &names,
            pieces: rows,
        };
        let same_names = has_names(old, &names);
        let made = bodies_by_node(alloc, grouped, old, same_names)?;
        let new_shapes = made.new_shapes;
        let bodies = made.bodies;
        let name_graph = name_graph_after(alloc, names, same_names, &bodies, old)?;
        let shared: &NameGraph = &name_graph;
        // Measures are made anew, in one short pass.
        let measures = measures_of_nodes(alloc, &shared.uses, &shared.order.nodes, &bodies)?;
        let bodies = Rc::new(alloc, bodies)?;
        let outputs = outputs(alloc, web, table, out, &measures)?;
        let store = Store {
            name_graph,
            pieces,
            measures,
            outputs,
            bodies,
        };
        Ok(Built { store, new_shapes })
    }

    /// The body of the node.
    pub(crate) fn body(&self, node: Node) -> &Rc<NodeBody>
        requires { IsNodeIn self.now node }
        ensures body { body_at self.now node ≡ Some result.now.value }
        ensures uses { All (IsNodeIn self.now) (body_uses result.now.value) }
    {
        let bodies: &Vec<Rc<NodeBody>> = &self.bodies;
        &bodies[node.number()]
    }

    /// What the outputs of the store's web need besides the items in its expansions. Line marks are
    /// written as `marks` says.
    ///
    /// # Errors
    ///
    /// `NoMemory` where an allocation failed.
    pub fn numbers(&self, alloc: Global, web: &Web, marks: MarkMode) -> Result<Numbers, NoMemory>
        requires store { IsStoreOf (shapes web.now (table_of web.now)) self.now }
        requires names { self.now.names ≡ (table_of web.now).names }
        requires pieces { IsGroupedBy web.now (table_of web.now) self.now.pieces }
        ensures { IfOk result (λ numbers. numbers ≡ numbers_of web.now (table_of web.now) marks) }
    {
        Numbers::build(alloc, web, self.names(), &self.pieces, &self.bodies, marks)
    }

    /// The full names of the web, by number.
    pub fn names(&self) -> &Names
        ensures { result.now ≡ self.now.names }
    {
        &self.name_graph.names
    }

    /// Whether the node has a piece.
    pub fn has_piece(&self, node: Node) -> bool
        ensures { result ≡ has_piece_at self.now node }
    {
        self.depth(node) > 0
    }

    /// Whether the node contains itself: it reaches itself by one use or more.
    pub fn self_containing(&self, node: Node) -> bool
        ensures { result ≡ contains_itself_at self.now node }
    {
        entry(&self.name_graph.self_containing, node, false)
    }

    /// Whether the node reaches a name that contains itself.
    pub(crate) fn reaches_cycle(&self, node: Node) -> bool
        ensures { result ≡ reaches_cycle_at self.now node }
    {
        !entry(&self.name_graph.order.acyclic, node, false)
    }

    /// Whether the node is expandable: it has a piece, reaches no name that contains itself, weighs
    /// at most 16,777,216 and is at most 1,000 deep.
    pub fn expandable(&self, node: Node) -> bool
        ensures { result ≡ is_expandable_at self.now node }
    {
        entry(&self.measures, node, NO_PIECE).is_expandable
    }

    /// The weight of the node: each byte of an item counts 1, and so do an opening, a closing, a
    /// line mark, a use and the macros; a use also counts the weight of its name. A node that
    /// weighs more than 16,777,216, or reaches a name that contains itself, has the weight
    /// 16,777,217.
    pub fn weight(&self, node: Node) -> u32
        ensures { result ≡ weight_at self.now node }
    {
        entry(&self.measures, node, NO_PIECE).weight
    }

    /// The depth of the node: 0 without a piece, else one more than the greatest depth among the
    /// names that it uses. A node that is deeper than 1,000, or reaches a name that contains
    /// itself, has the depth 1,001.
    pub fn depth(&self, node: Node) -> u16
        ensures { result ≡ depth_at self.now node }
    {
        entry(&self.measures, node, NO_PIECE).depth
    }

    /// The nodes that the node uses, each once.
    pub fn uses(&self, node: Node) -> &[Node]
        ensures { result.now ≡ uses_at self.now node }
    {
        self.name_graph.uses.row(node.number())
    }

    /// The nodes that use this one, each once.
    pub fn users(&self, node: Node) -> &[Node]
        ensures { result.now ≡ users_at self.now node }
    {
        self.name_graph.users.row(node.number())
    }

    /// The output files: the main file first, if the program has no piece or is expandable, and
    /// then each other file name with a piece that is expandable, in the order of their first
    /// occurrences that begin with `@(`. Of the names of one file, compared by their plain forms,
    /// only the first has an output, in the order of the names.
    pub fn outputs(&self) -> &[Output]
        ensures { result.now ≡ self.now.outputs }
    {
        self.outputs.as_slice()
    }

    /// The faults of the graph of the store's web: names that are used and have no piece, names that
    /// are never used, names that contain themselves, nodes that are too large, names with `@(` that
    /// are the main file's, and those that are an earlier file's. Each kind is in the order of the
    /// names, with the program last. The last fault is that the program has no piece. Uses in
    /// dropped pieces count, and so do uses by abbreviations.
    ///
    /// # Errors
    ///
    /// `NoMemory` where an allocation failed.
    pub fn faults(
        &self,
        alloc: Global,
        web: &Web,
        table: &NameTable,
        out: &[u8],
    ) -> Result<Vec<Fault>, NoMemory>
        requires table { table.now ≡ table_of web.now }
        requires store { IsStoreOfWeb web.now table.now out.now self.now }
        ensures { IfOk result (λ faults. faults.items ≡ graph_faults web.now table.now out.now) }
    {
        let search = FaultSearch {
            web,
            table,
            out,
            store: self,
            first_uses: table.first_numbers(alloc, web.occurrences(), Counted::Uses)?,
            named_files: NamedFiles::find(alloc, table, out, &self.measures)?,
        };
        search.faults(alloc)
    }

    /// Nodes of the store, each once and after the nodes that it uses. Each expandable node is
    /// among them.
    pub fn order(&self) -> &[Node]
        ensures { IsOrderIn self.now result.now }
    {
        self.name_graph.order.nodes.as_slice()
    }

    /// Expands a node: the expansion has the items of the node's body, with the kept expansion of
    /// each used node, if there is one. The node is added to the end of the work's list.
    ///
    /// # Errors
    ///
    /// `NoMemory` where an allocation failed; the work does not change then.
    pub fn expand(
        &self,
        alloc: Global,
        node: Node,
        kept: &Kept,
        work: &mut Work,
    ) -> Result<Expansion, NoMemory>
        requires expandable { is_expandable_at self.now node ≡ true }
        ensures expanded { IfOk result (λ e. expanded_at self.now kept.now node ≡ Some e) }
        ensures right { (shapes : Shapes) → IsStoreOf shapes self.now
            → KeepsUsed shapes self.now kept.now node
            → IfOk result (IsRight shapes self.now node) }
        ensures listed { OnOk result (work.new ≡ work.old ++ node ∷ []) }
        ensures err { OnErr result (work.new ≡ work.old) }
    {
        let bodies: &Vec<Rc<NodeBody>> = &self.bodies;
        expand(alloc, node, &bodies[node.number()], kept, work)
    }
}

/// Whether there is an old store, and it has these names.
fn has_names(old: Option<&Store>, names: &Names) -> bool
    ensures { result ≡ true → IfSome old.entry (λ store. store.now.names ≡ names.now) }
{
    match old {
        Some(store) => are_same_names(store.names(), names),
        None => false,
    }
}

/// The graph of these names and bodies: that of the old store, if it is the same.
fn name_graph_after(
    alloc: Global,
    names: Names,
    same_names: bool,
    bodies: &[Rc<NodeBody>],
    old: Option<&Store>,
) -> Result<Rc<NameGraph>, NoMemory>
    requires same_names { same_names ≡ true → IfSome old (λ store. store.now.names ≡ names) }
    requires inside { All (All (λ node. node < length bodies.now))
        (map body_uses (node_bodies bodies.now)) }
    ensures names { IfOk result (λ name_graph. name_graph.value.names ≡ names) }
    ensures name_graph { IfOk result
        (λ name_graph. IsNameGraphOf (map body_uses (node_bodies bodies.now))
        name_graph.value) }
{
    match old {
        Some(store) if same_names && have_same_uses(&store.bodies, bodies) => {
            Ok(store.name_graph.clone()?)
        }
        _ => NameGraph::shared(alloc, names, bodies),
    }
}
