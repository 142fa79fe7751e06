//! The section numbers and origins of a web, the uses of its nodes, and the bytes of its macros.
ghost use Rattle.std.specs.Prelude.{◌≡◌, [], IfOk, get_or, All};
ghost use Rattle.tangle_names.specs.NameTable.{table_of};
ghost use Rattle.tangle_bodies.specs.NodeBodies.{AreBodiesOf, node_bodies};
ghost use Rattle.tangle_bodies.specs.Nodes.{IsGroupedBy, IsNodeOf, title_at, titles_at};
ghost use Rattle.tangle_bodies.specs.WebShapes.{shapes};
ghost use Rattle.tangle_expansion.specs.Numbers.{mark_end, node_numbers, numbers_of, titles_used};
ghost use Rattle.tangle_expansion.specs.SymbolLimits.{SymbolsAreShort};

use crate::mark_ends::mark_ends;
use crate::node_numbers::NodeNumbers;
use crate::piece_numbers::PieceNumbers;
use digraph::{Node, Rows};
use std::alloc::Global;
use std::marker::Model;
use std::rc::Rc;
use tangle_bodies::NodeBody;
use tangle_lines::{MarkMode, NoMemory, Origin};
use tangle_names::Names;
use tangle_scan::Web;

/// What the outputs of a web need besides the items in its expansions: section numbers, origins of
/// marks, the nodes that each node uses, and the bytes of the macros.
#[derive(Drop)]
pub struct Numbers {
    mark_ends: Vec<Vec<u8>>,
    names: Names,
    // For each node the positions of its pieces in the web.
    rows: Rc<Rows<usize>>,
    pieces: PieceNumbers,
    bodies: Rc<Vec<Rc<NodeBody>>>,
    macros: Vec<u8>,
    marks: MarkMode,
}

impl Model for Numbers {
    ghost use Rattle.tangle_expansion.specs.Numbers.{NumbersRead};
    ghost use Rattle.tangle_expansion.specs.NumbersKept.{NumbersInvariant, numbers_read};

    ghost Value = { NumbersRead };

    ghost view = { numbers_read };

    ghost invariant = { λ n. NumbersInvariant n };
}

impl Numbers {
    /// Reads from a web what its outputs need besides the items in its expansions, and shares its
    /// names, bodies and rows. Line marks are written as `marks` says. The names and the bodies must
    /// be those of the web; `pieces` has a row for each node, with the positions of its pieces.
    ///
    /// # Errors
    ///
    /// `NoMemory` where an allocation failed.
    pub fn build(
        alloc: Global,
        web: &Web,
        names: &Names,
        pieces: &Rc<Rows<usize>>,
        bodies: &Rc<Vec<Rc<NodeBody>>>,
        marks: MarkMode,
    ) -> Result<Numbers, NoMemory>
        requires names { names.now ≡ (table_of web.now).names }
        requires pieces { IsGroupedBy web.now (table_of web.now) pieces.now.value }
        requires bodies { AreBodiesOf (shapes web.now (table_of web.now)) names.now
            (node_bodies bodies.now.value.items) }
        ensures { IfOk result (λ numbers. numbers ≡ numbers_of web.now (table_of web.now) marks) }
    {
        Ok(Numbers {
            mark_ends: mark_ends(alloc, web)?,
            names: names.share()?,
            rows: pieces.clone()?,
            pieces: PieceNumbers::read(alloc, web)?,
            bodies: bodies.clone()?,
            macros: Vec::from_slice(alloc, web.macro_bytes())?,
            marks,
        })
    }

    /// The numbers of the pieces of the node.
    pub(crate) fn of_node(&self, node: Node) -> NodeNumbers<'_>
        requires { IsNodeOf self.now.names node }
        ensures numbers { result ≡ node_numbers self.now (title_at self.now.names node) }
        ensures short { SymbolsAreShort self.now }
    {
        NodeNumbers::at(&self.pieces, &self.rows, node)
    }

    /// The nodes that the node uses: one for each use that resolves to a name.
    pub(crate) fn uses(&self, node: Node) -> &[Node]
        requires { IsNodeOf self.now.names node }
        ensures titles { titles_at self.now.names result.now
            ≡ titles_used self.now (title_at self.now.names node) }
        ensures inside { All (IsNodeOf self.now.names) result.now }
    {
        let bodies: &Vec<Rc<NodeBody>> = &self.bodies;
        bodies[node.number()].uses()
    }

    /// What comes after the number in the line marks of the file at this origin.
    pub(crate) fn mark_end(&self, origin: Origin) -> &[u8]
        ensures { result.now ≡ get_or self.now.mark_ends origin.file (mark_end []) }
    {
        match self.mark_ends.get(origin.file as usize) {
            Some(ending) => ending.as_slice(),
            None => b" \"\"\n",
        }
    }

    pub(crate) fn marks(&self) -> MarkMode
        ensures { result ≡ self.now.marks }
    {
        self.marks
    }

    /// The bytes of the macros.
    pub(crate) fn macros(&self) -> &[u8]
        ensures macros { result.now ≡ self.now.macros }
        ensures short { SymbolsAreShort self.now }
    {
        self.macros.as_slice()
    }
}
