//! Laws of the definitions of expansions and of their bytes.
ghost use Rattle.std.specs.Prelude.{◌*◌, List, [], ◌≡◌, ◌≢◌};
ghost use Rattle.std.specs.Prelude.{◌<◌, ◌≤◌, ℕ, Bool, min, length, map, flat_map, Contains, Option};
ghost use Rattle.tangle_lines.specs.declared.origin.Origin.{Origin};
ghost use Rattle.tangle_lines.specs.Reading.{SourceRead};
ghost use Rattle.tangle_scan.specs.Web.{WebRead, web_of};
ghost use Rattle.tangle_scan.specs.LineTruth.{PiecesAreAtTheirLines};
ghost use Rattle.tangle_names.specs.NameTable.{TableRead, table_of};
ghost use Rattle.tangle_files.specs.declared.marks.MarkMode.{MarkMode};
ghost use Rattle.tangle_files.specs.declared.marks.MarkMode.TheVariants.{Full};
ghost use Rattle.digraph.specs.Nodes.{Node};
ghost use Rattle.digraph.specs.Reach.{ReachesCycle};
ghost use Rattle.tangle_bodies.specs.Nodes.{title_at};
ghost use Rattle.tangle_bodies.specs.Shapes.{Title, Named, Shapes, Uses};
ghost use Rattle.tangle_bodies.specs.NodeBodies.{HoldsShape, body_uses};
ghost use Rattle.tangle_bodies.specs.declared.nodes.NodeBody.{NodeBody};
ghost use Rattle.tangle_bodies.specs.Flat.{Symbol, flat, weight, depth, pieces_flat};
ghost use Rattle.tangle_bodies.specs.Flat.{pieces_weight, pieces_depth};
ghost use Rattle.tangle_expansion.specs.Affected.{IsExpandable, IsAffected};
ghost use Rattle.tangle_expansion.specs.Expanded.{Expanded, expanded, symbols_if_any};
ghost use Rattle.tangle_expansion.specs.Expanded.{symbols_of, used_titles};
ghost use Rattle.tangle_bodies.specs.WebShapes.{shapes, pieces_of, ResolvesInside};
ghost use Rattle.tangle_expansion.specs.Numbers.{NumbersRead, numbers_of, symbol_bytes};
ghost use Rattle.tangle_expansion.specs.Numbers.{expansion_bytes};
ghost use Rattle.std.specs.List.{AllByRecursion};
ghost use Rattle.tangle_expansion.specs.PieceBytes.{piece_bytes, AreWrittenAsMeant};
ghost use Rattle.tangle_expansion.specs.Location.{AreAtTheirOrigins, classes};

/// If the source items of each piece are at their lines, which `tangle_scan::scan` promises, then in
/// a whole output, written with marks in full, the counted origin at each byte of a word, a sign, a
/// quoted or verbatim text or an ASCII constant that is read, outside of stretches, is that of the
/// byte's source line, whichever groups of lines a compiler leaves out. Of all other bytes nothing
/// is said: those of macros, blanks, line ends, marks and the comments around a piece.
pub fn bytes_are_at_their_origins()
    ensures { (source : SourceRead) (web : WebRead) (fuel : ℕ) (title : Title)
        (read : Bool) (origin : Option Origin)
        → PiecesAreAtTheirLines source web
        → AreAtTheirOrigins (numbers_of web (table_of web) Full) read origin
        (flat fuel (shapes web (table_of web)) title) (classes fuel source web title) }
{}

/// A node that is expandable after an edit, and not affected by it, was expandable before, with the
/// same symbols; and an expansion gives it the same symbols as before. This holds whatever the edit
/// redefines, resolves otherwise or renumbers, and whatever cycles it makes or removes.
#[tactic(auto, using(crate::proofs::Unaffected::stays, crate::proofs::Unaffected::stays_given))]
pub fn unaffected_nodes_stay()
    ensures stays { (levels limit : ℕ) (old new : Shapes) (title : Title)
        → IsExpandable levels limit new title → ¬ (IsAffected levels limit old new title)
        → IsExpandable levels limit old title × (flat levels new title ≡ flat levels old title) }
    ensures given { (levels limit : ℕ) (old new : Shapes) (title : Title) (e : Expanded)
        → IsExpandable levels limit new title → ¬ (IsAffected levels limit old new title)
        → symbols_of (used_titles new) title e ≡ symbols_of (used_titles old) title e }
{}

/// An expandable node reaches no name that contains itself. So a caller that expands only
/// expandable nodes needs no search for cycles. With any fuel, the depth and the weight of a node
/// that reaches such a name are at least the fuel: the limit of depth alone excludes the node.
pub fn expandable_nodes_reach_no_cycle()
    ensures none { (levels limit : ℕ) (shapes : Shapes) (title : Title)
        → IsExpandable levels limit shapes title → ¬ (ReachesCycle (Uses shapes) title) }
    ensures fuel { (fuel : ℕ) (shapes : Shapes) (title : Title) → ReachesCycle (Uses shapes) title
        → (fuel ≤ depth fuel shapes title) × (fuel ≤ weight fuel shapes title) }
{}

/// The expansion of a node, its capped weight and its capped depth follow from those of the names
/// that the node uses.
#[tactic(auto, using(crate::proofs::SameShapes::flat_by_uses, crate::proofs::SameShapes::weight_by_uses, crate::proofs::SameShapes::depth_by_uses))]
pub fn nodes_expand_by_uses()
    ensures symbols { (levels : ℕ) (shapes : Shapes) (title : Title)
        → depth levels shapes title < levels
        → flat levels shapes title ≡ pieces_flat (λ name. flat levels shapes (Named name)) title 0
        (shapes title) }
    ensures weights { (cap : ℕ) (shapes : Shapes) (title : Title)
        → min cap (weight cap shapes title) ≡ min cap
        (pieces_weight (λ name. min cap (weight cap shapes (Named name))) (shapes title)) }
    ensures depths { (levels : ℕ) (shapes : Shapes) (title : Title)
        → depth levels shapes title ≡ min levels
        (pieces_depth (λ name. depth levels shapes (Named name)) (shapes title)) }
{}

/// A name with a piece that an expandable node uses is expandable too. So the expansion of the node
/// is made from those of expandable names.
pub fn used_names_are_expandable()
    ensures { (levels limit : ℕ) (shapes : Shapes) (title : Title) (name : List ℕ)
        → IsExpandable levels limit shapes title → Uses shapes title (Named name)
        → shapes (Named name) ≢ [] → IsExpandable levels limit shapes (Named name) }
{}

/// A body that determines the shape of a node gives the expansion of the node, if what is shared
/// for each use gives that of the used node.
pub fn bodies_give_expansions()
    ensures { (names : List (List ℕ)) (shapes : Shapes) (levels : ℕ) (title : Title)
        (body : NodeBody) (shared : Node → Option Expanded)
        → HoldsShape names (shapes title) body → depth levels shapes title < levels
        → ((used : Node) → Contains (body_uses body) used
        → symbols_if_any (used_titles shapes) (title_at names used) (shared used)
        ≡ flat levels shapes (title_at names used))
        → symbols_of (used_titles shapes) title
        (expanded body.items.value (map shared (body_uses body))) ≡ flat levels shapes title }
{}

/// If at most `most` bytes are written for each symbol of a node, at most `most` times the limit of
/// its weight are written for the node.
pub fn outputs_are_short()
    ensures { (numbers : NumbersRead) (shapes : Shapes) (title : Title) (fuel limit most : ℕ)
        → weight fuel shapes title ≤ limit → AllByRecursion
        (λ symbol. length (symbol_bytes numbers symbol) ≤ most) (flat fuel shapes title)
        → length (expansion_bytes numbers (flat fuel shapes title)) ≤ limit * most }
{}

/// The bytes of a node are those of its pieces, one after another: for each piece its opening, its
/// mark, its items and its closing. An item that is a use gives the bytes of the used name's
/// expansion. By `nodes_expand_by_uses` these are also the bytes of an expandable node's expansion.
pub fn nodes_are_written_by_pieces()
    ensures pieces { (web : WebRead) (table : TableRead) (marks : MarkMode)
        (used : List ℕ → List Symbol) (title : Title)
        → ResolvesInside table
        → expansion_bytes (numbers_of web table marks)
        (pieces_flat used title 0 (shapes web table title))
        ≡ flat_map (piece_bytes (numbers_of web table marks) table used web.texts)
        (pieces_of web table title) }
{}

/// In what is written, a C compiler reads the items of each macro and of each piece as the author
/// means them: together what stands together in the web, and apart what the web keeps apart. This
/// holds whatever the used names expand to, and however line marks are written.
pub fn items_are_written_as_meant()
    ensures { (source : SourceRead) (marks : MarkMode) (used : List ℕ → List Symbol)
        → AreWrittenAsMeant source (web_of source) (table_of (web_of source)) used
        (numbers_of (web_of source) (table_of (web_of source)) marks) }
{}
