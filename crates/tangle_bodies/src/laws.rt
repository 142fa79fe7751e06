//! Laws of names and of shapes.
ghost use Rattle.std.specs.Prelude.{◌≡◌};
ghost use Rattle.tangle_scan.specs.Web.{WebRead};
ghost use Rattle.tangle_names.specs.NameTable.{table_of};
ghost use Rattle.tangle_bodies.specs.Tags.{shape_tags, shape_bytes};
ghost use Rattle.tangle_bodies.specs.Shapes.{shape_titles};
ghost use Rattle.tangle_bodies.specs.Shapes.{Shape};
ghost use Rattle.tangle_bodies.specs.WebShapes.{ResolvesInside};

/// Each occurrence of a web that resolves to a name resolves to one in the web's table.
#[tactic(auto, using(crate::proofs::InsideLemmas::table_inside))]
pub fn names_resolve_inside()
    ensures { (web : WebRead) → ResolvesInside (table_of web) }
{}

/// Two shapes are equal if the tags of their items, their bytes and the titles of their uses are.
#[tactic(auto, using(crate::proofs::TagLemmas::same_by_tags))]
pub fn tags_settle_the_shape()
    ensures { (s t : Shape) → shape_tags s ≡ shape_tags t → shape_bytes s ≡ shape_bytes t
        → shape_titles s ≡ shape_titles t → s ≡ t }
{}
