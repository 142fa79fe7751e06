//! Laws of the definitions of cycles and of affected nodes.
ghost use Rattle.std.specs.Prelude.{◌≡◌, [], List};
ghost use Rattle.std.specs.Bool.{Decides};
ghost use Rattle.digraph.specs.Nodes.{Node};
ghost use Rattle.digraph.specs.Reach.{ContainsItself, ReachesCycle};
ghost use Rattle.tangle_scan.specs.Web.{WebRead};
ghost use Rattle.tangle_names.specs.NameTable.{table_of};
ghost use Rattle.tangle_bodies.specs.Shapes.{Title, Shapes, Uses};
ghost use Rattle.tangle_bodies.specs.WebShapes.{shapes};
ghost use Rattle.tangle_graph.specs.Affected.{ListsAffected};
ghost use Rattle.tangle_graph.specs.Cycles.{contains_itself, reaches_cycle};
ghost use Rattle.tangle_graph.specs.Stores.{StoreRead};

/// A node of a web contains itself, or reaches a name that does, exactly where the functions say so
/// from which the faults are made.
pub fn cycles_are_computed()
    ensures contains_itself { (web : WebRead) (title : Title)
        → let all = shapes web (table_of web) in
        Decides (contains_itself all (table_of web).names title) (ContainsItself (Uses all) title) }
    ensures reaches_cycle { (web : WebRead) (title : Title)
        → let all = shapes web (table_of web) in
        Decides (reaches_cycle all (table_of web).names title) (ReachesCycle (Uses all) title) }
{}

/// An edit that leaves every shape unchanged affects no node: for example one that shifts lines or
/// section numbers, or changes only macros.
pub fn alike_shapes_affect_nothing()
    ensures { (old new : Shapes) (store : StoreRead) (nodes : List Node)
        → ((title : Title) → new title ≡ old title) → ListsAffected old new store nodes
        → nodes ≡ [] }
{}
