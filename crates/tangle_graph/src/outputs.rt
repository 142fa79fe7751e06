//! The output files.
ghost use Rattle.std.specs.Prelude.{◌≡◌, [], ◌∷◌, ◌++◌, IfOk, OnOk, length, All};
ghost use Rattle.std.specs.Prelude.{if◌then◌else◌, not, ◌&&◌, ◌||◌, ◌<◌, ◌+◌};
ghost use Rattle.std.specs.Prelude.{true, false};
ghost use Rattle.digraph.specs.Nodes.{program};
ghost use Rattle.tangle_bodies.specs.WebShapes.{ResolvesInside, shapes};
ghost use Rattle.tangle_graph.specs.Grouping.{has_number_in};
ghost use Rattle.tangle_graph.specs.Measures.{AreMeasures};
ghost use Rattle.tangle_graph.specs.Outputs.{first_file_name, first_file_occurrence};
ghost use Rattle.tangle_graph.specs.Outputs.{file_names, outputs};

use crate::measures::{Measure, NO_PIECE};
use crate::named_files::NamedFiles;
use crate::nodes::entry;
use digraph::Node;
use std::alloc::{AllocError, Global};
use tangle_expansion::Output;
use tangle_lines::NoMemory;
use tangle_names::{NameTable, Resolved};
use tangle_scan::Web;

/// Whether the name has its first occurrence that begins with `@(` here.
fn is_first_file(table: &NameTable, id: usize, occurrence: usize) -> bool
    requires { id < length table.now.names }
    ensures { result ≡ has_number_in occurrence (first_file_occurrence table.now id) }
{
    match table.first_file_occurrence(id) {
        Some(first) => first == occurrence,
        None => false,
    }
}

/// Adds the name that has its first occurrence that begins with `@(` here, if one has.
fn add_first_file(
    table: &NameTable,
    occurrence: usize,
    names: &mut Vec<usize>,
) -> Result<(), AllocError>
    requires inside { ResolvesInside table.now }
    requires occurrence { occurrence < length table.now.resolved }
    ensures { OnOk result (names.new.items
        ≡ names.old.items ++ first_file_name table.now occurrence) }
{
    if let Resolved::Name(id) = table.resolve(occurrence) {
        if is_first_file(table, id, occurrence) {
            names.push(id)?;
        }
    }
    Ok(())
}

/// The names with an occurrence that begins with `@(`, in the order of their first such
/// occurrences.
pub(crate) fn file_names(
    alloc: Global,
    web: &Web,
    table: &NameTable,
) -> Result<Vec<usize>, AllocError>
    requires inside { ResolvesInside table.now }
    requires ours { length table.now.resolved ≡ length web.now.occurrences }
    ensures names { IfOk result (λ names. names.items ≡ file_names web.now table.now) }
    ensures inside { IfOk result (λ names. All (λ id. id < length table.now.names) names.items) }
{
    let mut names = Vec::new(alloc);
    for occurrence in 0..web.occurrences().len() {
        add_first_file(table, occurrence, &mut names)?;
    }
    Ok(names)
}

/// The output files of a web, the main file first.
pub(crate) fn outputs(
    alloc: Global,
    web: &Web,
    table: &NameTable,
    out: &[u8],
    measures: &[Measure],
) -> Result<Vec<Output>, NoMemory>
    requires inside { ResolvesInside table.now }
    requires ours { length table.now.resolved ≡ length web.now.occurrences }
    requires size { length measures.now ≡ length table.now.names + 1 }
    requires measures { AreMeasures (shapes web.now table.now) table.now.names measures.now }
    ensures { IfOk result (λ files. files.items ≡ outputs web.now table.now out.now) }
{
    let names = file_names(alloc, web, table)?;
    let named = NamedFiles::find(alloc, table, out, measures)?;
    let program = Node::program();
    let main = entry(measures, program, NO_PIECE);
    let has_piece = main.depth > 0;
    let is_written = !has_piece || main.is_expandable;
    let mut files = Vec::new(alloc);
    if is_written {
        let name = Vec::from_slice(alloc, out)?;
        files.push(Output::new(name, program, !web.has_all_macros(), has_piece))?;
    }
    for id in &names {
        let node = Node::name(*id);
        let measure = entry(measures, node, NO_PIECE);
        let is_other = named.has_other_name(*id);
        let is_written = measure.is_expandable && !is_other;
        if is_written {
            let name = Vec::from_slice(alloc, table.text(*id))?;
            files.push(Output::new(name, node, false, true))?;
        }
    }
    Ok(files)
}
