//! All layers of a web, from its files to its output files.
ghost use Rattle.std.specs.Prelude.{◌≡◌, true};
ghost use Rattle.tangle_files.specs.Roles.{fits};
ghost use Rattle.tangle_names.specs.NameTable.{table_of};

use crate::faults::list_faults;
use crate::graph::list_nodes;
use crate::listing::Listing;
use crate::names::list_names;
use crate::output_files::list_outputs;
use crate::section_names::list_occurrences;
use crate::sources::{list_files, list_lines, list_roles};
use crate::web_parts::list_parts;
use std::alloc::Global;
use tangle_expansion::{Numbers, Work};
use tangle_graph::{Built, Store, expand_all};
use tangle_lines::{Files, NoMemory, Roles, Sink, read_source};
use tangle_names::NameTable;
use tangle_scan::{Web, scan};

/// Files with their roles: the web and the change file that is named are there.
#[derive(Drop)]
pub struct Project {
    pub files: Files,
    pub roles: Roles,
    ghost fit: { fits files roles ≡ true },
}

// Lists the graph of a web and what it expands to, and returns its store.
fn list_store<S: Sink>(
    alloc: Global,
    out: &mut Listing<S>,
    web: &Web,
    table: &NameTable,
    roles: &Roles,
) -> Result<Store, NoMemory>
    requires { table.now ≡ table_of web.now }
{
    let store = Store::build(alloc, web, table, roles.out(), None)?.store;
    let again = Store::build(alloc, web, table, roles.out(), Some(&store))?;
    list_nodes(out, &store, &again.new_shapes);
    list_faults(
        out,
        b"graph",
        &store.faults(alloc, web, table, roles.out())?,
    );
    let numbers = store.numbers(alloc, web, roles.marks())?;
    let mut work = Work::new(alloc);
    let kept = expand_all(alloc, &store, &mut work)?;
    out.begin(b"expanded");
    out.number(work.made());
    out.end();
    list_outputs(out, store.outputs(), &kept, &numbers);
    Ok(store)
}

/// Lists what each layer makes of a web, and returns the store of its graph.
///
/// # Errors
///
/// `NoMemory`, where an allocation failed. What was listed before stays.
pub fn list_layers<S: Sink>(
    alloc: Global,
    out: &mut Listing<S>,
    project: &Project,
) -> Result<Store, NoMemory> {
    list_roles(out, &project.roles);
    list_files(out, &project.files);
    let source = read_source(alloc, &project.files, &project.roles)?;
    list_lines(out, &source);
    list_faults(out, b"reading", source.faults());
    let web = scan(alloc, &source)?;
    let table = NameTable::build(alloc, &web)?;
    out.begin(b"sections");
    out.number(web.section_count());
    out.end();
    list_occurrences(out, &web, &table);
    list_parts(alloc, out, &source, &web)?;
    list_faults(out, b"scanning", web.faults());
    list_names(out, &table);
    list_faults(out, b"names", &table.faults(alloc, &web)?);
    list_store(alloc, out, &web, &table, &project.roles)
}

/// The store of the graph of a web, built from that of another.
///
/// # Errors
///
/// `NoMemory`, where an allocation failed.
pub fn store_after(alloc: Global, project: &Project, old: &Store) -> Result<Built, NoMemory> {
    let source = read_source(alloc, &project.files, &project.roles)?;
    let web = scan(alloc, &source)?;
    let table = NameTable::build(alloc, &web)?;
    Store::build(alloc, &web, &table, project.roles.out(), Some(old))
}
