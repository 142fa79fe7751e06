//! The analysis of a web: what is known of the web before any of its nodes is expanded.
ghost use Rattle.std.specs.Prelude.{◌≡◌, true, IfOk, IfSome};
ghost use Rattle.tangle_files.specs.Roles.{fits};
ghost use Rattle.tangle_names.specs.NameTable.{table_of};
ghost use Rattle.tangle_graph.specs.Stores.{AreNewShapes};
ghost use Rattle.tangle_graph.specs.WebStores.{IsStoreOfWeb};
ghost use Rattle.tangle_session.specs.States.{HasItsTable, IsAnalysisAt};

use std::alloc::Global;
use tangle_expansion::Numbers;
use tangle_graph::{Built, Store};
use tangle_lines::{Fault, Files, MarkMode, NoMemory, Roles, read_source};
use tangle_names::NameTable;
use tangle_scan::{Occurrence, Web, scan};

/// The occurrences, the names, the store and the numbers of a web, and the faults of its files. The
/// occurrences are kept for the next edit: if the new web's occurrences are written the same, the
/// old resolution of the names is shared.
#[derive(Drop)]
pub(crate) struct Analysis {
    pub(crate) occurrences: Vec<Occurrence>,
    pub(crate) table: NameTable,
    pub(crate) store: Store,
    /// For each node, whether its shape is new.
    pub(crate) new_shapes: Vec<bool>,
    pub(crate) numbers: Numbers,
    pub(crate) faults: Vec<Fault>,
}

/// Makes the table of a web's names, from the table of the old analysis if there is one.
fn name_table(alloc: Global, web: &Web, old: Option<&Analysis>) -> Result<NameTable, NoMemory>
    requires { IfSome old (λ before. HasItsTable before.now) }
    ensures { IfOk result (λ table. table ≡ table_of web.now) }
{
    match old {
        Some(old) => NameTable::rebuild(alloc, web, &old.table, &old.occurrences),
        None => NameTable::build(alloc, web),
    }
}

/// Makes the store of a web with its table of names, from the store of the old analysis if there is
/// one.
fn store(
    alloc: Global,
    web: &Web,
    table: &NameTable,
    out: &[u8],
    old: Option<&Analysis>,
) -> Result<Built, NoMemory>
    requires { table.now ≡ table_of web.now }
    ensures store { IfOk result (λ made. IsStoreOfWeb web.now table.now out.now made.store) }
    ensures new_shapes { IfOk result (λ made. IfSome old.entry
        (λ before. AreNewShapes before.now.store made.store made.new_shapes.items)) }
{
    match old {
        Some(old) => Store::build(alloc, web, table, out, Some(&old.store)),
        None => Store::build(alloc, web, table, out, None),
    }
}

impl Analysis {
    /// Reads and scans the files, which must have the web and the change file, if one is named.
    /// Line marks are written by `marks`, whatever the roles say. The names and the store are made
    /// from those of the old analysis, if there is one.
    pub(crate) fn build(
        alloc: Global,
        files: &Files,
        roles: &Roles,
        marks: MarkMode,
        old: Option<&Analysis>,
    ) -> Result<Analysis, NoMemory>
        requires fits { fits files.now roles.now ≡ true }
        requires old { IfSome old (λ before. HasItsTable before.now) }
        ensures made { IfOk result (λ made.
            IsAnalysisAt files.now (record roles.now { marks = marks }) made) }
        ensures new_shapes { IfOk result (λ made. IfSome old.entry
            (λ before. AreNewShapes before.now.store made.store made.new_shapes.items)) }
    {
        let source = read_source(alloc, files, roles)?;
        let web = scan(alloc, &source)?;
        let table = name_table(alloc, &web, old)?;
        let made = store(alloc, &web, &table, roles.out(), old)?;
        let new_shapes = made.new_shapes;
        let store = made.store;
        let numbers = store.numbers(alloc, &web, marks)?;
        let mut of_names = table.faults(alloc, &web)?;
        let mut of_graph = store.faults(alloc, &web, &table, roles.out())?;
        let (occurrences, mut of_web) = web.into_occurrences_and_faults();
        let mut faults = source.into_faults();
        faults.append(&mut of_web)?;
        faults.append(&mut of_names)?;
        faults.append(&mut of_graph)?;
        Ok(Analysis {
            occurrences,
            table,
            store,
            new_shapes,
            numbers,
            faults,
        })
    }
}
