//! Which names of files are those of the main file or of an earlier file.
ghost use Rattle.std.specs.Prelude.{◌≡◌, ◌<◌, ◌+◌, ◌||◌, List, ℕ, IfOk, length, suc};
ghost use Rattle.tangle_bodies.specs.Shapes.{Shapes};
ghost use Rattle.tangle_graph.specs.Measures.{AreMeasures, measure_at};
ghost use Rattle.tangle_graph.specs.NamedFiles.{AreFileFlags, HaveForms, flags_at, flags_of};
ghost use Rattle.tangle_graph.specs.Outputs.{is_file};
ghost use Rattle.tangle_graph.specs.PlainForms.{plain_form};

use crate::measures::{Measure, NO_PIECE};
use crate::nodes::entry;
use crate::plain_forms::plain_form;
use digraph::Node;
use indexmap::IndexSet;
use std::alloc::Global;
use tangle_lines::NoMemory;
use tangle_names::NameTable;

/// For each name two flags: whether it is that of the main file, and whether it is that of an
/// earlier file.
#[derive(Drop)]
pub(crate) struct NamedFiles {
    flags: Vec<(bool, bool)>,
}

/// What is recorded of the name with this number.
fn measure_of_name(measures: &[Measure], id: usize) -> Measure
    ensures { result ≡ measure_at measures.now (suc id) }
{
    entry(measures, Node::name(id), NO_PIECE)
}

/// Whether the name is that of a file: an occurrence of it begins with `@(`, and it has a piece.
#[tactic(auto, using(crate::proofs::NamedFileLemmas::piece_of_name))]
fn is_file(table: &NameTable, measures: &[Measure], id: usize) -> bool
    requires { id < length table.now.names }
    ensures { (shapes : Shapes) → AreMeasures shapes table.now.names measures.now
        → result ≡ is_file shapes table.now id }
{
    table.is_file(id) && measure_of_name(measures, id).depth > 0
}

/// Whether the name is that of the main file, and whether it is that of an earlier file. Names are
/// compared by their plain forms: those of the files of the names before it, but for the main file,
/// are in `forms`, and that of its own file is added.
fn other_files(
    alloc: Global,
    table: &NameTable,
    measures: &[Measure],
    main_form: &Vec<u8>,
    id: usize,
    forms: &mut IndexSet<Vec<u8>>,
) -> Result<(bool, bool), NoMemory>
    requires { id < length table.now.names }
    ensures { IfOk result (λ flags. (shapes : Shapes) (out : List ℕ)
        → AreMeasures shapes table.now.names measures.now → main_form.now.items ≡ plain_form out
        → HaveForms shapes table.now out id forms.old.keys
        → HaveForms shapes table.now out (id + 1) forms.new.keys
        × (flags ≡ flags_of shapes table.now out id)) }
{
    if !is_file(table, measures, id) {
        return Ok((false, false));
    }
    let form = plain_form(alloc, table.text(id))?;
    if form == *main_form {
        return Ok((true, false));
    }
    let is_first = forms.insert(form)?;
    Ok((false, !is_first))
}

impl NamedFiles {
    /// The flags for all names of this table, of which these measures say which have a piece, and
    /// for a main file of this name.
    pub(crate) fn find(
        alloc: Global,
        table: &NameTable,
        out: &[u8],
        measures: &[Measure],
    ) -> Result<NamedFiles, NoMemory>
        ensures { IfOk result (λ files. (shapes : Shapes)
            → AreMeasures shapes table.now.names measures.now
            → AreFileFlags shapes table.now out.now files) }
    {
        let main_form = plain_form(alloc, out)?;
        let mut forms = IndexSet::new(alloc);
        let mut flags = Vec::with_capacity(alloc, table.count())?;
        for id in 0..table.count() {
            let found = other_files(alloc, table, measures, &main_form, id, &mut forms)?;
            flags.push(found)?;
        }
        Ok(NamedFiles { flags })
    }

    /// The two flags of the name with this number.
    fn flags_at(&self, id: usize) -> (bool, bool)
        ensures { result ≡ flags_at self.now id }
    {
        self.flags.get(id).copied().unwrap_or((false, false))
    }

    /// Whether the name with this number is that of the main file.
    pub(crate) fn is_main_file(&self, id: usize) -> bool
        ensures { result ≡ (flags_at self.now id).0 }
    {
        self.flags_at(id).0
    }

    /// Whether the name with this number is that of an earlier file.
    pub(crate) fn is_earlier_file(&self, id: usize) -> bool
        ensures { result ≡ (flags_at self.now id).1 }
    {
        self.flags_at(id).1
    }

    /// Whether the name with this number is that of the main file or of an earlier file.
    pub(crate) fn has_other_name(&self, id: usize) -> bool
        ensures { result ≡ ((flags_at self.now id).0 || (flags_at self.now id).1) }
    {
        self.is_main_file(id) || self.is_earlier_file(id)
    }
}
