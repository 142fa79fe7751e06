//! The faults of the graph of names: a name is undefined, never used, contains itself, is too large,
//! or is that of the main file or of an earlier file; or the program is too large or has no piece.
ghost use Rattle.std.specs.Prelude.{◌≡◌, ◌<◌, ◌++◌, false, None, All, IfOk, OnOk};
ghost use Rattle.tangle_bodies.specs.Nodes.{IsNodeOf};
ghost use Rattle.std.specs.Prelude.{length, if◌then◌else◌};
ghost use Rattle.tangle_graph.specs.Faults.{fault_if, fault_occurrence, fault_of_name};
ghost use Rattle.tangle_graph.specs.Faults.{faults_of_names, first_use, graph_faults};
ghost use Rattle.tangle_graph.specs.Faults.{has_piece_of_node, is_too_large};
ghost use Rattle.tangle_graph.specs.FaultSearches.{HaveTheFaults, IsFaultSearch};

use crate::named_files::NamedFiles;
use crate::store::Store;
use digraph::Node;
use std::alloc::{AllocError, Global};
use tangle_lines::{Fault, FaultKind, NoMemory};
use tangle_names::NameTable;
use tangle_scan::Web;

/// From what the faults of the graph are found: a web with its table of names, the name of its main
/// file and its store; for each name the number of the first use that resolves to it, or the number
/// of all occurrences where none does; and which files have the name of another file.
#[derive(Drop)]
pub(crate) struct FaultSearch<'f, 's, 'a> {
    pub(crate) web: &'f Web<'s, 'a>,
    pub(crate) table: &'f NameTable,
    pub(crate) out: &'f [u8],
    pub(crate) store: &'f Store,
    pub(crate) first_uses: Vec<usize>,
    pub(crate) named_files: NamedFiles,
}

fn number_if(has_fault: bool, number: Option<usize>) -> Option<usize>
    ensures { result ≡ (if has_fault then number else None) }
{
    if has_fault { number } else { None }
}

/// Adds a fault without a place, where `has_fault` says so.
fn add_unplaced(
    alloc: Global,
    kind: FaultKind,
    has_fault: bool,
    faults: &mut Vec<Fault>,
) -> Result<(), NoMemory>
    ensures { OnOk result (faults.new.items ≡ faults.old.items ++ fault_if kind has_fault) }
{
    if has_fault {
        faults.push(Fault::unplaced(alloc, kind))?;
    }
    Ok(())
}

impl<'f, 's, 'a> FaultSearch<'f, 's, 'a> {
    /// The number of the first use that resolves to the name, if any does.
    fn first_use(&self, id: usize) -> Option<usize>
        requires search { IsFaultSearch self.now }
        requires name { id < length self.now.table.now.names }
        ensures { result ≡ first_use self.now.web.now self.now.table.now id }
    {
        let number = self.first_uses[id];
        if number < self.web.occurrences().len() {
            Some(number)
        } else {
            None
        }
    }

    fn has_piece(&self, node: Node) -> bool
        requires search { IsFaultSearch self.now }
        requires node { IsNodeOf self.now.table.now.names node }
        ensures { result ≡ has_piece_of_node self.now.web.now self.now.table.now node }
    {
        self.store.has_piece(node)
    }

    /// Whether the node has a piece, reaches no name that contains itself, and is beyond a limit.
    fn is_too_large(&self, node: Node) -> bool
        requires search { IsFaultSearch self.now }
        requires node { IsNodeOf self.now.table.now.names node }
        ensures { result ≡ is_too_large self.now.web.now self.now.table.now node }
    {
        self.has_piece(node) && (!self.store.reaches_cycle(node) && !self.store.expandable(node))
    }

    /// The number of the occurrence at which the name has a fault of this kind; `None` where it has
    /// no such fault.
    fn fault_number(&self, kind: FaultKind, id: usize) -> Option<usize>
        requires search { IsFaultSearch self.now }
        requires name { id < length self.now.table.now.names }
        ensures { result
            ≡ fault_occurrence self.now.web.now self.now.table.now self.now.out.now kind id }
    {
        let node = Node::name(id);
        let use_number = self.first_use(id);
        let first = Some(self.table.first_occurrence(id));
        let first_file = self.table.first_file_occurrence(id);
        let has_piece = self.has_piece(node);
        match kind {
            FaultKind::Undefined => number_if(!has_piece, use_number),
            FaultKind::Unused => number_if(
                has_piece && (!self.table.is_file(id) && !use_number.is_some()),
                first,
            ),
            FaultKind::SelfContaining => number_if(self.store.self_containing(node), first),
            FaultKind::TooLarge => number_if(self.is_too_large(node), first),
            FaultKind::FileClash => number_if(self.named_files.is_main_file(id), first_file),
            FaultKind::FileTwice => number_if(self.named_files.is_earlier_file(id), first_file),
            _ => None,
        }
    }

    /// Adds the fault of this kind that the name has, if it has one.
    fn add_fault(
        &self,
        alloc: Global,
        kind: FaultKind,
        id: usize,
        faults: &mut Vec<Fault>,
    ) -> Result<(), NoMemory>
        requires search { IsFaultSearch self.now }
        requires name { id < length self.now.table.now.names }
        ensures { OnOk result (faults.new.items
            ≡ faults.old.items
            ++ fault_of_name self.now.web.now self.now.table.now self.now.out.now kind id) }
    {
        if let Some(number) = self.fault_number(kind, id) {
            if let Some(occurrence) = self.web.occurrences().get(number) {
                let origin = occurrence.origin();
                let file = self.web.file_name(origin);
                let name = self.table.text(id);
                faults.push(Fault::about(alloc, kind, file, origin.line, name)?)?;
            }
        }
        Ok(())
    }

    /// Whether the name may have a fault. A name that is expandable and used, does not contain
    /// itself, and has no occurrence with `@(`, has none.
    fn may_have_fault(&self, id: usize) -> bool
        requires search { IsFaultSearch self.now }
        requires name { id < length self.now.table.now.names }
        ensures { result ≡ false → (kind : FaultKind)
            → fault_occurrence self.now.web.now self.now.table.now self.now.out.now kind id ≡ None }
    {
        let node = Node::name(id);
        !self.store.expandable(node)
            || (self.store.self_containing(node)
                || (!self.first_use(id).is_some() || self.table.is_file(id)))
    }

    /// The names that may have a fault, in the order of their numbers.
    fn candidates(&self, alloc: Global) -> Result<Vec<usize>, AllocError>
        requires { IsFaultSearch self.now }
        ensures names { IfOk result
            (λ names. All (λ id. id < length self.now.table.now.names) names.items) }
        ensures faults { IfOk result (λ names. HaveTheFaults self.now names.items) }
    {
        let mut names = Vec::new(alloc);
        for id in 0..self.table.count() {
            if self.may_have_fault(id) {
                names.push(id)?;
            }
        }
        Ok(names)
    }

    /// Adds the faults of this kind about these names.
    fn add_faults(
        &self,
        alloc: Global,
        kind: FaultKind,
        names: &[usize],
        faults: &mut Vec<Fault>,
    ) -> Result<(), NoMemory>
        requires search { IsFaultSearch self.now }
        requires names { All (λ id. id < length self.now.table.now.names) names.now }
        requires faults { HaveTheFaults self.now names.now }
        ensures { OnOk result (faults.new.items
            ≡ faults.old.items
            ++ faults_of_names self.now.web.now self.now.table.now self.now.out.now kind) }
    {
        for id in names {
            self.add_fault(alloc, kind, *id, faults)?;
        }
        Ok(())
    }

    /// All faults of the graph.
    #[tactic(auto, using(std::proofs::Common::append_assoc))]
    pub(crate) fn faults(&self, alloc: Global) -> Result<Vec<Fault>, NoMemory>
        requires { IsFaultSearch self.now }
        ensures { IfOk result (λ faults. faults.items
            ≡ graph_faults self.now.web.now self.now.table.now self.now.out.now) }
    {
        let names = self.candidates(alloc)?;
        let is_large = self.is_too_large(Node::program());
        let has_piece = self.has_piece(Node::program());
        let mut faults = Vec::new(alloc);
        self.add_faults(alloc, FaultKind::Undefined, &names, &mut faults)?;
        self.add_faults(alloc, FaultKind::Unused, &names, &mut faults)?;
        self.add_faults(alloc, FaultKind::SelfContaining, &names, &mut faults)?;
        self.add_faults(alloc, FaultKind::TooLarge, &names, &mut faults)?;
        add_unplaced(alloc, FaultKind::TooLarge, is_large, &mut faults)?;
        self.add_faults(alloc, FaultKind::FileClash, &names, &mut faults)?;
        self.add_faults(alloc, FaultKind::FileTwice, &names, &mut faults)?;
        add_unplaced(alloc, FaultKind::NoProgram, !has_piece, &mut faults)?;
        Ok(faults)
    }
}
