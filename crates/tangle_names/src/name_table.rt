//! The table of a web's names.
ghost use Rattle.std.specs.Prelude.{◌≡◌, ◌<◌, ◌+◌, ◌^◌, ℕ, IfOk, length, map, slice_index_or, position};
ghost use Rattle.std.specs.Prelude.{is_some, None, []};
ghost use Rattle.std.specs.Str.{bytes_eq};
ghost use Rattle.tangle_lexer.specs.Occurrences.{OccurrenceRead};
ghost use Rattle.tangle_names.specs.declared.Resolved.{Resolved};
ghost use Rattle.tangle_names.specs.declared.Resolved.TheVariants.{NoFullName};
ghost use Rattle.tangle_names.specs.Numbers.{first_by_number};

use crate::Resolved;
use crate::faults::faults;
use crate::first_numbers::{Counted, first_numbers};
use crate::keys::find;
use crate::names::Names;
use crate::resolution::{Resolution, are_written_alike};
use std::alloc::Global;
use std::marker::Model;
use std::rc::Rc;
use tangle_lines::{Fault, NoMemory};
use tangle_scan::{Occurrence, Web};

/// The full names of a web, and the resolution of each occurrence.
#[derive(Drop)]
pub struct NameTable {
    // Tables of webs whose occurrences are written the same share it. It never changes.
    resolution: Rc<Resolution>,
}

impl Model for NameTable {
    ghost use Rattle.tangle_names.specs.NameTable.{TableRead};
    ghost use Rattle.tangle_names.specs.Resolution.{ResolutionInvariant, table_read};

    ghost Value = { TableRead };

    ghost view = { λ t. table_read t.resolution.value };

    ghost invariant = { λ t. ResolutionInvariant t.resolution.value };
}

impl NameTable {
    ghost use Rattle.tangle_names.specs.Faults.{name_faults};
    ghost use Rattle.tangle_names.specs.NameTable.{IsNameBelow, table_of, table_over};

    /// The table of a web's names. A name that ends in three dots is an abbreviation; the others
    /// are full names, also those that are only mentioned. An abbreviation resolves to the one full
    /// name of the whole web that begins with the text before the dots. Full names are numbered
    /// from 0, in the order of the first occurrences that resolve to them.
    ///
    /// # Errors
    ///
    /// `NoMemory` where an allocation failed.
    pub fn build(alloc: Global, web: &Web) -> Result<NameTable, NoMemory>
        ensures { IfOk result (λ table. table ≡ table_of web.now) }
    {
        let resolution = Resolution::build(alloc, web.occurrences())?;
        Ok(NameTable {
            resolution: Rc::new(alloc, resolution)?,
        })
    }

    /// The same table as [`NameTable::build`] makes, built from the table and the occurrences of an
    /// older web. If each new occurrence is written as the old one with its number, the resolution
    /// is shared with the old table, without sorting and look-ups.
    ///
    /// # Errors
    ///
    /// `NoMemory` where an allocation failed.
    #[tactic(auto, using(crate::proofs::AlikeLemmas::table_alike))]
    pub fn rebuild(
        alloc: Global,
        web: &Web,
        old: &NameTable,
        old_occurrences: &[Occurrence],
    ) -> Result<NameTable, NoMemory>
        requires { old.now ≡ table_over old_occurrences.now }
        ensures { IfOk result (λ table. table ≡ table_of web.now) }
    {
        if are_written_alike(old_occurrences, web.occurrences()) {
            Ok(NameTable {
                resolution: old.resolution.clone()?,
            })
        } else {
            NameTable::build(alloc, web)
        }
    }

    /// The resolution of the occurrence with this number: its full name, or why it has none.
    pub fn resolve(&self, occurrence: usize) -> Resolved
        requires { occurrence < length self.now.resolved }
        ensures resolution { result ≡ slice_index_or self.now.resolved occurrence NoFullName }
        ensures inside { IsNameBelow (length self.now.names) result }
        ensures few { length self.now.names + 1 < 2 ^ 64 }
    {
        self.resolution.resolved[occurrence]
    }

    /// The number of the full name with this text, if there is one.
    pub fn find(&self, text: &[u8]) -> Option<usize>
        ensures { result ≡ position (bytes_eq text.now) self.now.names }
    {
        find(&self.resolution.names, text)
    }

    /// Shares the full names.
    ///
    /// # Errors
    ///
    /// `NoMemory` where the counter of shares is full.
    pub fn names(&self) -> Result<Names, NoMemory>
        ensures { IfOk result (λ names. names ≡ self.now.names) }
    {
        Ok(Names::new(self.resolution.clone()?))
    }

    /// The number of full names.
    pub fn count(&self) -> usize
        ensures { result ≡ length self.now.names }
    {
        self.resolution.names.len()
    }

    /// The text of the full name with this number.
    pub fn text(&self, id: usize) -> &[u8]
        requires { id < length self.now.names }
        ensures { result.now ≡ slice_index_or self.now.names id [] }
    {
        self.resolution.names.as_slice()[id].bytes()
    }

    /// The number of the first occurrence that resolves to the full name with this number; it may
    /// be an abbreviation.
    pub fn first_occurrence(&self, id: usize) -> usize
        requires { id < length self.now.names }
        ensures { result ≡ slice_index_or self.now.first_occurrences id 0 }
    {
        self.resolution.first_occurrences[id]
    }

    /// The number of the first occurrence with `@(` that resolves to the full name with this
    /// number, if there is one.
    pub fn first_file_occurrence(&self, id: usize) -> Option<usize>
        requires { id < length self.now.names }
        ensures { result ≡ slice_index_or self.now.first_file_occurrences id None }
    {
        let number = self.resolution.first_file_occurrences[id];
        (number < self.resolution.resolved.len()).then_some(number)
    }

    /// Whether the full name with this number is a file: an occurrence with `@(` resolves to it.
    pub fn is_file(&self, id: usize) -> bool
        requires { id < length self.now.names }
        ensures { result ≡ is_some (slice_index_or self.now.first_file_occurrences id None) }
    {
        self.first_file_occurrence(id).is_some()
    }

    /// For each full name, the number of the first counted occurrence that resolves to it, or the
    /// number of occurrences where there is none. The occurrences must be those of the table's web.
    ///
    /// # Errors
    ///
    /// `NoMemory` where an allocation failed.
    pub fn first_numbers(
        &self,
        alloc: Global,
        occurrences: &[Occurrence],
        counted: Counted,
    ) -> Result<Vec<usize>, NoMemory>
        requires { length self.now.resolved ≡ length occurrences.now }
        ensures size { IfOk result (λ v. length v.items ≡ length self.now.names) }
        ensures numbers { IfOk result (λ v. (resolve : OccurrenceRead → Resolved)
            → self.now.resolved ≡ map resolve occurrences.now
            → (id : ℕ) → id < length self.now.names
            → slice_index_or v.items id 0 ≡ first_by_number resolve counted occurrences.now id) }
    {
        let resolved = self.resolution.resolved.as_slice();
        Ok(first_numbers(alloc, occurrences, resolved, self.count(), counted)?)
    }

    /// The faults of names of the table's web: first those of occurrences that resolve to no full
    /// name or to several, in the order of the occurrences; then the warnings for full names that
    /// begin others, in the order of the names, each at its name's first occurrence.
    ///
    /// # Errors
    ///
    /// `NoMemory` where an allocation failed.
    pub fn faults(&self, alloc: Global, web: &Web) -> Result<Vec<Fault>, NoMemory>
        requires { self.now ≡ table_of web.now }
        ensures { IfOk result (λ faults. faults.items ≡ name_faults web.now) }
    {
        faults(alloc, web, &self.resolution)
    }
}
