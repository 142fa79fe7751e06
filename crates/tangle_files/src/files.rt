//! The table of files.
ghost use Rattle.std.specs.Prelude.{◌≡◌, ◌≤◌, [], length, slice_get, OnOk, OnErr, IsOkUnless, IfOk};
ghost use Rattle.std.specs.Prelude.{IfSome, IfNone, Err};
ghost use Rattle.std.specs.Option.{option_copied, option_map};
ghost use Rattle.tangle_files.specs.Lines.{file_number, name_at as name_in_table};
ghost use Rattle.tangle_files.specs.Lines.{lines_at as lines_in_table, lines_of};
ghost use Rattle.tangle_files.specs.Adding.{HasDistinctNames, with_file, add_refusal, name_refusal};
ghost use Rattle.tangle_files.specs.Adding.{has_file, is_name, most_files, most_lines};
ghost use Rattle.tangle_files.specs.Edits.{edit_refusal};
ghost use Rattle.tangle_files.specs.Edited.{edited};

use crate::cutting::{cut_lines, refusal_of_lines};
use crate::edits::Edit;
use crate::line::Line;
use crate::refusal::Refusal;
use crate::splicing::make_edit;
use indexmap::IndexMap;
use std::alloc::Global;
use std::marker::Model;
use std::rc::Rc;
use tangle_streams::NoMemory;

// With these limits an origin fits into a `u16` and a `u32`, and a span into eight bytes.

/// The most bytes that the name of a file may have.
const LONGEST_NAME: usize = 255;

/// The most files that a table may have.
const MOST_FILES: usize = 256;

/// The most lines that a file may have.
pub(crate) const MOST_LINES: usize = 1_000_000;

/// Files with distinct names and their lines, in the order in which they were added: at most 256
/// files, each of at most 1,000,000 lines. A file's number is its position in that order, from 0.
#[derive(Drop)]
pub struct Files {
    table: IndexMap<Vec<u8>, Rc<Vec<Line>>>,
}

impl Model for Files {
    ghost use Rattle.tangle_files.specs.Lines.{FileTable};

    ghost Value = { FileTable };

    ghost use Rattle.tangle_files.specs.Adding.{IsWithinLimits};
    ghost use Rattle.tangle_files.specs.Table.{files_of};

    ghost view = { λ f. files_of f.table };

    ghost invariant = { λ f. IsWithinLimits (files_of f.table) };
}

impl Files {
    /// A table without files. It allocates nothing.
    #[tactic(auto, using(crate::proofs::TableLemmas::whole_tables))]
    pub fn new(alloc: Global) -> Self
        ensures { result ≡ [] }
    {
        Files {
            table: IndexMap::new(alloc),
        }
    }

    /// Adds a file as the last one. Its bytes are cut into lines at line feeds; the last line may
    /// lack its line feed, and an empty file has no lines. Trailing spaces of a line are dropped,
    /// as CWEB drops them.
    ///
    /// # Errors
    ///
    /// The first of these that applies; the table is then unchanged. `BadName` for a name that is
    /// empty, longer than 255 bytes or has a line feed; `FileExists`; `TooManyFiles` for one file
    /// more than 256; `LineTooLong` for a line of more than 65,535 bytes; `TooManyLines` for more
    /// than 1,000,000 lines; `NoMemory`.
    pub fn add(&mut self, name: &[u8], bytes: &[u8]) -> Result<(), Refusal>
        ensures ok { OnOk result (self.new ≡ with_file self.old name.now bytes.now) }
        ensures refused { IfSome (add_refusal self.old name.now bytes.now) (λ e. result ≡ Err e) }
        ensures only { IfNone (add_refusal self.old name.now bytes.now)
            (IsOkUnless result Refusal.NoMemory) }
        ensures err { OnErr result (self.new ≡ self.old) }
    {
        if let Some(refusal) = self.refusal_to_add(name, bytes) {
            return Err(refusal);
        }
        let alloc = *self.table.allocator();
        let bytes = Vec::from_slice(alloc, bytes)?;
        self.add_owned(name, bytes)
    }

    /// Adds a file as [`Files::add`] does, but takes ownership of the bytes: they are cut in one
    /// pass, and the lines share them without a copy.
    ///
    /// # Errors
    ///
    /// Those of [`Files::add`]; the table is then unchanged, and the bytes are freed.
    pub fn add_owned(&mut self, name: &[u8], bytes: Vec<u8>) -> Result<(), Refusal>
        ensures ok { OnOk result (self.new ≡ with_file self.old name.now bytes.items) }
        ensures refused { IfSome (add_refusal self.old name.now bytes.items) (λ e. result ≡ Err e) }
        ensures only { IfNone (add_refusal self.old name.now bytes.items)
            (IsOkUnless result Refusal.NoMemory) }
        ensures err { OnErr result (self.new ≡ self.old) }
    {
        if let Some(refusal) = self.refusal_of_name(name) {
            return Err(refusal);
        }
        let alloc = *self.table.allocator();
        let lines = cut_lines(alloc, bytes)?;
        let lines = Rc::new(alloc, lines)?;
        let name = Vec::from_slice(alloc, name)?;
        self.table.insert(name, lines)?;
        Ok(())
    }

    /// A copy of the table, with the same files in the same order. The two tables share the lines.
    ///
    /// # Errors
    ///
    /// `NoMemory` if an allocation fails.
    #[tactic(auto, using(crate::proofs::TableLemmas::whole_tables))]
    pub fn copy(&self) -> Result<Files, NoMemory>
        ensures { IfOk result (λ copy. copy ≡ self.now) }
    {
        let table = self.table.clone()?;
        Ok(Files { table })
    }

    /// Makes an edit. The files keep their order; the number of each file after a discarded one
    /// decreases by one. An edit of a line changes only the list of lines of that file: in place,
    /// or in a new list if another table shares it. [`Edit::Marks`] changes no file.
    ///
    /// # Errors
    ///
    /// The refusal of [`Files::refusal_to_edit`] if there is one, else `NoMemory` if an allocation
    /// fails; the table is then unchanged.
    pub fn edit(&mut self, edit: &Edit) -> Result<(), Refusal>
        ensures ok { OnOk result (self.new ≡ edited self.old edit.now) }
        ensures refused { IfSome (edit_refusal self.old edit.now) (λ e. result ≡ Err e) }
        ensures only { IfNone (edit_refusal self.old edit.now)
            (IsOkUnless result Refusal.NoMemory) }
        ensures err { OnErr result (self.new ≡ self.old) }
    {
        if let Some(refusal) = self.refusal_to_edit(edit) {
            return Err(refusal);
        }
        make_edit(&mut self.table, edit)?;
        Ok(())
    }

    /// Why no new file may have this name, whatever its bytes.
    pub(crate) fn refusal_of_name(&self, name: &[u8]) -> Option<Refusal>
        ensures { result ≡ name_refusal self.now name.now }
    {
        if !is_file_name(name) {
            return Some(Refusal::BadName);
        }
        if self.has(name) {
            return Some(Refusal::FileExists);
        }
        if self.count() >= MOST_FILES {
            return Some(Refusal::TooManyFiles);
        }
        None
    }

    /// Why the file cannot be added, apart from `NoMemory`.
    fn refusal_to_add(&self, name: &[u8], bytes: &[u8]) -> Option<Refusal>
        ensures { result ≡ add_refusal self.now name.now bytes.now }
    {
        if let Some(refusal) = self.refusal_of_name(name) {
            return Some(refusal);
        }
        refusal_of_lines(bytes)
    }

    /// The number of files, at most 256. No two files have the same name.
    pub fn count(&self) -> usize
        ensures count { result ≡ length self.now }
        ensures limit { result ≤ most_files }
        ensures distinct { HasDistinctNames self.now }
    {
        self.table.len()
    }

    /// The name of the file of this number, counted from 0: `None` if no file has the number.
    pub fn name(&self, number: usize) -> Option<&[u8]>
        ensures { option_copied result ≡ option_map (λ f. f.0) (slice_get self.now number) }
    {
        match self.table.get_index(number) {
            Some((name, _)) => Some(name.as_slice()),
            None => None,
        }
    }

    /// The lines of the file of this name: `None` if there is no such file.
    #[tactic(auto, using(crate::proofs::TableLemmas::look_ups))]
    pub fn lines(&self, name: &[u8]) -> Option<&[Line]>
        ensures { option_copied result ≡ lines_of self.now name.now }
    {
        match self.table.get(name) {
            Some(lines) => Some(lines.as_slice()),
            None => None,
        }
    }

    /// Whether there is a file of this name.
    pub(crate) fn has(&self, name: &[u8]) -> bool
        ensures { result ≡ has_file self.now name.now }
    {
        self.lines(name).is_some()
    }

    /// The number of the file of this name, counted from 0: `None` if there is no such file.
    #[tactic(auto, using(crate::proofs::TableLemmas::look_ups))]
    pub fn find(&self, name: &[u8]) -> Option<u16>
        ensures { result ≡ file_number self.now name.now }
    {
        match self.table.get_index_of(name) {
            Some(number) => Some(number as u16),
            None => None,
        }
    }

    /// The name of the file of this number, counted from 0: empty if no file has the number.
    pub fn name_at(&self, number: u16) -> &[u8]
        ensures { result.now ≡ name_in_table self.now number }
    {
        match self.table.get_index(number as usize) {
            Some((name, _)) => name.as_slice(),
            None => &[],
        }
    }

    /// The lines of the file of this number, counted from 0: empty if no file has the number.
    pub fn lines_at(&self, number: u16) -> &[Line]
        ensures lines { result.now ≡ lines_in_table self.now number }
        ensures limit { length result.now ≤ most_lines }
    {
        match self.table.get_index(number as usize) {
            Some((_, lines)) => lines.as_slice(),
            None => &[],
        }
    }
}

/// Whether the bytes are a file's name: not empty, at most 255 bytes, and without a line feed.
pub fn is_file_name(name: &[u8]) -> bool
    ensures { result ≡ is_name name.now }
{
    0 < name.len() && name.len() <= LONGEST_NAME && !name.contains(&b'\n')
}
