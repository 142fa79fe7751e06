//! The source: the result of reading a web.
ghost use Rattle.std.specs.Prelude.{◌≡◌, ◌≤◌, ◌-◌, length, IfOk};
ghost use Rattle.std.specs.List.{All};
ghost use Rattle.tangle_files.specs.Lines.{name_at};
ghost use Rattle.tangle_files.specs.Adding.{longest_line, most_files};
ghost use Rattle.tangle_files.specs.Sharing.{slice_of};
ghost use Rattle.tangle_lines.specs.Reading.{line_at, source_line_limit, origin_at, IsShort};

use crate::origin::Origin;
use std::alloc::AllocError;
use std::marker::Model;
use tangle_faults::Fault;
use tangle_files::{Files, Line, SharedSlice};

/// A source line, with its origin, and whether it is from the change file. The two numbers of the
/// origin are fields of the line, so that it takes 16 bytes.
#[derive(Drop)]
pub(crate) struct SourceLine<'a> {
    line: &'a Line,
    number: u32,
    file: u16,
    is_changed: bool,
}

impl<'a> Model for SourceLine<'a> {
    ghost use Rattle.tangle_lines.specs.Reading.{SourceLine as LineRead};

    ghost Value = { LineRead };

    ghost view = { λ l. record {
      bytes = l.line.now;
      origin =
          record { file = l.file; line = l.number };
      changed = l.is_changed;
    } };
}

impl<'a> SourceLine<'a> {
    pub(crate) fn new(line: &'a Line, origin: Origin, is_changed: bool) -> Self
        ensures { result ≡ record { bytes = line.now; origin = origin; changed = is_changed } }
    {
        let Origin { file, line: number } = origin;
        SourceLine {
            line,
            number,
            file,
            is_changed,
        }
    }

    fn origin(&self) -> Origin
        ensures { result ≡ self.now.origin }
    {
        Origin {
            file: self.file,
            line: self.number,
        }
    }
}

/// The source lines of a web, at most 2,000,000, and the faults of its change file and of reading.
/// It borrows the lines from the table of files.
#[derive(Drop)]
pub struct Source<'a> {
    pub(crate) files: &'a Files,
    pub(crate) lines: Vec<SourceLine<'a>>,
    pub(crate) faults: Vec<Fault>,
}

impl<'a> Model for Source<'a> {
    ghost use Rattle.std.specs.Prelude.{◌≤◌, length};
    ghost use Rattle.std.specs.List.{All};
    ghost use Rattle.tangle_lines.specs.Reading.{SourceRead, IsShort, source_line_limit};

    ghost Value = { SourceRead };

    ghost view = { λ s. record {
      files = s.files.now;
      lines = s.lines.items;
      faults =
          s.faults.items;
    } };

    ghost invariant = { λ s.
        (length s.lines.items ≤ source_line_limit) × All IsShort s.lines.items };
}

impl<'a> Source<'a> {
    /// The number of lines: at most 2,000,000.
    pub fn count(&self) -> usize
        ensures count { result ≡ length self.now.lines }
        ensures limit { result ≤ source_line_limit }
        ensures short { All IsShort self.now.lines }
    {
        self.lines.len()
    }

    /// The bytes of the line with this number, from 0: at most 65,535 bytes. After the last line
    /// there are none.
    pub fn line(&self, number: usize) -> &'a [u8]
        ensures bytes { result.now ≡ (line_at self.now.lines number).bytes }
        ensures short { length result.now ≤ longest_line }
    {
        match self.lines.get(number) {
            Some(line) => line.line.bytes(),
            None => &[],
        }
    }

    /// The bytes of the line with this number, from 0, from column `start` up to column `end`, as far
    /// as the line has them. They share the text of the file. After the last line there are none.
    ///
    /// # Errors
    ///
    /// Fails if an allocation fails, or if the text has too many shares to count.
    pub fn slice(&self, number: usize, start: usize, end: usize) -> Result<SharedSlice, AllocError>
        ensures { IfOk result (λ slice.
            slice ≡ slice_of (line_at self.now.lines number).bytes start (end - start)) }
    {
        match self.lines.get(number) {
            Some(line) => line.line.slice(start, end),
            None => {
                let alloc = *self.lines.allocator();
                SharedSlice::whole(alloc, Vec::new(alloc))
            }
        }
    }

    /// The origin of the line with this number, from 0. After the last line it is line 0 of file 0.
    pub fn origin(&self, number: usize) -> Origin
        ensures { result ≡ origin_at self.now.lines number }
    {
        match self.lines.get(number) {
            Some(line) => line.origin(),
            None => Origin { file: 0, line: 0 },
        }
    }

    /// Whether the line with this number, from 0, is from the change file, or from a file that such
    /// a line includes. After the last line it is not.
    pub fn is_changed(&self, number: usize) -> bool
        ensures { result ≡ (line_at self.now.lines number).changed }
    {
        match self.lines.get(number) {
            Some(line) => line.is_changed,
            None => false,
        }
    }

    /// The number of files in the table of files: at most 256.
    pub fn file_count(&self) -> usize
        ensures count { result ≡ length self.now.files }
        ensures limit { result ≤ most_files }
    {
        self.files.count()
    }

    /// The name of the file of an origin; empty if the table has no such file.
    pub fn file_name(&self, origin: Origin) -> &'a [u8]
        ensures { result.now ≡ name_at self.now.files origin.file }
    {
        self.files.name_at(origin.file)
    }

    /// The faults of the change file, and then those of reading, each in the order in which they
    /// were found.
    pub fn faults(&self) -> &[Fault]
        ensures { result.now ≡ self.now.faults }
    {
        self.faults.as_slice()
    }

    /// Takes the faults out of the source, and frees its lines.
    pub fn into_faults(self) -> Vec<Fault>
        ensures { result.items ≡ self.entry.faults }
    {
        self.faults
    }
}
