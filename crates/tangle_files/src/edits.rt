//! Edits of files, and why they are refused.
ghost use Rattle.std.specs.Prelude.{◌≡◌, ℕ, List, Option, Some, not, IfOk, IfErr};
ghost use Rattle.tangle_files.specs.Edits.{edit_refusal, insert_refusal, is_line_number};
ghost use Rattle.tangle_files.specs.Edits.{refusal_if, refusal_in, replace_refusal, text_refusal};
ghost use Rattle.tangle_files.specs.declared.refusal.Refusal.{Refusal};
ghost use Rattle.tangle_files.specs.declared.refusal.Refusal.TheVariants.{NoSuchLine};

use crate::cutting::{LONGEST_LINE, without_trailing_spaces};
use crate::files::{Files, MOST_LINES, is_file_name};
use crate::line::Line;
use crate::marks::MarkMode;
use crate::refusal::Refusal;

/// An edit of the files. Lines are counted from 1. The trailing spaces of a text are dropped.
#[derive(Drop)]
pub enum Edit {
    /// Inserts the text as line `at`, which may be one after the last line.
    Insert {
        file: Vec<u8>,
        at: usize,
        text: Vec<u8>,
    },
    /// Removes line `at`.
    Remove {
        file: Vec<u8>,
        at: usize,
    },
    /// Replaces line `at` by the text.
    Replace {
        file: Vec<u8>,
        at: usize,
        text: Vec<u8>,
    },
    /// Adds a file without lines, as the last one.
    Create {
        file: Vec<u8>,
    },
    /// Removes the file. The number of each later file decreases by one.
    Discard {
        file: Vec<u8>,
    },
    /// Sets how line marks are written. It changes no file, and is refused for `NoMemory` alone.
    Marks {
        mode: MarkMode,
    },
}

impl Files {
    /// Why the edit is refused, apart from `NoMemory`: the first of these that applies. `BadName`
    /// for bytes that are not a file name; `FileExists` if a file to be created exists;
    /// `UnknownFile` if a file to be edited or removed does not; `NoSuchLine`; `BadLine` for a text
    /// with a line feed; `TooManyFiles` for one file more than 256; `LineTooLong` for a text of
    /// more than 65,535 bytes without its trailing spaces; `TooManyLines` for one line more than
    /// 1,000,000.
    pub fn refusal_to_edit(&self, edit: &Edit) -> Option<Refusal>
        ensures { result ≡ edit_refusal self.now edit.now }
    {
        match edit {
            Edit::Create { file } => self.refusal_of_name(file),
            Edit::Insert { file, at, text } => match self.lines_to_edit(file) {
                Ok(lines) => refusal_to_insert(lines, *at, text),
                Err(refusal) => Some(refusal),
            },
            Edit::Remove { file, at } => match self.lines_to_edit(file) {
                Ok(lines) => refusal_of_number(*at, lines.len()),
                Err(refusal) => Some(refusal),
            },
            Edit::Replace { file, at, text } => match self.lines_to_edit(file) {
                Ok(lines) => refusal_to_replace(lines, *at, text),
                Err(refusal) => Some(refusal),
            },
            Edit::Discard { file } => match self.lines_to_edit(file) {
                Ok(_) => None,
                Err(refusal) => Some(refusal),
            },
            Edit::Marks { .. } => None,
        }
    }

    /// The lines of the file of this name. The error is `BadName` or `UnknownFile`.
    fn lines_to_edit(&self, file: &[u8]) -> Result<&[Line], Refusal>
        ensures ok { (of_lines : List (List ℕ) → Option Refusal)
            → IfOk result (λ lines. refusal_in self.now file.now of_lines ≡ of_lines lines.now) }
        ensures err { (of_lines : List (List ℕ) → Option Refusal)
            → IfErr result (λ refusal. refusal_in self.now file.now of_lines ≡ Some refusal) }
    {
        if !is_file_name(file) {
            return Err(Refusal::BadName);
        }
        match self.lines(file) {
            None => Err(Refusal::UnknownFile),
            Some(lines) => Ok(lines),
        }
    }
}

/// `NoSuchLine`, unless `at` is from 1 to `last`.
fn refusal_of_number(at: usize, last: usize) -> Option<Refusal>
    ensures { result ≡ refusal_if (not (is_line_number at last)) NoSuchLine }
{
    if at >= 1 && at <= last {
        None
    } else {
        Some(Refusal::NoSuchLine)
    }
}

/// Why a text cannot be a line.
fn refusal_of_text(text: &[u8]) -> Option<Refusal>
    ensures { result ≡ text_refusal text.now }
{
    if text.contains(&b'\n') {
        return Some(Refusal::BadLine);
    }
    if without_trailing_spaces(text).len() > LONGEST_LINE {
        return Some(Refusal::LineTooLong);
    }
    None
}

/// Why the text cannot be inserted as line `at` of these lines.
fn refusal_to_insert(lines: &[Line], at: usize, text: &[u8]) -> Option<Refusal>
    ensures { result ≡ insert_refusal lines.now at text.now }
{
    if let Some(refusal) = refusal_of_number(at, lines.len() + 1) {
        return Some(refusal);
    }
    if let Some(refusal) = refusal_of_text(text) {
        return Some(refusal);
    }
    if lines.len() >= MOST_LINES {
        return Some(Refusal::TooManyLines);
    }
    None
}

/// Why the text cannot replace line `at` of these lines.
fn refusal_to_replace(lines: &[Line], at: usize, text: &[u8]) -> Option<Refusal>
    ensures { result ≡ replace_refusal lines.now at text.now }
{
    if let Some(refusal) = refusal_of_number(at, lines.len()) {
        return Some(refusal);
    }
    refusal_of_text(text)
}
