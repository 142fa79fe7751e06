//! The open files, as one list of the lines that wait to be read.
ghost use Rattle.std.specs.Prelude.{◌≡◌, ◌+◌, ◌≤◌, ◌<◌, ℕ, List, [], ◌∷◌, ◌++◌, length, map};
ghost use Rattle.std.specs.Prelude.{min, slice_index_or, IfSome, IfNone, IfOk, OnOk};
ghost use Rattle.std.specs.List.{All};
ghost use Rattle.std.specs.Option.{option_copied};
ghost use Rattle.tangle_files.specs.Adding.{longest_line, most_lines};
ghost use Rattle.tangle_lines.specs.Reading.{WaitingLine as WaitingLineRead};
ghost use Rattle.tangle_lines.specs.Reading.{waiting_lines, change_lines, IsShort};
ghost use Rattle.tangle_lines.specs.Waiting.{IsUnchanged, PassesOn};

use crate::changes::Change;
use crate::origin::Origin;
use crate::reading::{awaited_line, is_source_line};
use crate::source::SourceLine;
use std::alloc::Global;
use std::marker::Model;
use std::mem;
use tangle_files::Line;
use tangle_streams::NoMemory;

/// A line that waits to be read. It is changed if it is from the change file, or from a file that a
/// changed line includes. The depth of the web's lines is 1, and that of an included file's lines
/// is one more than that of the line which includes it.
#[derive(Drop)]
pub(crate) struct WaitingLine<'a> {
    pub(crate) line: &'a Line,
    pub(crate) origin: Origin,
    pub(crate) is_changed: bool,
    pub(crate) depth: u8,
}

impl<'a> Model for WaitingLine<'a> {
    ghost use Rattle.tangle_lines.specs.Reading.{WaitingLine as WaitingLineRead};

    ghost Value = { WaitingLineRead };

    ghost view = { λ l. record {
      bytes = l.line.now;
      origin = l.origin;
      changed = l.is_changed;
      depth = l.depth;
    } };
}

/// The lines of an open file that are not yet read.
#[derive(Clone, Copy)]
pub enum Rest<'a, 'c> {
    /// Lines of a file, and the number of those before them.
    OfFile(&'a [Line], u32),
    /// The new lines of a change, with their numbers.
    OfChange(&'c [(u32, &'a Line)]),
}

/// An open file, of which some lines wait to be read.
#[derive(Drop)]
pub(crate) struct OpenFile<'a, 'c> {
    file: u16,
    rest: Rest<'a, 'c>,
    is_changed: bool,
    depth: u8,
}

impl<'a, 'c> Model for OpenFile<'a, 'c> {
    ghost use Rattle.std.specs.Prelude.{List};
    ghost use Rattle.tangle_lines.specs.Reading.{WaitingLine as WaitingLineRead};
    ghost use Rattle.tangle_lines.specs.Waiting.{rest_lines, IsWithinLimit};

    ghost Value = { List WaitingLineRead };

    ghost view = { λ f. rest_lines f.file f.is_changed f.depth f.rest };

    ghost invariant = { λ f. IsWithinLimit f.rest };
}

impl<'a, 'c> OpenFile<'a, 'c> {
    /// A file that was just opened.
    pub(crate) fn new(file: u16, lines: &'a [Line], is_changed: bool, depth: u8) -> Self
        requires { length lines.now ≤ most_lines }
        ensures { result ≡ waiting_lines file is_changed depth 1 lines.entry.now }
    {
        OpenFile {
            file,
            rest: Rest::OfFile(lines, 0),
            is_changed,
            depth,
        }
    }

    /// The new lines of a change, as an open file.
    pub(crate) fn of_change(file: u16, lines: &'c [(u32, &'a Line)], depth: u8) -> Self
        ensures { result ≡ change_lines file depth (map (λ l. (l.0, l.1.now)) lines.entry.now) }
    {
        OpenFile {
            file,
            rest: Rest::OfChange(lines),
            is_changed: true,
            depth,
        }
    }

    /// Takes the next line, if there is one.
    fn take(&mut self) -> Option<WaitingLine<'a>>
        ensures front { IfSome result (λ w. self.old ≡ w ∷ self.new) }
        ensures none { IfNone result ((self.old ≡ []) × (self.new ≡ [])) }
    {
        match self.rest {
            Rest::OfFile(lines, read) => match lines {
                [] => None,
                [line, others @ ..] => {
                    self.rest = Rest::OfFile(others, read + 1);
                    Some(WaitingLine {
                        line,
                        origin: Origin {
                            file: self.file,
                            line: read + 1,
                        },
                        is_changed: self.is_changed,
                        depth: self.depth,
                    })
                }
            },
            Rest::OfChange(lines) => match lines {
                [] => None,
                [(number, line), others @ ..] => {
                    self.rest = Rest::OfChange(others);
                    Some(WaitingLine {
                        line,
                        origin: Origin {
                            file: self.file,
                            line: *number,
                        },
                        is_changed: true,
                        depth: self.depth,
                    })
                }
            },
        }
    }

    /// Takes source lines up to an inclusion, a line that a change takes, the end of the file or
    /// the limit. Returns their number.
    fn take_plain(
        &mut self,
        changes: &[Change<'_>],
        limit: usize,
        lines: &mut Vec<SourceLine<'a>>,
    ) -> Result<usize, NoMemory>
        ensures passed { IfOk result (λ n. (rest : List WaitingLineRead) →
            PassesOn changes.now lines.old.items (self.old ++ rest) n lines.new.items
            (self.new ++ rest)) }
        ensures count { IfOk result (λ n. length lines.new.items ≡ length lines.old.items + n) }
        ensures short { OnOk result (All IsShort lines.old.items → All IsShort lines.new.items) }
        ensures limit { IfOk result (λ n. n ≤ limit) }
    {
        let Rest::OfFile(file_lines, read) = self.rest else {
            return Ok(0);
        };
        let count = plain_count(awaited_line(changes, self.is_changed), file_lines, limit);
        for index in 0..count {
            let origin = Origin {
                file: self.file,
                line: read + index as u32 + 1,
            };
            lines.push(SourceLine::new(&file_lines[index], origin, self.is_changed))?;
        }
        self.rest = Rest::OfFile(&file_lines[count..], read + count as u32);
        Ok(count)
    }
}

/// How many of the lines, at most the limit, become source lines unchanged before one that does not.
fn plain_count(awaited: Option<&[u8]>, lines: &[Line], limit: usize) -> usize
    ensures limit { result ≤ min (length lines.now) limit }
    ensures plain { (k : ℕ) → k < result →
        IsUnchanged (option_copied awaited.entry) (slice_index_or lines.now k []) }
    ensures short { (k : ℕ) → k < result → length (slice_index_or lines.now k []) ≤ longest_line }
{
    let most = lines.len().min(limit);
    let mut count = 0;
    while count < most && is_source_line(awaited, lines[count].bytes()) {
        count += 1;
    }
    count
}

/// The open files: the one that is read first, and those below it, of which the last one is read
/// next.
#[derive(Drop)]
pub(crate) struct Waiting<'a, 'c> {
    top: OpenFile<'a, 'c>,
    below: Vec<OpenFile<'a, 'c>>,
}

impl<'a, 'c> Model for Waiting<'a, 'c> {
    ghost use Rattle.std.specs.Prelude.{List, ◌++◌};
    ghost use Rattle.tangle_lines.specs.Reading.{WaitingLine as WaitingLineRead};
    ghost use Rattle.tangle_lines.specs.Waiting.{stacked};

    ghost Value = { List WaitingLineRead };

    ghost view = { λ w. w.top ++ stacked w.below.items };
}

impl<'a, 'c> Waiting<'a, 'c> {
    /// The lines of one file.
    pub(crate) fn new(alloc: Global, file: OpenFile<'a, 'c>) -> Self
        ensures { result ≡ file.entry }
    {
        Waiting {
            top: file,
            below: Vec::new(alloc),
        }
    }

    /// Opens a file, which is read before the others.
    #[tactic(auto, using(crate::proofs::WaitingLemmas::stacked_push))]
    pub(crate) fn open(&mut self, file: OpenFile<'a, 'c>) -> Result<(), NoMemory>
        ensures { OnOk result (self.new ≡ file.entry ++ self.old) }
    {
        let before = mem::replace(&mut self.top, file);
        self.below.push(before)?;
        Ok(())
    }

    /// Takes the first line that waits, if there is one.
    #[tactic(auto, using(crate::proofs::WaitingLemmas::stacked_push))]
    pub(crate) fn take(&mut self) -> Option<WaitingLine<'a>>
        ensures front { IfSome result (λ w. self.old ≡ w ∷ self.new) }
        ensures none { IfNone result ((self.old ≡ []) × (self.new ≡ [])) }
    {
        let mut line = self.top.take();
        while line.is_none() {
            self.top = self.below.pop()?;
            line = self.top.take();
        }
        line
    }

    /// Takes source lines from the file that is read first, up to an inclusion, a line that a
    /// change takes, the end of the file or the limit. Returns their number. Most of a web's lines
    /// are taken here.
    pub(crate) fn take_plain(
        &mut self,
        changes: &[Change<'_>],
        limit: usize,
        lines: &mut Vec<SourceLine<'a>>,
    ) -> Result<usize, NoMemory>
        ensures passed { IfOk result (λ n.
            PassesOn changes.now lines.old.items self.old n lines.new.items self.new) }
        ensures count { IfOk result (λ n. length lines.new.items ≡ length lines.old.items + n) }
        ensures short { OnOk result (All IsShort lines.old.items → All IsShort lines.new.items) }
        ensures limit { IfOk result (λ n. n ≤ limit) }
    {
        self.top.take_plain(changes, limit, lines)
    }
}
