//! The changes of a change file.
ghost use Rattle.std.specs.Prelude.{◌≡◌, ◌≤◌, [], ◌∷◌, ◌++◌, length, map, IfOk, OnOk, IsTrue};
ghost use Rattle.std.specs.Prelude.{◌↔◌};
ghost use Rattle.std.specs.List.{list_all};
ghost use Rattle.tangle_files.specs.Adding.{most_lines};
ghost use Rattle.tangle_lines.specs.Bytes.{is_white};
ghost use Rattle.tangle_lines.specs.Changes.{line_kind_of, phase_after, closed, at_end};
ghost use Rattle.tangle_lines.specs.Changes.{changes_of as changes_found};
ghost use Rattle.tangle_lines.specs.declared.changes.ChangePhase.TheVariants.{Outside, InOld};
ghost use Rattle.tangle_lines.specs.declared.changes.ChangePhase.TheVariants.{InNew};

use crate::inclusion::WHITE;
use bstr::ByteSlice;
use std::alloc::Global;
use std::marker::Model;
use tangle_faults::{Fault, FaultKind, add_fault};
use tangle_files::Line;
use tangle_streams::NoMemory;

/// The kind of a line of a change file, by its first two bytes.
#[derive(Clone, Copy, Debug, PartialEq, Eq)]
pub enum LineKind {
    /// `@x`
    BeginsChange,
    /// `@y`
    BeginsNew,
    /// `@z`
    EndsChange,
    IsText,
}

/// A change, with the number of its `@x` line. It borrows its lines from the change file.
#[derive(Drop)]
pub struct Change<'a> {
    at: u32,
    old_lines: Vec<&'a Line>,
    new_lines: Vec<(u32, &'a Line)>,
}

impl<'a> Model for Change<'a> {
    ghost use Rattle.std.specs.Prelude.{map};
    ghost use Rattle.tangle_lines.specs.Change.{Change as ChangeFound};

    ghost Value = { ChangeFound };

    ghost view = { λ c. record {
      at = c.at;
      old_lines = map (λ l. l.now) c.old_lines.items;
      new_lines = map (λ l. (l.0, l.1.now)) c.new_lines.items;
    } };
}

impl<'a> Change<'a> {
    fn new(alloc: Global, at: u32) -> Self
        ensures { result ≡ record { at = at; old_lines = []; new_lines = [] } }
    {
        Change {
            at,
            old_lines: Vec::new(alloc),
            new_lines: Vec::new(alloc),
        }
    }

    /// Adds an old line.
    fn add_old(&mut self, line: &'a Line) -> Result<(), NoMemory>
        ensures { OnOk result (self.new ≡ record self.old
            { old_lines = self.old.old_lines ++ line.entry.now ∷ [] }) }
    {
        self.old_lines.push(line)?;
        Ok(())
    }

    /// Adds a new line with its number.
    fn add_new(&mut self, number: u32, line: &'a Line) -> Result<(), NoMemory>
        ensures { OnOk result (self.new ≡ record self.old
            { new_lines = self.old.new_lines ++ (number, line.entry.now) ∷ [] }) }
    {
        self.new_lines.push((number, line))?;
        Ok(())
    }

    /// The number of the `@x` line of the change.
    pub(crate) fn at(&self) -> u32
        ensures { result ≡ self.now.at }
    {
        self.at
    }

    /// The lines that the change replaces.
    pub(crate) fn old_lines(&self) -> &[&'a Line]
        ensures { map (λ l. l.now) result.now ≡ self.now.old_lines }
    {
        self.old_lines.as_slice()
    }

    /// The lines that replace the old ones, with their numbers in the change file.
    pub(crate) fn new_lines(&self) -> &[(u32, &'a Line)]
        ensures { map (λ l. (l.0, l.1.now)) result.now ≡ self.now.new_lines }
    {
        self.new_lines.as_slice()
    }

    fn is_empty(&self) -> bool
        ensures { IsTrue result ↔ (self.now.old_lines ≡ []) }
    {
        self.old_lines.is_empty()
    }
}

/// A line of a change file, with its number and its kind.
#[derive(Clone, Copy)]
struct ChangeLine<'a> {
    number: u32,
    line: &'a Line,
    kind: LineKind,
}

/// The part of a change file to which the next line belongs.
#[derive(Drop)]
pub enum ChangePhase<'a> {
    Outside,
    InOld(Change<'a>),
    InNew(Change<'a>),
}

/// Reads the changes of the change file of this name. Its faults are added as they are found.
pub(crate) fn changes_of<'a>(
    alloc: Global,
    file: &[u8],
    lines: &'a [Line],
    faults: &mut Vec<Fault>,
) -> Result<Vec<Change<'a>>, NoMemory>
    requires { length lines.now ≤ most_lines }
    ensures changes { IfOk result
        (λ cs. cs.items ≡ (changes_found file.now lines.entry.now).changes) }
    ensures faults { OnOk result
        (faults.new.items ≡ faults.old.items ++ (changes_found file.now lines.entry.now).faults) }
{
    let mut changes = Vec::new(alloc);
    let mut phase = ChangePhase::Outside;
    let mut number = 0u32;
    let mut rest = lines;
    while let [line, others @ ..] = rest {
        number += 1;
        let kind = line_kind(line.bytes());
        let line = ChangeLine { number, line, kind };
        phase = next_phase(alloc, file, phase, &line, &mut changes, faults)?;
        rest = others;
    }
    finish(alloc, file, phase, &mut changes, faults)?;
    Ok(changes)
}

/// The phase after a line. The change and the fault that end with this line are added.
fn next_phase<'a>(
    alloc: Global,
    file: &[u8],
    phase: ChangePhase<'a>,
    line: &ChangeLine<'a>,
    changes: &mut Vec<Change<'a>>,
    faults: &mut Vec<Fault>,
) -> Result<ChangePhase<'a>, NoMemory>
    ensures phase { IfOk result
        (λ p. p ≡ (phase_after file.now phase.entry line.now).0) }
    ensures changes { OnOk result
        (changes.new.items ≡ changes.old.items
        ++ (phase_after file.now phase.entry line.now).1.changes) }
    ensures faults { OnOk result
        (faults.new.items ≡ faults.old.items
        ++ (phase_after file.now phase.entry line.now).1.faults) }
{
    match phase {
        ChangePhase::Outside => next_outside(alloc, file, line, faults),
        ChangePhase::InOld(change) => next_in_old(alloc, file, change, line, faults),
        ChangePhase::InNew(change) => next_in_new(alloc, file, change, line, changes, faults),
    }
}

/// The phase after a line outside of changes. A fault of this line is added.
fn next_outside<'a>(
    alloc: Global,
    file: &[u8],
    line: &ChangeLine<'_>,
    faults: &mut Vec<Fault>,
) -> Result<ChangePhase<'a>, NoMemory>
    ensures phase { IfOk result (λ p. p ≡ (phase_after file.now Outside line.now).0) }
    ensures faults { OnOk result
        (faults.new.items ≡ faults.old.items
        ++ (phase_after file.now Outside line.now).1.faults) }
{
    match line.kind {
        LineKind::BeginsChange => Ok(ChangePhase::InOld(Change::new(alloc, line.number))),
        LineKind::IsText => Ok(ChangePhase::Outside),
        LineKind::BeginsNew | LineKind::EndsChange => {
            add_fault(alloc, FaultKind::StrayMark, file, line.number, faults)?;
            Ok(ChangePhase::Outside)
        }
    }
}

/// The phase after a line among the old lines of a change. A fault of this line is added.
fn next_in_old<'a>(
    alloc: Global,
    file: &[u8],
    change: Change<'a>,
    line: &ChangeLine<'a>,
    faults: &mut Vec<Fault>,
) -> Result<ChangePhase<'a>, NoMemory>
    ensures phase { IfOk result
        (λ p. p ≡ (phase_after file.now (InOld change.entry) line.now).0) }
    ensures faults { OnOk result
        (faults.new.items ≡ faults.old.items
        ++ (phase_after file.now (InOld change.entry) line.now).1.faults) }
{
    let mut change = change;
    match line.kind {
        LineKind::BeginsChange => {
            add_fault(alloc, FaultKind::MissingY, file, change.at, faults)?;
            Ok(ChangePhase::InOld(Change::new(alloc, line.number)))
        }
        LineKind::EndsChange => {
            add_fault(alloc, FaultKind::MissingY, file, change.at, faults)?;
            Ok(ChangePhase::Outside)
        }
        LineKind::BeginsNew => {
            if change.is_empty() {
                add_fault(alloc, FaultKind::EmptyOld, file, change.at, faults)?;
            }
            Ok(ChangePhase::InNew(change))
        }
        LineKind::IsText => {
            if !change.is_empty() || !is_blank(line.line.bytes()) {
                change.add_old(line.line)?;
            }
            Ok(ChangePhase::InOld(change))
        }
    }
}

/// The phase after a line among the new lines of a change. If the change ends here it is added, and
/// so is a fault of this line.
fn next_in_new<'a>(
    alloc: Global,
    file: &[u8],
    change: Change<'a>,
    line: &ChangeLine<'a>,
    changes: &mut Vec<Change<'a>>,
    faults: &mut Vec<Fault>,
) -> Result<ChangePhase<'a>, NoMemory>
    ensures phase { IfOk result
        (λ p. p ≡ (phase_after file.now (InNew change.entry) line.now).0) }
    ensures changes { OnOk result
        (changes.new.items ≡ changes.old.items
        ++ (phase_after file.now (InNew change.entry) line.now).1.changes) }
    ensures faults { OnOk result
        (faults.new.items ≡ faults.old.items
        ++ (phase_after file.now (InNew change.entry) line.now).1.faults) }
{
    let mut change = change;
    match line.kind {
        LineKind::BeginsChange => {
            add_fault(alloc, FaultKind::MissingZ, file, change.at, faults)?;
            keep(change, changes)?;
            Ok(ChangePhase::InOld(Change::new(alloc, line.number)))
        }
        LineKind::BeginsNew => {
            add_fault(alloc, FaultKind::StrayMark, file, line.number, faults)?;
            Ok(ChangePhase::InNew(change))
        }
        LineKind::EndsChange => {
            keep(change, changes)?;
            Ok(ChangePhase::Outside)
        }
        LineKind::IsText => {
            change.add_new(line.number, line.line)?;
            Ok(ChangePhase::InNew(change))
        }
    }
}

/// Ends the change that is open at the end of the change file, and adds its fault.
fn finish<'a>(
    alloc: Global,
    file: &[u8],
    phase: ChangePhase<'a>,
    changes: &mut Vec<Change<'a>>,
    faults: &mut Vec<Fault>,
) -> Result<(), NoMemory>
    ensures changes { OnOk result
        (changes.new.items ≡ changes.old.items ++ (at_end file.now phase.entry).changes) }
    ensures faults { OnOk result
        (faults.new.items ≡ faults.old.items ++ (at_end file.now phase.entry).faults) }
{
    match phase {
        ChangePhase::Outside => Ok(()),
        ChangePhase::InOld(change) => {
            let at = change.at;
            add_fault(alloc, FaultKind::MissingY, file, at, faults)
        }
        ChangePhase::InNew(change) => {
            let at = change.at;
            keep(change, changes)?;
            add_fault(alloc, FaultKind::MissingZ, file, at, faults)
        }
    }
}

/// Adds a finished change. A change without old lines is dropped.
fn keep<'a>(change: Change<'a>, changes: &mut Vec<Change<'a>>) -> Result<(), NoMemory>
    ensures { OnOk result (changes.new.items ≡ changes.old.items ++ closed change.entry) }
{
    if !change.is_empty() {
        changes.push(change)?;
    }
    Ok(())
}

/// The kind of a line.
fn line_kind(line: &[u8]) -> LineKind
    ensures { result ≡ line_kind_of line.now }
{
    match line {
        [b'@', b'x' | b'X', ..] => LineKind::BeginsChange,
        [b'@', b'y' | b'Y', ..] => LineKind::BeginsNew,
        [b'@', b'z' | b'Z', ..] => LineKind::EndsChange,
        _ => LineKind::IsText,
    }
}

/// Whether the line is empty or has only white space.
fn is_blank(line: &[u8]) -> bool
    ensures { result ≡ list_all is_white line.now }
{
    line.find_not_byteset(WHITE).is_none()
}
