//! Reads a web, with its inclusions and changes.
ghost use Rattle.std.specs.Prelude.{◌≡◌, ℕ, ◌+◌, ◌^◌, ◌<◌, ◌≤◌, [], ◌∷◌, ◌++◌, length, min, drop};
ghost use Rattle.std.specs.Prelude.{map, true, false, None, IfOk, OnOk};
ghost use Rattle.std.specs.List.{All};
ghost use Rattle.std.specs.Option.{option_copied};
ghost use Rattle.tangle_files.specs.Lines.{FileTable, file_number_or_count};
ghost use Rattle.tangle_files.specs.Roles.{fits};
ghost use Rattle.tangle_lines.specs.ReadingLaw.{ReadsByStep};
ghost use Rattle.tangle_lines.specs.Reading.{State, source_line_limit, inclusion, reads_from};
ghost use Rattle.tangle_lines.specs.Reading.{before_reads, change_number, changes_in, source_of};
ghost use Rattle.tangle_lines.specs.Reading.{begins, change_here, unequal_front, unequal_lines};
ghost use Rattle.tangle_lines.specs.Reading.{mismatch_faults, unused_faults, change_lines};
ghost use Rattle.tangle_lines.specs.Reading.{IsShort};
ghost use Rattle.tangle_lines.specs.Waiting.{IsPlain, IsUnchanged, awaited};

use crate::changes::{Change, changes_of};
use crate::inclusion::included_name;
use crate::source::{Source, SourceLine};
use crate::waiting::{OpenFile, Waiting, WaitingLine};
use std::alloc::Global;
use tangle_faults::{Fault, FaultKind, add_fault};
use tangle_files::{Files, Line, Roles};
use tangle_streams::NoMemory;

/// The most files that may be open at once, the web included.
const DEPTH_LIMIT: u8 = 10;

/// The most lines that are read.
const SOURCE_LINE_LIMIT: usize = 2_000_000;

/// The number of the file of this name; the number of all files, which no file has, where there is
/// none.
fn file_number_or_count(files: &Files, name: &[u8]) -> u16
    ensures { result ≡ file_number_or_count files.now name.now }
{
    match files.find(name) {
        Some(number) => number,
        None => files.count() as u16,
    }
}

/// Reads the web of these roles with its change file. Each inclusion is replaced by the lines of
/// its file, and the lines that a change takes are replaced by its new lines. Changes are used in
/// the order of the change file. A change is used at a line that equals its first old line, before
/// this line is tested for an inclusion. These are CWEB's rules of `@i` and of change files: see
/// docs/reading.md.
///
/// # Errors
///
/// `NoMemory` where an allocation failed. Mistakes in the files are faults of the source.
pub fn read_source<'a>(
    alloc: Global,
    files: &'a Files,
    roles: &Roles,
) -> Result<Source<'a>, NoMemory>
    requires { fits files.now roles.now ≡ true }
    ensures { IfOk result (λ s. s ≡ source_of files.entry.now roles.now) }
{
    let mut faults = Vec::new(alloc);
    let (change_file, changes) = changes_of_file(alloc, files, roles.change(), &mut faults)?;
    let web = file_number_or_count(files, roles.web());
    let mut waiting = Waiting::new(alloc, OpenFile::new(web, files.lines_at(web), false, 1));
    let lines = read_on(
        alloc,
        files,
        change_file,
        changes.as_slice(),
        &mut waiting,
        &mut faults,
    )?;
    Ok(Source {
        files,
        lines,
        faults,
    })
}

/// Reading makes its first step, and then reads on in the state after it. So the bound on the
/// number of steps in the definition, which is never used up, does not change what reading gives.
pub fn reading_goes_step_by_step()
    ensures { (files : FileTable) (change_file : ℕ) (state : State)
        → ReadsByStep files change_file state }
{}

/// Opens the file that an inclusion names, or adds the fault of the inclusion.
fn include<'a, 'c>(
    alloc: Global,
    files: &'a Files,
    waiting: &mut Waiting<'a, 'c>,
    faults: &mut Vec<Fault>,
    line: &WaitingLine<'a>,
    name: &[u8],
) -> Result<(), NoMemory>
    ensures opened { OnOk result
        (waiting.new ≡ (inclusion files.entry.now line.now name.now).0 ++ waiting.old) }
    ensures faults { OnOk result
        (faults.new.items ≡ faults.old.items ++ (inclusion files.entry.now line.now name.now).1) }
{
    let origin = line.origin;
    let file = files.name_at(origin.file);
    if name.is_empty() {
        return add_fault(alloc, FaultKind::IncludeNoName, file, origin.line, faults);
    }
    match files.find(name) {
        None => {
            let kind = FaultKind::IncludeMissing;
            faults.push(Fault::about(alloc, kind, file, origin.line, name)?)?;
            Ok(())
        }
        Some(_) if line.depth >= DEPTH_LIMIT => {
            add_fault(alloc, FaultKind::IncludeTooDeep, file, origin.line, faults)
        }
        Some(number) => {
            let lines = files.lines_at(number);
            waiting.open(OpenFile::new(number, lines, line.is_changed, line.depth + 1))?;
            Ok(())
        }
    }
}

/// Reads a line that no change takes: a source line or an inclusion.
fn read_plain<'a, 'c>(
    alloc: Global,
    files: &'a Files,
    line: &WaitingLine<'a>,
    waiting: &mut Waiting<'a, 'c>,
    lines: &mut Vec<SourceLine<'a>>,
    faults: &mut Vec<Fault>,
) -> Result<(), NoMemory>
    ensures read { OnOk result
        (IsPlain files.entry.now line.now waiting.old waiting.new lines.old.items lines.new.items
        faults.old.items faults.new.items) }
    ensures one { OnOk result (length lines.new.items ≤ length lines.old.items + 1) }
    ensures short { OnOk result (All IsShort lines.old.items → All IsShort lines.new.items) }
{
    match included_name(line.line.bytes()) {
        Some(name) => include(alloc, files, waiting, faults, line, name),
        None => {
            lines.push(SourceLine::new(line.line, line.origin, line.is_changed))?;
            Ok(())
        }
    }
}

/// Whether the line equals the first old line of the change.
fn begins_change(change: &Change<'_>, line: &[u8]) -> bool
    ensures { result ≡ begins change.now.old_lines line.now }
{
    match change.old_lines() {
        [] => false,
        [first, ..] => line == first.bytes(),
    }
}

/// The next change, if it is used at this line.
fn change_at<'a, 'c>(changes: &'c [Change<'a>], line: &WaitingLine<'a>) -> Option<&'c Change<'a>>
    ensures { option_copied result ≡ change_here changes.entry.now line.now }
{
    match changes {
        [] => None,
        [change, ..] => {
            if !line.is_changed && begins_change(change, line.line.bytes()) {
                Some(change)
            } else {
                None
            }
        }
    }
}

/// The first old line of the next change, which is used at a line that equals it. `None` where no
/// change can be used: there is none left, or the lines are changed.
pub(crate) fn awaited_line<'c>(changes: &'c [Change<'_>], is_changed: bool) -> Option<&'c [u8]>
    ensures { option_copied result ≡ awaited changes.entry.now is_changed }
{
    let [next, ..] = changes else {
        return None;
    };
    match next.old_lines() {
        [first, ..] if !is_changed => Some(first.bytes()),
        _ => None,
    }
}

/// Whether a line becomes a source line unchanged: it is no inclusion, and the next change is not
/// used at it.
pub(crate) fn is_source_line(awaited: Option<&[u8]>, line: &[u8]) -> bool
    ensures { result ≡ true → IsUnchanged (option_copied awaited.entry) line.now }
{
    match awaited {
        Some(old) if line == old => false,
        _ => included_name(line).is_none(),
    }
}

/// The lines that a change took, and how they compare with its old lines.
#[derive(Clone, Copy)]
struct MatchedLines {
    /// The number of lines that it took.
    lines: usize,
    /// The number of old lines for which there was no line, or one that differs.
    unequal: usize,
}

/// Takes one line and compares it with an old line of a change.
fn take_one<'a, 'c>(old: &Line, waiting: &mut Waiting<'a, 'c>) -> MatchedLines
    ensures lines { result.lines ≡ min 1 (length waiting.old) }
    ensures unequal { result.unequal ≡ unequal_front old.now waiting.old }
    ensures rest { waiting.new ≡ drop 1 waiting.old }
{
    match waiting.take() {
        None => MatchedLines {
            lines: 0,
            unequal: 1,
        },
        Some(line) => MatchedLines {
            lines: 1,
            unequal: if line.line.bytes() == old.bytes() {
                0
            } else {
                1
            },
        },
    }
}

/// Takes a line for each old line of a change, and compares them.
fn take_old<'a, 'c>(old_lines: &[&'a Line], waiting: &mut Waiting<'a, 'c>) -> MatchedLines
    ensures lines { result.lines ≡ min (length old_lines.now) (length waiting.old) }
    ensures unequal { result.unequal ≡ unequal_lines (map (λ l. l.now) old_lines.now) waiting.old }
    ensures rest { waiting.new ≡ drop (length old_lines.now) waiting.old }
{
    let mut lines = 0;
    let mut unequal = 0;
    let mut rest = old_lines;
    while let [old, others @ ..] = rest {
        let taken = take_one(old, waiting);
        lines += taken.lines;
        unequal += taken.unequal;
        rest = others;
    }
    MatchedLines { lines, unequal }
}

fn after_first<T>(items: &[T]) -> &[T]
    ensures { result.now ≡ drop 1 items.now }
{
    match items {
        [] => items,
        [_, others @ ..] => others,
    }
}

/// Adds the fault of a change some of whose old lines did not match, with their number.
fn add_mismatch_fault(
    alloc: Global,
    file: &[u8],
    at: u32,
    unequal: usize,
    faults: &mut Vec<Fault>,
) -> Result<(), NoMemory>
    ensures { OnOk result (faults.new.items ≡ faults.old.items
        ++ mismatch_faults (record { file = file.now; line = at }) unequal) }
{
    if unequal != 0 {
        faults.push(Fault::counting(alloc, FaultKind::ChangeMismatch, file, at, unequal)?)?;
    }
    Ok(())
}

/// Replaces the lines that a change takes, from this one on, by its new lines.
fn use_change<'a, 'c>(
    change_file: u16,
    change: &'c Change<'a>,
    line: &WaitingLine<'a>,
    waiting: &mut Waiting<'a, 'c>,
) -> Result<MatchedLines, NoMemory>
    requires { 0 < length change.now.old_lines }
    ensures lines { IfOk result (λ m.
        m.lines ≡ min (length change.entry.now.old_lines) (length (line.now ∷ waiting.old))) }
    ensures small { IfOk result (λ m. m.lines < 2 ^ 63) }
    ensures unequal { IfOk result (λ m.
        m.unequal ≡ unequal_lines (drop 1 change.entry.now.old_lines) waiting.old) }
    ensures rest { IfOk result (λ m.
        waiting.new ≡ change_lines change_file line.now.depth change.entry.now.new_lines
        ++ drop m.lines (line.now ∷ waiting.old)) }
{
    let further = take_old(after_first(change.old_lines()), waiting);
    waiting.open(OpenFile::of_change(change_file, change.new_lines(), line.depth))?;
    Ok(MatchedLines {
        lines: further.lines + 1,
        unequal: further.unequal,
    })
}

/// Adds the fault of the first change that was not used, if there is one.
fn add_unused_fault(
    alloc: Global,
    files: &Files,
    change_file: u16,
    changes: &[Change<'_>],
    faults: &mut Vec<Fault>,
) -> Result<(), NoMemory>
    ensures { OnOk result (faults.new.items ≡ faults.old.items
        ++ unused_faults files.now change_file changes.now) }
{
    match changes {
        [] => Ok(()),
        [change, ..] => {
            let file = files.name_at(change_file);
            add_fault(alloc, FaultKind::ChangeUnused, file, change.at(), faults)
        }
    }
}

/// The number of the lines of all files, or the most that are read.
fn line_count(files: &Files) -> usize {
    let mut count = 0usize;
    for number in 0..files.count() {
        count = count.saturating_add(files.lines_at(number as u16).len());
    }
    count.min(SOURCE_LINE_LIMIT)
}

/// Reads the lines that wait. Its faults are added to the given ones.
fn read_on<'a, 'c>(
    alloc: Global,
    files: &'a Files,
    change_file: u16,
    changes: &'c [Change<'a>],
    waiting: &mut Waiting<'a, 'c>,
    faults: &mut Vec<Fault>,
) -> Result<Vec<SourceLine<'a>>, NoMemory>
    ensures read { IfOk result
        (λ lines. before_reads (record { lines = []; faults = faults.old.items })
        (reads_from files.entry.now change_file
        (record { waiting = waiting.old; changes = changes.entry.now; taken = 0 }))
        ≡ record { lines = lines.items; faults = faults.new.items }) }
    ensures limit { IfOk result (λ lines. length lines.items ≤ source_line_limit) }
    ensures short { IfOk result (λ lines. All IsShort lines.items) }
{
    let mut lines = Vec::with_capacity(alloc, line_count(files))?;
    let mut changes = changes;
    let mut taken = 0usize;
    while let Some(line) = waiting.take() {
        if taken >= SOURCE_LINE_LIMIT {
            let origin = line.origin;
            let file = files.name_at(origin.file);
            add_fault(alloc, FaultKind::SourceTooLong, file, origin.line, faults)?;
            return Ok(lines);
        }
        match change_at(changes, &line) {
            Some(change) => {
                let matched = use_change(change_file, change, &line, waiting)?;
                let file = files.name_at(change_file);
                add_mismatch_fault(alloc, file, change.at(), matched.unequal, faults)?;
                taken += matched.lines;
                changes = after_first(changes);
            }
            None => {
                read_plain(alloc, files, &line, waiting, &mut lines, faults)?;
                taken += 1;
                taken += waiting.take_plain(changes, SOURCE_LINE_LIMIT - taken, &mut lines)?;
            }
        }
    }
    add_unused_fault(alloc, files, change_file, changes, faults)?;
    Ok(lines)
}

/// The changes of the change file, if there is one, and its number.
fn changes_of_file<'a>(
    alloc: Global,
    files: &'a Files,
    name: Option<&[u8]>,
    faults: &mut Vec<Fault>,
) -> Result<(u16, Vec<Change<'a>>), NoMemory>
    ensures number { IfOk result
        (λ r. r.0 ≡ change_number files.entry.now (option_copied name.entry)) }
    ensures changes { IfOk result
        (λ r. r.1.items ≡ (changes_in files.entry.now (option_copied name.entry)).changes) }
    ensures faults { OnOk result
        (faults.new.items ≡ faults.old.items
        ++ (changes_in files.entry.now (option_copied name.entry)).faults) }
{
    match name {
        None => Ok((0, Vec::new(alloc))),
        Some(name) => {
            let number = file_number_or_count(files, name);
            let lines = files.lines_at(number);
            let changes = changes_of(alloc, files.name_at(number), lines, faults)?;
            Ok((number, changes))
        }
    }
}
