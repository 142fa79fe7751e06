//! The table of files after an edit.
ghost use Rattle.std.specs.Prelude.{◌≡◌, ◌≤◌, ◌+◌, ◌++◌, [], ◌∷◌, None, false, length, IfOk};
ghost use Rattle.std.specs.Prelude.{IfSome, OnErr, OnOk};
ghost use Rattle.std.specs.Option.{option_to_list};
ghost use Rattle.std.specs.Map.{remove_entry};
ghost use Rattle.std.specs.Str.{bytes_eq};
ghost use Rattle.tangle_files.specs.Lines.{lines_of, trimmed};
ghost use Rattle.tangle_files.specs.Adding.{is_too_long};
ghost use Rattle.tangle_files.specs.Edits.{edit_refusal};
ghost use Rattle.tangle_files.specs.Edited.{edited, with_replaced, with_lines_edited};
ghost use Rattle.tangle_files.specs.Table.{files_of};

use crate::cutting::without_trailing_spaces;
use crate::edits::Edit;
use crate::line::Line;
use indexmap::IndexMap;
use std::alloc::{AllocError, Global};
use std::rc::Rc;

/// Makes an edit that is not refused. The lines of the edited file are changed in place, or in a
/// new list if another table shares the list.
pub(crate) fn make_edit(
    table: &mut IndexMap<Vec<u8>, Rc<Vec<Line>>>,
    edit: &Edit,
) -> Result<(), AllocError>
    requires { edit_refusal (files_of table.old) edit.now ≡ None }
    ensures ok { OnOk result (files_of table.new ≡ edited (files_of table.old) edit.now) }
    ensures err { OnErr result (files_of table.new ≡ files_of table.old) }
{
    let alloc = *table.allocator();
    match edit {
        Edit::Insert { file, at, text } => {
            let line = line_of_text(alloc, text)?;
            splice_lines(table, file, *at - 1, Some(line), *at - 1)
        }
        Edit::Remove { file, at } => splice_lines(table, file, *at - 1, None, *at),
        Edit::Replace { file, at, text } => {
            let line = line_of_text(alloc, text)?;
            splice_lines(table, file, *at - 1, Some(line), *at)
        }
        Edit::Create { file } => create_file(table, file),
        Edit::Discard { file } => {
            discard_file(table, file);
            Ok(())
        }
        Edit::Marks { .. } => Ok(()),
    }
}

/// The line of a text that is not too long.
fn line_of_text(alloc: Global, text: &[u8]) -> Result<Line, AllocError>
    requires { is_too_long (trimmed text.now) ≡ false }
    ensures { IfOk result (λ line. line ≡ trimmed text.now) }
{
    let bytes = without_trailing_spaces(text);
    let shared = Rc::new(alloc, Vec::from_slice(alloc, bytes)?)?;
    Ok(Line::new(shared, 0, bytes.len() as u16))
}

/// Replaces lines `start..end` of the file, at most one, by `line` or by nothing.
#[tactic(auto, using(crate::proofs::TableLemmas::look_ups))]
fn splice_lines(
    table: &mut IndexMap<Vec<u8>, Rc<Vec<Line>>>,
    file: &[u8],
    start: usize,
    line: Option<Line>,
    end: usize,
) -> Result<(), AllocError>
    requires positions { (start ≤ end) × (end ≤ start + 1) }
    requires within { IfSome (lines_of (files_of table.old) file.now)
        (λ lines. end ≤ length lines) }
    ensures ok { OnOk result (files_of table.new
        ≡ with_lines_edited (files_of table.old) file.now
        (λ lines. with_replaced lines start (option_to_list line) end)) }
    ensures err { OnErr result (files_of table.new ≡ files_of table.old) }
{
    match table.get_mut(file) {
        Some(shared) => splice_shared(shared, start, line, end),
        None => Ok(()),
    }
}

/// Replaces lines `start..end`, at most one, by `line` or by nothing. A list that another table
/// shares is not changed, but replaced by a new one.
fn splice_shared(
    shared: &mut Rc<Vec<Line>>,
    start: usize,
    line: Option<Line>,
    end: usize,
) -> Result<(), AllocError>
    requires positions { (start ≤ end) × (end ≤ start + 1) }
    requires within { end ≤ length shared.old.value.items }
    ensures ok { OnOk result (shared.new.value.items
        ≡ with_replaced shared.old.value.items start (option_to_list line) end) }
    ensures err { OnErr result (shared.new.value.items ≡ shared.old.value.items) }
{
    let alloc = *shared.allocator();
    match Rc::get_mut(shared) {
        Some(lines) => splice_in_place(lines, start, line, end),
        None => {
            let lines = splice(alloc, shared.as_slice(), start, line, end)?;
            *shared = Rc::new(alloc, lines)?;
            Ok(())
        }
    }
}

/// Replaces lines `start..end`, at most one, in a list that no other table shares.
fn splice_in_place(
    lines: &mut Vec<Line>,
    start: usize,
    line: Option<Line>,
    end: usize,
) -> Result<(), AllocError>
    requires positions { (start ≤ end) × (end ≤ start + 1) }
    requires within { end ≤ length lines.old.items }
    ensures ok { OnOk result (lines.new.items
        ≡ with_replaced lines.old.items start (option_to_list line) end) }
    ensures err { OnErr result (lines.new.items ≡ lines.old.items) }
{
    match line {
        Some(line) => {
            if start == end {
                lines.insert(start, line)?;
            } else {
                lines[start] = line;
            }
        }
        None => {
            if start < end {
                let _ = lines.remove(start);
            }
        }
    }
    Ok(())
}

/// A new list of the lines, with `start..end` replaced by `line` or by nothing.
fn splice(
    alloc: Global,
    lines: &[Line],
    start: usize,
    line: Option<Line>,
    end: usize,
) -> Result<Vec<Line>, AllocError>
    requires start { start ≤ length lines.now }
    requires end { end ≤ length lines.now }
    ensures { IfOk result
        (λ made. made.items ≡ with_replaced lines.now start (option_to_list line) end) }
{
    let mut made = Vec::with_capacity(alloc, start + 1 + (lines.len() - end))?;
    append_shares(&mut made, &lines[..start])?;
    if let Some(line) = line {
        made.push(line)?;
    }
    append_shares(&mut made, &lines[end..])?;
    Ok(made)
}

/// Appends copies of the lines, which share the texts.
fn append_shares(made: &mut Vec<Line>, lines: &[Line]) -> Result<(), AllocError>
    ensures { OnOk result (made.new.items ≡ made.old.items ++ lines.now) }
{
    for line in lines {
        made.push(line.share()?)?;
    }
    Ok(())
}

/// Adds a file without lines, as the last one.
fn create_file(table: &mut IndexMap<Vec<u8>, Rc<Vec<Line>>>, file: &[u8]) -> Result<(), AllocError>
    requires { lines_of (files_of table.old) file.now ≡ None }
    ensures ok { OnOk result (files_of table.new ≡ files_of table.old ++ (file.now, []) ∷ []) }
    ensures err { OnErr result (files_of table.new ≡ files_of table.old) }
{
    let alloc = *table.allocator();
    let name = Vec::from_slice(alloc, file)?;
    let lines = Rc::new(alloc, Vec::new(alloc))?;
    table.insert(name, lines)?;
    Ok(())
}

/// Removes the file of this name. The number of each later file decreases by one.
fn discard_file(table: &mut IndexMap<Vec<u8>, Rc<Vec<Line>>>, file: &[u8])
    ensures { files_of table.new ≡ remove_entry (bytes_eq file.now) (files_of table.old) }
{
    let _ = table.shift_remove(file);
}
