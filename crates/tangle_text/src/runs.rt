//! Runs: ranges of a line that consist of words, signs, quoted texts and single spaces.
ghost use Rattle.std.specs.Prelude.{◌≡◌, ◌==◌, ◌≤◌, ◌<◌, ◌+◌, ◌-◌, ◌^◌, length, take, drop, get_or};
ghost use Rattle.std.specs.Prelude.{true, false, slice_get, ℕ, List, [], if◌then◌else◌, refl};
ghost use Rattle.std.specs.Prelude.{◌||◌, IfSome, IfNone};
ghost use Rattle.std.specs.List.{prefix_len};
ghost use Rattle.tangle_files.specs.Bytes.{space};
ghost use Rattle.tangle_text.specs.Bytes as spec;
ghost use Rattle.tangle_text.specs.Bytes.{is_word_byte as is_word};
ghost use Rattle.tangle_text.specs.Regions.{is_ordinary};
ghost use Rattle.tangle_text.specs.Runs as runs;
ghost use Rattle.tangle_text.specs.Runs.{parts_of, part_more, run_size, quote_size, passing, is_number_byte};

use crate::bytes::{holds, holds_word_byte};
use crate::classes::{is_ordinary, is_plain, is_word_byte};
use crate::reader::byte_of;
use crate::spans::Span;
use std::marker::Model;

/// Whether a slash directly before this column opens a comment.
#[inline(always)]
fn opens_comment(bytes: &[u8], column: usize) -> bool
    ensures { result ≡ (spec.holds spec.asterisk (slice_get bytes.now column)
        || spec.holds spec.slash (slice_get bytes.now column)) }
{
    let next = byte_of(bytes, column);
    holds(b'*', next) || holds(b'/', next)
}

/// Whether a plain byte, or a slash that opens no comment, is at this column.
#[tactic(auto, using(crate::proofs::RunPartLemmas::single_at))]
#[inline(always)]
fn is_single(bytes: &[u8], column: usize) -> bool
    requires { column ≤ length bytes.now }
    ensures { result ≡ runs.begins_single (drop column bytes.now) }
{
    match byte_of(bytes, column) {
        Some(byte) if is_plain(byte) => true,
        Some(b'/') => !opens_comment(bytes, column + 1),
        _ => false,
    }
}

/// Whether a run may go over the byte at this column, which is not plain.
#[inline(always)]
fn single_goes_on(bytes: &[u8], column: usize) -> bool
    requires inside { column < length bytes.now }
    requires other { runs.is_plain (get_or bytes.now column 0) ≡ false }
    ensures { result
        ≡ runs.is_run_byte (get_or bytes.now column 0) (drop (column + 1) bytes.now) }
{
    match bytes[column] {
        b' ' => is_single(bytes, column + 1),
        b'/' => is_single(bytes, column),
        _ => false,
    }
}

/// A kind of run: bytes of a line, up to the first one that the run does not go over.
pub(crate) trait Run {
    /// The number of bytes of the run at the front of these bytes.
    ghost size: { List ℕ → ℕ };

    /// Whether the run goes over the byte at this column.
    fn goes_over(bytes: &[u8], column: usize) -> bool
        requires { column < length bytes.now }
        ensures { size (drop column bytes.now)
            ≡ (if result then 1 + size (drop (column + 1) bytes.now) else 0) };

    ghost ends: { size [] ≡ 0 };
}

/// Word bytes.
pub(crate) struct Words;

impl Run for Words {
    ghost size = { prefix_len spec.is_word_byte };

    ghost ends = { refl };

    #[inline(always)]
    fn goes_over(bytes: &[u8], column: usize) -> bool {
        is_word_byte(bytes[column])
    }
}

/// Ordinary bytes.
pub(crate) struct Ordinary;

impl Run for Ordinary {
    ghost size = { prefix_len is_ordinary };

    ghost ends = { refl };

    #[inline(always)]
    fn goes_over(bytes: &[u8], column: usize) -> bool {
        is_ordinary(bytes[column])
    }
}

/// Spaces.
pub(crate) struct Spaces;

impl Run for Spaces {
    ghost size = { prefix_len (λ b. b == space) };

    ghost ends = { refl };

    #[inline(always)]
    fn goes_over(bytes: &[u8], column: usize) -> bool {
        bytes[column] == b' '
    }
}

/// The bytes of a number after its first.
pub(crate) struct Number;

#[tactic(auto, using(crate::proofs::RunPartLemmas::passing_step, crate::proofs::RunPartLemmas::get_drop))]
impl Run for Number {
    ghost size = { passing is_number_byte };

    ghost ends = { refl };

    #[inline(always)]
    fn goes_over(bytes: &[u8], column: usize) -> bool {
        let byte = bytes[column];
        is_word_byte(byte) || byte == b'\'' && holds_word_byte(byte_of(bytes, column + 1))
    }
}

/// Bytes that open nothing, and single spaces before them.
struct Single;

#[tactic(auto, using(crate::proofs::RunPartLemmas::passing_step, crate::proofs::RunPartLemmas::get_drop))]
impl Run for Single {
    ghost size = { passing runs.is_run_byte };

    ghost ends = { refl };

    #[inline(always)]
    fn goes_over(bytes: &[u8], column: usize) -> bool {
        is_plain(bytes[column]) || single_goes_on(bytes, column)
    }
}

/// The column after the run from this column on.
// Four bytes are tested in a turn, since most words have as many.
#[inline]
pub(crate) fn end_of<R: Run>(bytes: &[u8], from: usize) -> usize
    requires { from ≤ length bytes.now }
    ensures end { result ≡ from + R.size (drop from bytes.now) }
    ensures inside { result ≤ length bytes.now }
{
    let mut end = from;
    while bytes.len() - end >= 4 {
        if !R::goes_over(bytes, end) {
            return end;
        }
        if !R::goes_over(bytes, end + 1) {
            return end + 1;
        }
        if !R::goes_over(bytes, end + 2) {
            return end + 2;
        }
        if !R::goes_over(bytes, end + 3) {
            return end + 3;
        }
        end += 4;
    }
    while end < bytes.len() && R::goes_over(bytes, end) {
        end += 1;
    }
    end
}

/// Whether a quoted text begins and ends with this byte.
fn is_quote(byte: u8) -> bool
    ensures { result ≡ runs.is_quote byte }
{
    byte == b'"' || byte == b'\''
}

/// Whether a quoted text may begin at this column.
#[inline(always)]
fn is_at_quote(bytes: &[u8], column: usize) -> bool
    ensures quote { result ≡ runs.is_quote (get_or bytes.now column 0) }
    ensures inside { result ≡ true → column < length bytes.now }
{
    column < bytes.len() && is_quote(bytes[column])
}

/// The column after the byte that closes a quoted text whose first byte is before `from`; `from`, if
/// it is not closed on its line, or has an `@`.
fn quote_end(bytes: &[u8], from: usize, close: u8) -> usize
    requires from { from ≤ length bytes.now }
    requires close { runs.is_quote close ≡ true }
    ensures end { result ≡ from + quote_size close false (drop from bytes.now) }
    ensures inside { result ≤ length bytes.now }
{
    let mut is_escaped = false;
    let mut end = end_of::<Ordinary>(bytes, from);
    while end < bytes.len() && bytes[end] != b'@' {
        let byte = bytes[end];
        end += 1;
        if byte == close && !is_escaped {
            return end;
        }
        is_escaped = byte == b'\\' && !is_escaped;
        if !is_escaped {
            end = end_of::<Ordinary>(bytes, end);
        }
    }
    from
}

/// The column after the part that begins at this column.
fn part_end(bytes: &[u8], from: usize) -> usize
    requires { from < length bytes.now }
    ensures end { result ≡ from + 1
        + part_more (get_or bytes.now from 0) (drop (from + 1) bytes.now) }
    ensures inside { result ≤ length bytes.now }
{
    let byte = bytes[from];
    if is_word_byte(byte) {
        end_of::<Words>(bytes, from + 1)
    } else if is_quote(byte) {
        quote_end(bytes, from + 1, byte)
    } else {
        from + 1
    }
}

/// This column, or the next one if a space is here.
#[tactic(auto, using(crate::proofs::RunPartLemmas::blank_at))]
#[inline(always)]
fn item_start(bytes: &[u8], column: usize) -> usize
    requires { column ≤ length bytes.now }
    ensures { result ≡ column + (if get_or bytes.now column 0 == space then 1 else 0) }
{
    column + holds(b' ', byte_of(bytes, column)) as usize
}

/// The column after the quoted text at this column, or after a space there and a quoted text; `None`,
/// if a run does not go over it.
fn item_end(bytes: &[u8], from: usize) -> Option<usize>
    requires inside { from ≤ length bytes.now }
    requires other { passing runs.is_run_byte (drop from bytes.now) ≡ 0 }
    ensures some { IfSome result (λ end. (from < end) × (end ≤ length bytes.now)
        × (end + run_size 0 (drop end bytes.now) ≡ from + run_size 0 (drop from bytes.now))) }
    ensures none { IfNone result (run_size 0 (drop from bytes.now) ≡ 0) }
{
    let start = item_start(bytes, from);
    if !is_at_quote(bytes, start) {
        return None;
    }
    let end = part_end(bytes, start);
    if end == start + 1 { None } else { Some(end) }
}

/// Whether a word is directly before this column, after `from`, and a quoted text at it.
fn is_word_before_quote(bytes: &[u8], from: usize, end: usize) -> bool
    requires { end ≤ length bytes.now }
    ensures yes { result ≡ true → (from < end) × (is_word (get_or bytes.now (end - 1) 0) ≡ true)
        × (runs.is_quote (get_or bytes.now end 0) ≡ true) }
    ensures no { result ≡ false → from < end → is_word (get_or bytes.now (end - 1) 0) ≡ true
        → runs.is_quote (get_or bytes.now end 0) ≡ false }
{
    from < end && is_word_byte(bytes[end - 1]) && is_at_quote(bytes, end)
}

/// The column before the word that ends at this column, and before a space in front of the word. A
/// quoted text is after the word.
fn before_word(bytes: &[u8], from: usize, end: usize) -> usize
    requires inside { (from < end) × (end ≤ length bytes.now) }
    requires word { is_word (get_or bytes.now (end - 1) 0) ≡ true }
    requires quote { runs.is_quote (get_or bytes.now end 0) ≡ true }
    requires single { end ≡ from + passing runs.is_run_byte (drop from bytes.now) }
    ensures start { result ≡ from + run_size 0 (drop from bytes.now) }
    ensures inside { result ≤ end }
{
    let mut start = end - 1;
    while start > from && is_word_byte(bytes[start - 1]) {
        start -= 1;
    }
    if start > from && bytes[start - 1] == b' ' {
        start - 1
    } else {
        start
    }
}

/// The column after the run that begins at this column, where plain bytes and single spaces are up
/// to `plain_end`.
// Most runs have no quoted text, so that this is not inlined.
#[inline(never)]
fn past_items(bytes: &[u8], from: usize, plain_end: usize) -> usize
    requires end { plain_end ≡ from + passing runs.is_run_byte (drop from bytes.now) }
    requires inside { plain_end ≤ length bytes.now }
    ensures end { result ≡ from + run_size 0 (drop from bytes.now) }
    ensures inside { result ≤ length bytes.now }
{
    let mut start = from;
    let mut end = plain_end;
    while !is_word_before_quote(bytes, start, end) {
        match item_end(bytes, end) {
            Some(next) => {
                start = next;
                end = end_of::<Single>(bytes, next);
            }
            None => return end,
        }
    }
    before_word(bytes, start, end)
}

/// The column after the run that begins at this column of a line.
#[inline(always)]
pub(crate) fn run_end(bytes: &[u8], from: usize) -> usize
    requires { from ≤ length bytes.now }
    ensures end { result ≡ from + run_size 0 (drop from bytes.now) }
    ensures inside { result ≤ length bytes.now }
{
    let end = end_of::<Single>(bytes, from);
    if is_at_quote(bytes, item_start(bytes, end)) {
        past_items(bytes, from, end)
    } else {
        end
    }
}

/// A part of a run.
#[derive(Clone, Copy)]
pub enum RunPart {
    /// Word bytes, up to the first other byte.
    Word(Span),
    /// A quoted text.
    Quoted(Span),
    /// A byte that is in none of these and no space.
    Sign(Span),
    /// A space.
    Space,
}

/// The parts of a run that remain, one after another.
#[derive(Drop)]
pub struct RunParts<'a> {
    /// The bytes of the line up to the end of the run.
    bytes: &'a [u8],
    line: u32,
    column: usize,
}

impl<'a> Model for RunParts<'a> {
    ghost use Rattle.std.specs.Prelude.{List, length, drop, ◌≤◌, ◌<◌, ◌^◌};
    ghost use Rattle.tangle_text.specs.declared.runs.RunPart.{RunPart};
    ghost use Rattle.tangle_text.specs.Runs.{parts_of};

    ghost Value = { List RunPart };

    ghost view = { λ r. parts_of r.line r.column 0 (drop r.column r.bytes.now) };

    ghost invariant = { λ r. (r.column ≤ length r.bytes.now) × (length r.bytes.now < 2 ^ 16) };
}

impl<'a> RunParts<'a> {
    /// The parts of the run with this span, on a line with these bytes.
    #[inline(always)]
    pub fn new(line: &'a [u8], span: Span) -> Self
        requires start { span.start ≤ span.end }
        requires end { span.end ≤ length line.now }
        ensures { result ≡ parts_of span.line span.start 0
            (take (span.end - span.start) (drop span.start line.now)) }
    {
        RunParts {
            bytes: &line[..span.end as usize],
            line: span.line,
            column: span.start as usize,
        }
    }

    /// The next part of the run; `None` at its end.
    #[inline(always)]
    pub fn next(&mut self) -> Option<RunPart>
        ensures part { result ≡ slice_get self.old 0 }
        ensures rest { self.new ≡ drop 1 self.old }
    {
        let start = self.column;
        if start >= self.bytes.len() {
            return None;
        }
        let byte = self.bytes[start];
        self.column = part_end(self.bytes, start);
        if byte == b' ' {
            return Some(RunPart::Space);
        }
        let span = Span {
            line: self.line,
            start: start as u16,
            end: self.column as u16,
        };
        if is_word_byte(byte) {
            return Some(RunPart::Word(span));
        }
        Some(if is_quote(byte) {
            RunPart::Quoted(span)
        } else {
            RunPart::Sign(span)
        })
    }
}
