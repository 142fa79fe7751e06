//! Cutting bytes into lines.
ghost use Rattle.std.specs.Prelude.{◌≡◌, ◌+◌, ◌-◌, ◌<◌, ◌≤◌, ◌^◌, [], ◌∷◌, ◌++◌, length, take};
ghost use Rattle.std.specs.Prelude.{drop, None, unwrap_or, IfErr, IfOk, IfSome, OnOk, OnSome};
ghost use Rattle.std.specs.List.{list_any};
ghost use Rattle.tangle_files.specs.Lines.{raw_lines, trimmed, cut};
ghost use Rattle.tangle_files.specs.Adding.{cut_refusal, is_too_long, longest_line, most_lines};
ghost use Rattle.tangle_files.specs.Sharing.{slice_of};

use crate::files::MOST_LINES;
use crate::line::{Line, MOST_POSITIONS};
use crate::refusal::Refusal;
use memchr::{memchr, memchr_iter};
use std::alloc::{AllocError, Global};
use std::rc::Rc;

/// The most bytes that a line may have.
pub(crate) const LONGEST_LINE: usize = 65_535;

/// What decides whether the lines of a file are within the limits.
#[derive(Clone, Copy)]
struct LineMeasure {
    /// Whether a line is longer than the limit.
    is_too_long: bool,
    /// The number of lines.
    count: usize,
}

/// Measures the lines of the bytes, without cutting them.
#[tactic(auto, using(crate::proofs::CuttingLemmas::line_sizes))]
fn measure_lines(bytes: &[u8]) -> LineMeasure
    ensures long { result.is_too_long ≡ list_any is_too_long (cut bytes.now) }
    ensures count { result.count ≡ length (cut bytes.now) }
{
    // No early exit: a line that is too long decides the refusal, even after too many lines.
    let mut rest = bytes;
    let mut is_too_long = false;
    let mut count = 0;
    while !rest.is_empty() {
        let (line, tail) = first_line(rest);
        if without_trailing_spaces(line).len() > LONGEST_LINE {
            is_too_long = true;
        }
        count += 1;
        rest = tail;
    }
    LineMeasure { is_too_long, count }
}

/// Cuts the bytes into lines, which share the bytes, so that no line needs an allocation.
///
/// # Errors
///
/// The first of these that applies: `LineTooLong`, `TooManyLines`, `NoMemory`.
pub(crate) fn cut_lines(alloc: Global, bytes: Vec<u8>) -> Result<Vec<Line>, Refusal>
    ensures ok { IfOk result (λ lines. lines.items ≡ cut bytes.items) }
    ensures accepted { IfOk result (λ lines. cut_refusal bytes.items ≡ None) }
    ensures refused { IfErr result
        (λ refusal. refusal ≡ unwrap_or (cut_refusal bytes.items) Refusal.NoMemory) }
{
    match Rc::new(alloc, bytes) {
        Ok(text) => match share_lines(alloc, &text) {
            Some(lines) => Ok(lines),
            None => Err(why_not_cut(text.as_slice())),
        },
        Err(failed) => Err(why_not_cut(&failed.value)),
    }
}

/// Why the bytes cannot be the lines of a file.
pub(crate) fn refusal_of_lines(bytes: &[u8]) -> Option<Refusal>
    ensures { result ≡ cut_refusal bytes.now }
{
    let lines = measure_lines(bytes);
    if lines.is_too_long {
        return Some(Refusal::LineTooLong);
    }
    if lines.count > MOST_LINES {
        return Some(Refusal::TooManyLines);
    }
    None
}

/// Why cutting the bytes failed: `NoMemory`, if the lines are within the limits.
fn why_not_cut(bytes: &[u8]) -> Refusal
    ensures { result ≡ unwrap_or (cut_refusal bytes.now) Refusal.NoMemory }
{
    refusal_of_lines(bytes).unwrap_or(Refusal::NoMemory)
}

/// Cuts a text into lines that share it. `None` if a line is too long, there are too many lines,
/// or an allocation fails.
fn share_lines(alloc: Global, text: &Rc<Vec<u8>>) -> Option<Vec<Line>>
    ensures lines { IfSome result (λ lines. lines.items ≡ cut text.now.value.items) }
    ensures within { IfSome result (λ lines. cut_refusal text.now.value.items ≡ None) }
{
    let bytes = bytes_of(text);
    if bytes.len() >= MOST_POSITIONS {
        return None;
    }
    // Most lines are longer, so the list seldom grows. Memory that is not used costs nothing.
    let mut lines = Vec::with_capacity(alloc, bytes.len() / 32 + 1).ok()?;
    let mut start = 0;
    for end in memchr_iter(b'\n', bytes) {
        add_line(&mut lines, text, start, end)?;
        start = end + 1;
    }
    if start >= bytes.len() {
        return Some(lines);
    }
    add_line(&mut lines, text, start, bytes.len())?;
    Some(lines)
}

// A function of its own for its clause, which the proof of the loop in `share_lines` uses.
fn bytes_of(text: &Rc<Vec<u8>>) -> &[u8]
    ensures { result.now ≡ text.now.value.items }
{
    text.as_slice()
}

/// Adds the line of the bytes from `start` up to `end`. `None` if it is too long, there are too many
/// lines, or an allocation fails.
#[inline(always)]
#[tactic(auto, using(crate::proofs::CuttingLemmas::line_sizes))]
fn add_line(lines: &mut Vec<Line>, text: &Rc<Vec<u8>>, start: usize, end: usize) -> Option<()>
    requires low { start ≤ end }
    requires high { end ≤ length text.now.value.items }
    requires near { length text.now.value.items < 2 ^ 48 }
    ensures { let line = trimmed (take (end - start) (drop start text.now.value.items)) in
        OnSome result ((lines.new.items ≡ lines.old.items ++ line ∷ [])
        × (length line ≤ longest_line) × (length lines.old.items < most_lines)) }
{
    let line = without_trailing_spaces(&bytes_of(text)[start..end]);
    if line.len() > LONGEST_LINE || lines.len() >= MOST_LINES {
        return None;
    }
    match push_line(lines, text, start, line.len() as u16) {
        Ok(()) => Some(()),
        Err(_) => None,
    }
}

/// Adds the line that has `size` bytes from position `start` of the text.
#[inline(always)]
fn push_line(
    lines: &mut Vec<Line>,
    text: &Rc<Vec<u8>>,
    start: usize,
    size: u16,
) -> Result<(), AllocError>
    requires near { start < 2 ^ 48 }
    requires within { start + size ≤ length text.now.value.items }
    ensures { OnOk result (lines.new.items ≡ lines.old.items
        ++ slice_of text.now.value.items start size ∷ []) }
{
    lines.push(Line::new(text.clone()?, start, size))?;
    Ok(())
}

/// The bytes before the first line feed, and those after it.
fn first_line(bytes: &[u8]) -> (&[u8], &[u8])
    requires { 0 < length bytes.now }
    ensures lines { raw_lines bytes.now ≡ result.0.now ∷ raw_lines result.1.now }
    ensures shorter { length result.1.now < length bytes.now }
{
    match memchr(b'\n', bytes) {
        Some(end) => (&bytes[..end], &bytes[end + 1..]),
        None => (bytes, &bytes[bytes.len()..]),
    }
}

/// The line without its trailing spaces.
pub(crate) fn without_trailing_spaces(line: &[u8]) -> &[u8]
    ensures { result.now ≡ trimmed line.now }
{
    // A search for a set of bytes would build a table for each line; few lines end in a space.
    let mut end = line.len();
    while 0 < end {
        if line[end - 1] != b' ' {
            return &line[..end];
        }
        end -= 1;
    }
    &line[..0]
}
