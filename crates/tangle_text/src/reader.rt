//! Reads the text ahead of a position.
ghost use Rattle.std.specs.Prelude.{◌≡◌, ◌≤◌, ◌<◌, ◌+◌, ◌^◌, ℕ, List, [], length, take, drop};
ghost use Rattle.std.specs.Prelude.{get_or, slice_get, IsSome, IfOk, IfSome, IfNone, true, false};
ghost use Rattle.tangle_files.specs.Adding.{longest_line};
ghost use Rattle.std.specs.List.{prefix_len};
ghost use Rattle.tangle_lines.specs.Bytes as lines;
ghost use Rattle.tangle_text.specs.Ahead.{IsFront};
ghost use Rattle.tangle_text.specs.NameBytes.{BeginsName};
ghost use Rattle.tangle_text.specs.declared.regions.Region.TheVariants as region;
ghost use Rattle.tangle_text.specs.Words.{word_more, is_include_word};
ghost use Rattle.tangle_text.specs.Text.{text_from, byte_at, bytes_of, front_line, front_column};
ghost use Rattle.tangle_text.specs.Text.{span_at};
ghost use Rattle.tangle_text.specs.Runs.{run_at, run_count, word_size};
ghost use Rattle.tangle_text.specs.Regions as regions;
ghost use Rattle.tangle_text.specs.Regions.{count_before, more_by, region_end};

use crate::bytes::{holds, is_digit, is_white};
use crate::regions::{Region, Unit, skips_ordinary, unit_of};
use crate::runs::{Number, Ordinary, Spaces, Words, end_of, run_end};
use crate::spans::Span;
use memchr::memchr;
use std::alloc::AllocError;
use std::marker::Model;
use tangle_files::SharedSlice;
use tangle_lines::Source;

/// The first two bytes or line ends from a position on.
#[derive(Clone, Copy)]
pub struct Front {
    /// The byte at the position; `None` at a line end.
    pub byte: Option<u8>,
    /// The byte after it; `None` at a line end.
    pub next: Option<u8>,
}

/// The text of a source from a position on.
#[derive(Drop)]
pub struct Reader<'s, 'a> {
    source: &'s Source<'a>,
    /// The bytes of the current line.
    bytes: &'a [u8],
    line: usize,
    column: usize,
    /// Whether the last line was read.
    is_done: bool,
}

impl<'s, 'a> Model for Reader<'s, 'a> {
    ghost use Rattle.std.specs.Prelude.{List, length, ◌≤◌, ◌<◌, ◌≡◌, false};
    ghost use Rattle.tangle_files.specs.Adding.{longest_line};
    ghost use Rattle.tangle_lines.specs.Reading.{line_at, source_line_limit};
    ghost use Rattle.tangle_text.specs.Text.{Cell};
    ghost use Rattle.tangle_text.specs.Ahead.{rest_of};

    ghost Value = { List Cell };

    ghost view = { λ r. rest_of r.source.now.lines r.bytes.now r.line r.column r.is_done };

    ghost invariant = { λ r. (r.column ≤ length r.bytes.now)
        × ((r.is_done ≡ false → r.line < length r.source.now.lines)
        × ((r.line ≤ source_line_limit) × ((length r.bytes.now ≤ longest_line)
        × (r.bytes.now ≡ (line_at r.source.now.lines r.line).bytes)))) };
}

/// The byte at a column of a line; `None` at the line's end.
#[inline(always)]
pub(crate) fn byte_of(bytes: &[u8], column: usize) -> Option<u8>
    ensures { result ≡ slice_get bytes.now column }
{
    bytes.get(column).copied()
}

/// The column of the next `@` of a line, or the line's length if there is none.
fn at_sign_from(bytes: &[u8], column: usize) -> usize
    requires { column ≤ length bytes.now }
    ensures low { column ≤ result }
    ensures high { result ≤ length bytes.now }
    ensures before { (k : ℕ) → column + k < result → get_or bytes.now (column + k) 0 ≡ 64 → ⊥ }
{
    match memchr(b'@', &bytes[column..]) {
        Some(count) => column + count,
        None => bytes.len(),
    }
}

/// The column after the word that begins at this column.
#[inline(always)]
fn whole_word_end(bytes: &[u8], from: usize) -> usize
    requires { from < length bytes.now }
    ensures end { result ≡ from + 1
        + word_size (get_or bytes.now from 0) (drop (from + 1) bytes.now) }
    ensures inside { result ≤ length bytes.now }
{
    if is_digit(bytes[from]) {
        end_of::<Number>(bytes, from + 1)
    } else {
        end_of::<Words>(bytes, from + 1)
    }
}

/// The column after the run of white space from this column on.
// Most of it is spaces, for which the test is shorter.
#[inline(always)]
fn white_end(bytes: &[u8], from: usize) -> usize
    requires { from ≤ length bytes.now }
    ensures end { result ≡ from + prefix_len lines.is_white (drop from bytes.now) }
    ensures inside { result ≤ length bytes.now }
{
    let mut end = end_of::<Spaces>(bytes, from);
    while end < bytes.len() && is_white(bytes[end]) {
        end += 1;
    }
    end
}

/// The first byte of a line; `None` if the line is empty, or if there is no such line.
#[tactic(auto, using(crate::proofs::AheadLemmas::first_of_line))]
fn first_of_line(source: &Source, line: usize) -> Option<u8>
    ensures { result ≡ byte_at 0 (text_from line (drop line source.now.lines)) }
{
    if line < source.count() {
        byte_of(source.line(line), 0)
    } else {
        None
    }
}

#[tactic(auto, using(crate::proofs::AheadLemmas::ahead_steps))]
impl<'s, 'a> Reader<'s, 'a> {
    /// Reads the whole text of a source.
    pub fn new(source: &'s Source<'a>) -> Self
        ensures text { result ≡ text_from 0 source.now.lines }
        ensures short { length result < 2 ^ 63 }
    {
        if source.count() == 0 {
            return Reader {
                source,
                bytes: b"",
                line: 0,
                column: 0,
                is_done: true,
            };
        }
        Reader {
            source,
            bytes: source.line(0),
            line: 0,
            column: 0,
            is_done: false,
        }
    }

    /// The first two bytes ahead; `None` at the end of the text.
    pub fn front(&self) -> Option<Front>
        ensures front { IfSome result (λ front. IsFront self.now front) }
        ensures end { IfNone result (self.now ≡ []) }
    {
        if self.is_done {
            return None;
        }
        let byte = byte_of(self.bytes, self.column);
        let next = if self.column < self.bytes.len() {
            byte_of(self.bytes, self.column + 1)
        } else {
            first_of_line(self.source, self.line + 1)
        };
        Some(Front { byte, next })
    }

    /// The byte at the position; `None` at a line end, and after the last line.
    #[inline(always)]
    pub fn byte(&self) -> Option<u8>
        ensures { result ≡ byte_at 0 self.now }
    {
        if self.is_done {
            return None;
        }
        byte_of(self.bytes, self.column)
    }

    /// Whether the position is the end of the text.
    #[inline(always)]
    pub fn is_at_end(&self) -> bool
        ensures end { result ≡ true → self.now ≡ [] }
        ensures inside { result ≡ false → 0 < length self.now }
    {
        self.is_done
    }

    /// Advances by one byte or line end.
    #[inline(always)]
    pub fn advance(&mut self)
        ensures { self.new ≡ drop 1 self.old }
    {
        if self.column < self.bytes.len() {
            self.column += 1;
            return;
        }
        let next = self.line + 1;
        self.column = 0;
        if next < self.source.count() {
            self.line = next;
            self.bytes = self.source.line(next);
        } else {
            self.is_done = true;
        }
    }

    /// The number of the current line; `last` after the last line.
    #[inline(always)]
    pub fn line(&self, last: u32) -> u32
        ensures { result ≡ front_line last self.now }
    {
        if self.is_done { last } else { self.line as u32 }
    }

    /// The column of the position, from 0; 0 at the end of the text.
    pub fn column(&self) -> usize
        ensures column { result ≡ front_column self.now }
        ensures short { result ≤ longest_line }
    {
        if self.is_done { 0 } else { self.column }
    }

    /// The column after the byte at the position.
    pub fn column_after(&self) -> usize
        requires { IsSome (byte_at 0 self.now) }
        ensures column { result ≡ front_column self.now + 1 }
        ensures short { result ≤ longest_line }
    {
        self.column + 1
    }

    /// The span of the byte at the position.
    #[inline(always)]
    pub fn byte_span(&self) -> Span
        requires { IsSome (byte_at 0 self.now) }
        ensures { result ≡ span_at 1 self.now }
    {
        Span {
            line: self.line as u32,
            start: self.column as u16,
            end: (self.column + 1) as u16,
        }
    }

    /// Advances by a unit.
    #[inline(always)]
    pub fn pass(&mut self, unit: Unit)
        ensures { self.new ≡ drop (more_by unit) (drop 1 self.old) }
    {
        self.advance();
        if let Unit::Two = unit {
            self.advance();
        }
    }

    /// Advances to the first position where the region ends.
    #[tactic(auto, using(crate::proofs::RegionLemmas::region_steps))]
    pub fn skip_to_end(&mut self, region: Region)
        ensures { self.new ≡ region_end region self.old }
    {
        while let Some(front) = self.front() {
            let unit = unit_of(region, front.byte, front.next);
            if let Unit::Stop = unit {
                return;
            }
            self.pass(unit);
            self.skip_inside(region);
        }
    }

    /// Advances over ordinary bytes, if they have no meaning in the region.
    fn skip_inside(&mut self, region: Region)
        ensures same { region_end region self.new ≡ region_end region self.old }
        ensures shorter { length self.new ≤ length self.old }
    {
        if skips_ordinary(region) {
            self.skip_ordinary();
        }
    }

    /// Makes a second reader at the same position.
    #[inline(always)]
    pub fn copy(&self) -> Self
        ensures { result ≡ self.now }
    {
        Reader {
            source: self.source,
            bytes: self.bytes,
            line: self.line,
            column: self.column,
            is_done: self.is_done,
        }
    }

    /// Advances by `count` bytes or line ends.
    pub fn skip(&mut self, count: usize)
        ensures { self.new ≡ drop count self.old }
    {
        let mut left = count;
        while left > 0 {
            self.advance();
            left -= 1;
        }
    }

    /// The byte at this distance from the position; `None` at a line end and after the text.
    pub fn peek(&self, distance: usize) -> Option<u8>
        ensures { result ≡ byte_at distance self.now }
    {
        let mut further = self.copy();
        further.skip(distance);
        further.byte()
    }

    /// Whether the word at the position is `include`.
    #[inline(always)]
    pub fn begins_include(&self) -> bool
        requires { IsSome (byte_at 0 self.now) }
        ensures { result ≡ is_include_word (bytes_of (take (1 + word_more self.now) self.now)) }
    {
        let end = whole_word_end(self.bytes, self.column);
        &self.bytes[self.column..end] == b"include".as_slice()
    }

    /// Advances over the word at the position. Returns the word's span.
    #[inline(always)]
    pub fn take_word(&mut self) -> Span
        requires { IsSome (byte_at 0 self.old) }
        ensures span { result ≡ span_at (1 + word_more self.old) self.old }
        ensures ahead { self.new ≡ drop (word_more self.old) (drop 1 self.old) }
    {
        let start = self.column;
        let end = whole_word_end(self.bytes, start);
        self.column = end;
        Span {
            line: self.line as u32,
            start: start as u16,
            end: end as u16,
        }
    }

    /// Advances over the run at the position: words, signs that open nothing, quoted texts, and single
    /// spaces between them. Returns the run's span; `None` if no byte is in the run.
    #[inline(always)]
    pub fn take_run(&mut self) -> Option<Span>
        requires { IsSome (byte_at 0 self.old) }
        ensures span { result ≡ run_at self.old }
        ensures ahead { self.new ≡ drop (run_count self.old) self.old }
    {
        let start = self.column;
        let end = run_end(self.bytes, start);
        if end == start {
            return None;
        }
        self.column = end;
        Some(Span {
            line: self.line as u32,
            start: start as u16,
            end: end as u16,
        })
    }

    /// Advances over the white space at the position.
    #[inline(always)]
    pub fn skip_white(&mut self)
        requires { IsSome (byte_at 0 self.old) }
        ensures { self.new ≡ drop (count_before region.White (drop 1 self.old))
            (drop 1 self.old) }
    {
        self.column = white_end(self.bytes, self.column + 1);
    }

    /// Advances in this line over bytes that have no meaning in comments, control texts, quoted and
    /// verbatim texts.
    pub fn skip_ordinary(&mut self)
        ensures { (n : ℕ) × (self.new ≡ drop n self.old) × regions.AreOrdinary n self.old }
    {
        self.column = end_of::<Ordinary>(self.bytes, self.column);
    }

    /// Advances to the next `@` of this line, or to its end. Returns the bytes in between, which
    /// belong to a name if one is being read.
    ///
    /// # Errors
    ///
    /// Fails if an allocation fails, or if the text has too many shares to count.
    pub fn take_name_bytes(&mut self) -> Result<SharedSlice, AllocError>
        ensures { IfOk result (λ bytes. BeginsName bytes self.old self.new) }
    {
        let start = self.column;
        if !self.is_done {
            self.column = at_sign_from(self.bytes, start);
        }
        self.source.slice(self.line, start, self.column)
    }

    /// Advances to the next `@` of this line, or to its end.
    fn skip_to_at_sign(&mut self)
        ensures same { region_end region.Prose self.new ≡ region_end region.Prose self.old }
        ensures shorter { length self.new ≤ length self.old }
    {
        self.column = at_sign_from(self.bytes, self.column);
    }

    /// Advances to the next `@`, which may be on a later line.
    #[tactic(auto, using(crate::proofs::RegionLemmas::region_steps))]
    pub fn skip_prose(&mut self)
        ensures { self.new ≡ region_end region.Prose self.old }
    {
        while !self.is_at_end() {
            self.skip_to_at_sign();
            if holds(b'@', self.byte()) {
                return;
            }
            self.advance();
        }
    }
}
