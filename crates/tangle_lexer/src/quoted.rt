//! Quoted and verbatim texts, which are cut into ranges of lines.
#![tactic(auto, using(crate::proofs::lemmas::RegionSteps::quoted_steps))]

ghost use Rattle.std.specs.Prelude.{true, ◌≡◌, ◌≤◌, ◌++◌, ℕ, List, IfOk, OnOk, ◌∷◌, drop};
ghost use Rattle.tangle_files.specs.Adding.{longest_line};
ghost use Rattle.tangle_text.specs.Ahead.{IsFront};
ghost use Rattle.tangle_lexer.specs.Reads.{IsRead};
ghost use Rattle.tangle_text.specs.Text.{Cell, byte_at, front_cell, span_at};
ghost use Rattle.tangle_text.specs.Regions.{skips_ordinary, region_end};
ghost use Rattle.tangle_lexer.specs.declared.tokens.Token.{Token as TokenRead};
ghost use Rattle.tangle_text.specs.declared.regions.Region.TheVariants as region;
ghost use Rattle.tangle_lexer.specs.declared.tokens.SpanKind.TheVariants as span_kind;
ghost use Rattle.tangle_lexer.specs.declared.tokens.Token.TheVariants as token;
ghost use Rattle.tangle_text.specs.Bytes as byte;
ghost use Rattle.tangle_lexer.specs.Quoted as spec;

use crate::comments::{is_region_end, pass_end};
use crate::modes::{IncludeState, Lexed, LexerState};
use crate::tokens::{Pushed, SpanKind, Token, Tokens, push_fault_if};
use std::alloc::AllocError;
use tangle_lines::FaultKind;
use tangle_text::{Front, Reader, Region, Span, Unit, holds, unit_of};

/// The kind of the ranges that a region is cut into.
fn kind_in(region: Region) -> SpanKind
    ensures { result ≡ spec.kind_in region }
{
    match region {
        Region::Verbatim => SpanKind::Verbatim,
        _ => SpanKind::Quoted,
    }
}

/// Adds the range of a line from column `start` up to column `end`, unless it is empty.
fn push_range(tokens: &mut Tokens, region: Region, line: u32, start: usize, end: usize) -> Pushed
    requires { end ≤ longest_line }
    ensures { OnOk result (tokens.new.items ≡ tokens.old.items
        ++ spec.cut_range region line start end) }
{
    if start < end {
        let span = Span {
            line,
            start: start as u16,
            end: end as u16,
        };
        tokens.push(Token::Span(kind_in(region), span))?;
    }
    Ok(())
}

/// Adds the tokens of a unit inside a region, whose current range starts at column `start`. Returns
/// the column at which the range after the unit starts: `start` itself, unless the text is cut.
#[inline(always)]
fn push_quoted_unit(
    tokens: &mut Tokens,
    reader: &Reader,
    region: Region,
    start: usize,
    unit: Unit,
    front: Front,
    last: u32,
) -> Result<usize, AllocError>
    requires { IsFront reader.now front }
    ensures tokens { OnOk result (tokens.new.items ≡ tokens.old.items
        ++ spec.unit_tokens region unit start (front_cell last reader.now) (byte_at 1 reader.now)) }
    ensures start { IfOk result (λ after. after
        ≡ spec.next_start unit start (front_cell last reader.now) (byte_at 1 reader.now)) }
{
    let line = reader.line(last);
    let is_two = matches!(unit, Unit::Two);
    if is_two && holds(b'@', front.byte) {
        let end = reader.column_after();
        push_range(tokens, region, line, start, end)?;
        return Ok(end + 1);
    }
    if is_two && holds(b'\\', front.byte) && front.next.is_none() {
        push_range(tokens, region, line, start, reader.column_after())?;
        tokens.push(Token::QuoteBreak(line))?;
        return Ok(0);
    }
    if !is_two && holds(b'@', front.byte) {
        tokens.push(Token::Fault(FaultKind::StringAt, line))?;
    }
    Ok(start)
}

/// Advances to the end of a region and adds its ranges except the last one. Returns the column at
/// which the last range starts; the first one starts at column `first`.
#[inline(always)]
fn cut(
    tokens: &mut Tokens,
    reader: &mut Reader,
    region: Region,
    first: usize,
    last: u32,
) -> Result<usize, AllocError>
    requires { skips_ordinary region ≡ true }
    ensures ahead { OnOk result (reader.new ≡ region_end region reader.old) }
    ensures tokens { IfOk result (λ start. (ends : ℕ → List Cell → List TokenRead) →
        tokens.new.items ++ ends start reader.new
        ≡ tokens.old.items ++ spec.cut_tokens ends region 0 first reader.old) }
{
    let mut start = first;
    reader.skip_ordinary();
    while let Some(front) = reader.front() {
        let unit = unit_of(region, front.byte, front.next);
        if let Unit::Stop = unit {
            return Ok(start);
        }
        start = push_quoted_unit(tokens, reader, region, start, unit, front, last)?;
        reader.pass(unit);
        reader.skip_ordinary();
    }
    Ok(start)
}

/// Adds the last range of a quoted text, from column `start` through the closing byte. A line end
/// or the end of the source instead of the closing byte is a fault.
fn end_quote(
    tokens: &mut Tokens,
    reader: &mut Reader,
    region: Region,
    close: u8,
    start: usize,
    last: u32,
) -> Pushed
    ensures tokens { OnOk result (tokens.new.items ≡ tokens.old.items
        ++ spec.quote_end region close last start reader.old) }
    ensures ahead { OnOk result
        (reader.new ≡ drop (spec.one_if (byte.holds close (byte_at 0 reader.old))) reader.old) }
{
    let Some(front) = reader.front() else {
        tokens.push(Token::Fault(FaultKind::StringEnd, last))?;
        return Ok(());
    };
    let line = reader.line(last);
    if holds(close, front.byte) {
        push_range(tokens, region, line, start, reader.column_after())?;
        reader.advance();
        return Ok(());
    }
    push_range(tokens, region, line, start, reader.column())?;
    tokens.push(Token::Fault(FaultKind::StringEnd, line))?;
    Ok(())
}

/// Reads a quoted text from its opening byte through its closing byte `close`.
pub fn quoted_text(
    tokens: &mut Tokens,
    reader: &mut Reader,
    region: Region,
    close: u8,
    state: LexerState,
) -> Lexed
    requires { skips_ordinary region ≡ true }
    ensures { IfOk result (λ after. IsRead tokens.old.items tokens.new.items reader.old reader.new
        after (spec.quoted_text region close state reader.old)) }
{
    let opening = reader.column();
    reader.advance();
    let start = cut(tokens, reader, region, opening, state.last_line)?;
    end_quote(tokens, reader, region, close, start, state.last_line)?;
    Ok(state.elsewhere())
}

/// Adds the last range of a verbatim text, from column `start` on, and a fault if a line end ends
/// the text.
fn end_verbatim(tokens: &mut Tokens, reader: &Reader, start: usize, last: u32) -> Pushed
    ensures { OnOk result (tokens.new.items ≡ tokens.old.items
        ++ spec.verbatim_end start reader.now) }
{
    let Some(front) = reader.front() else {
        return Ok(());
    };
    let line = reader.line(last);
    push_range(tokens, Region::Verbatim, line, start, reader.column())?;
    push_fault_if(tokens, front.byte.is_none(), FaultKind::VerbatimEnd, line)
}

/// Adds an item for a verbatim text that is empty.
fn push_if_empty(tokens: &mut Tokens, reader: &Reader) -> Pushed
    ensures { OnOk result (tokens.new.items ≡ tokens.old.items ++ spec.empty_text reader.now) }
{
    if is_region_end(Region::Verbatim, reader) {
        let column = reader.column() as u16;
        let span = Span {
            line: reader.line(0),
            start: column,
            end: column,
        };
        tokens.push(Token::Span(SpanKind::Verbatim, span))?;
    }
    Ok(())
}

/// Reads a verbatim text after its `@=`, up to its end.
fn push_verbatim(tokens: &mut Tokens, reader: &mut Reader, last: u32) -> Pushed
    ensures tokens { OnOk result
        (tokens.new.items ≡ tokens.old.items ++ spec.verbatim_tokens reader.old) }
    ensures ahead { OnOk result (reader.new ≡ region_end region.Verbatim reader.old) }
{
    push_if_empty(tokens, reader)?;
    let first = reader.column();
    let start = cut(tokens, reader, Region::Verbatim, first, last)?;
    end_verbatim(tokens, reader, start, last)
}

/// Whether the verbatim text at the position ends in a backslash.
fn verbatim_ends_in_backslash(reader: &Reader) -> bool
    ensures { result ≡ spec.verbatim_ends_in_backslash reader.now }
{
    let mut here = reader.copy();
    let mut is_backslash = false;
    while let Some(front) = here.front() {
        let unit = unit_of(Region::Verbatim, front.byte, front.next);
        if let Unit::Stop = unit {
            return is_backslash;
        }
        is_backslash = holds(b'\\', front.byte);
        here.pass(unit);
    }
    is_backslash
}

/// Reads `@=` and the verbatim text through `@>`, or up to the line end, which is a fault.
pub fn verbatim_text(tokens: &mut Tokens, reader: &mut Reader, state: LexerState) -> Lexed
    ensures { IfOk result (λ after. IsRead tokens.old.items tokens.new.items reader.old reader.new
        after (spec.verbatim_text state reader.old)) }
{
    reader.pass(Unit::Two);
    let is_backslash = verbatim_ends_in_backslash(reader);
    push_verbatim(tokens, reader, state.last_line)?;
    pass_end(Region::Verbatim, reader);
    let line = state
        .line
        .after_item(IncludeState::Elsewhere, false, is_backslash);
    Ok(state.with_line(line))
}
