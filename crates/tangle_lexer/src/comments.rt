//! Comments and control texts, which count as white space.
#![tactic(auto, using(crate::proofs::lemmas::RegionSteps::comment_steps))]

ghost use Rattle.std.specs.Prelude.{◌≡◌, ◌++◌, true, drop, map, Decides, IfOk, OnOk};
ghost use Rattle.tangle_text.specs.declared.regions.Unit.TheVariants as unit;
ghost use Rattle.tangle_lexer.specs.Reads.{IsRead};
ghost use Rattle.tangle_text.specs.Regions.{skips_ordinary, region_end, unit_at};
ghost use Rattle.tangle_lexer.specs.LinesOfC.{after_line_ends, inner_end_in};
ghost use Rattle.tangle_lexer.specs.Lexemes.{line_end_by, is_in_directive};
ghost use Rattle.tangle_lexer.specs.Comments as spec;

use crate::modes::{Lexed, LexerState, LineState};
use crate::tokens::{Token, Tokens, push_fault_if};
use std::alloc::AllocError;
use tangle_lines::FaultKind;
use tangle_text::{Reader, Region, Unit, holds, is_end_code, is_section_start, unit_of};

/// Adds a line end, if `byte` is one (`None`), and returns how the line of C was read then. In a
/// directive the line end is white space, which changes nothing of that.
fn push_line_end(
    tokens: &mut Tokens,
    in_directive: bool,
    at: LineState,
    byte: Option<u8>,
    line: u32,
) -> Result<LineState, AllocError>
    ensures tokens { OnOk result (tokens.new.items
        ≡ tokens.old.items ++ map (inner_end_in in_directive) (line_end_by byte line)) }
    ensures line { IfOk result
        (λ after. after ≡ after_line_ends in_directive (line_end_by byte line) at) }
{
    if byte.is_some() {
        return Ok(at);
    }
    if in_directive {
        tokens.push(Token::InnerLineEnd(line))?;
        return Ok(at);
    }
    tokens.push(Token::LineEnd(line))?;
    Ok(at.after_line_end())
}

/// Advances to the end of a comment or a control text, and adds the line ends in it.
///
/// These are line ends of the part, except in a directive. So the C has as many lines there as the
/// web, and the text after the comment needs no line mark.
#[inline(always)]
fn pass_line_ends(
    tokens: &mut Tokens,
    reader: &mut Reader,
    region: Region,
    state: LexerState,
) -> Result<LineState, AllocError>
    requires { skips_ordinary region ≡ true }
    ensures ahead { OnOk result (reader.new ≡ region_end region reader.old) }
    ensures tokens { OnOk result (tokens.new.items ≡ tokens.old.items
        ++ map (inner_end_in (is_in_directive state)) (spec.line_ends region reader.old)) }
    ensures line { IfOk result (λ after. after
        ≡ after_line_ends (is_in_directive state) (spec.line_ends region reader.old) state.line) }
{
    let in_directive = state.is_in_directive();
    let mut at = state.line;
    reader.skip_ordinary();
    while let Some(front) = reader.front() {
        let unit = unit_of(region, front.byte, front.next);
        if let Unit::Stop = unit {
            return Ok(at);
        }
        let line = reader.line(state.last_line);
        at = push_line_end(tokens, in_directive, at, front.byte, line)?;
        reader.pass(unit);
        reader.skip_ordinary();
    }
    Ok(at)
}

/// Whether a region ends at the position.
#[inline(always)]
pub fn is_region_end(region: Region, reader: &Reader) -> bool
    ensures { Decides result (unit_at region reader.now ≡ unit.Stop) }
{
    match reader.front() {
        Some(front) => matches!(unit_of(region, front.byte, front.next), Unit::Stop),
        None => matches!(unit_of(region, None, None), Unit::Stop),
    }
}

/// Whether the text ahead begins with a section start.
pub fn starts_section(reader: &Reader) -> bool
    ensures { result ≡ spec.starts_section reader.now }
{
    matches!(reader.front(), Some(front) if is_section_start(front.byte, front.next))
}

/// Whether the text ahead begins with the end of a block comment (`*/`), or of another region
/// (`@>`).
fn ends_region(region: Region, reader: &Reader) -> bool
    ensures { result ≡ spec.ends_region region reader.now }
{
    let Some(front) = reader.front() else {
        return false;
    };
    match region {
        Region::BlockComment => holds(b'*', front.byte) && holds(b'/', front.next),
        _ => is_end_code(front.byte, front.next),
    }
}

/// Advances past the end of a region, if the text ahead begins with it, and returns whether it does.
#[inline(always)]
pub fn pass_end(region: Region, reader: &mut Reader) -> bool
    ensures is_there { result ≡ spec.ends_region region reader.old }
    ensures ahead { reader.new ≡ drop (spec.two_if (spec.ends_region region reader.old)) reader.old }
{
    if ends_region(region, reader) {
        reader.pass(Unit::Two);
        return true;
    }
    false
}

/// Reads a block comment or a control text, with the two bytes that open it and the two that end
/// it. If its end is missing, it has a fault of this kind.
#[inline(always)]
fn comment_or_control_text(
    region: Region,
    kind: FaultKind,
    tokens: &mut Tokens,
    reader: &mut Reader,
    state: LexerState,
) -> Lexed
    requires { skips_ordinary region ≡ true }
    ensures { IfOk result (λ after. IsRead tokens.old.items tokens.new.items reader.old reader.new
        after (spec.comment_or_control_text region kind state reader.old)) }
{
    tokens.push(Token::White)?;
    reader.pass(Unit::Two);
    let at = pass_line_ends(tokens, reader, region, state)?;
    let line = reader.line(state.last_line);
    let is_ended = pass_end(region, reader);
    push_fault_if(tokens, !is_ended, kind, line)?;
    Ok(state.with_line(at))
}

/// Reads a comment from `/*` to `*/`. A section start or the end of the source before `*/` is a
/// fault.
pub fn block_comment(tokens: &mut Tokens, reader: &mut Reader, state: LexerState) -> Lexed
    ensures { IfOk result (λ after. IsRead tokens.old.items tokens.new.items reader.old reader.new
        after (spec.block_comment state reader.old)) }
{
    let fault = FaultKind::CommentEnd;
    comment_or_control_text(Region::BlockComment, fault, tokens, reader, state)
}

/// Reads a comment from `//` up to the line end. A section start before the line end is a fault.
pub fn line_comment(tokens: &mut Tokens, reader: &mut Reader, state: LexerState) -> Lexed
    ensures { IfOk result (λ after. IsRead tokens.old.items tokens.new.items reader.old reader.new
        after (spec.line_comment state reader.old)) }
{
    tokens.push(Token::White)?;
    reader.pass(Unit::Two);
    reader.skip_to_end(Region::LineComment);
    let line = reader.line(state.last_line);
    push_fault_if(tokens, starts_section(reader), FaultKind::CommentEnd, line)?;
    Ok(state)
}

/// Reads a control text, from its control code to `@>`. The end of the source before `@>`, or a
/// control code other than `@@`, is a fault.
pub fn control_text(tokens: &mut Tokens, reader: &mut Reader, state: LexerState) -> Lexed
    ensures { IfOk result (λ after. IsRead tokens.old.items tokens.new.items reader.old reader.new
        after (spec.control_text state reader.old)) }
{
    let fault = FaultKind::ControlText;
    comment_or_control_text(Region::ControlText, fault, tokens, reader, state)
}
