//! ASCII constants.
#![tactic(auto, using(crate::proofs::lemmas::RegionSteps::opened_steps))]

ghost use Rattle.std.specs.Prelude.{◌≡◌, ◌<◌, IfOk};
ghost use Rattle.tangle_lexer.specs.Reads.{IsRead};
ghost use Rattle.tangle_lexer.specs.Constants as spec;

use crate::modes::{Lexed, LexerState};
use crate::tokens::{Token, Tokens};
use tangle_lines::FaultKind;
use tangle_text::{Reader, Region, Unit, holds, is_octal};

/// The value of an ASCII constant, and the number of bytes of its character in the source.
#[derive(Clone, Copy)]
pub struct AsciiConstant {
    value: u8,
    count: usize,
}

/// The value of the escape sequence of a backslash and what follows it, if a constant may have it.
/// A line end makes none.
fn escape_value(byte: Option<u8>) -> Option<u8>
    ensures { result ≡ spec.escape_value byte }
{
    match byte? {
        b'a' => Some(7),
        b'b' => Some(8),
        b't' => Some(9),
        b'n' => Some(10),
        b'v' => Some(11),
        b'f' => Some(12),
        b'r' => Some(13),
        b'"' | b'\'' | b'?' | b'\\' => byte,
        _ => None,
    }
}

/// The constant of a character that has this value and `count` bytes, if an apostrophe follows.
fn if_closed(reader: &Reader, value: Option<u8>, count: usize) -> Option<AsciiConstant>
    ensures { result ≡ spec.if_closed value count reader.now }
{
    match value {
        Some(value) if holds(b'\'', reader.peek(count)) => Some(AsciiConstant { value, count }),
        _ => None,
    }
}

/// `if_closed` for a value that may be too large for a byte.
fn if_byte(reader: &Reader, value: usize, count: usize) -> Option<AsciiConstant>
    ensures { result ≡ spec.if_byte value count reader.now }
{
    if value <= 255 {
        if_closed(reader, Some(value as u8), count)
    } else {
        None
    }
}

/// The value of the octal digit at this distance from the front of the text ahead.
fn digit_at(reader: &Reader, distance: usize) -> usize
    ensures digit { result ≡ spec.digit_at distance reader.now }
    ensures small { result < 256 }
{
    match reader.peek(distance) {
        Some(byte) => usize::from(byte).saturating_sub(48),
        None => 0,
    }
}

/// The constant of a backslash and one to three octal digits. The caller has seen the backslash and
/// the first digit.
fn octal_constant(reader: &Reader) -> Option<AsciiConstant>
    ensures { result ≡ spec.octal_constant reader.now }
{
    let first = digit_at(reader, 1);
    if !is_octal(reader.peek(2)) {
        return if_byte(reader, first, 2);
    }
    let second = digit_at(reader, 2);
    if !is_octal(reader.peek(3)) {
        return if_byte(reader, 8 * first + second, 3);
    }
    let third = digit_at(reader, 3);
    if_byte(reader, 64 * first + 8 * second + third, 4)
}

/// The constant of a character that begins with a backslash, which the caller has seen.
fn escaped_constant(reader: &Reader) -> Option<AsciiConstant>
    ensures { result ≡ spec.escaped_constant reader.now }
{
    let next = reader.peek(1);
    if is_octal(next) {
        return octal_constant(reader);
    }
    if_closed(reader, escape_value(next), 2)
}

/// The constant whose character the text ahead begins with, after `@'`.
fn constant_at(reader: &Reader) -> Option<AsciiConstant>
    ensures { result ≡ spec.constant_at reader.now }
{
    match reader.byte() {
        None => None,
        Some(b'@') if holds(b'@', reader.peek(1)) => if_closed(reader, Some(b'@'), 2),
        Some(b'@') => None,
        Some(b'\\') => escaped_constant(reader),
        Some(b'\'') => None,
        Some(byte) => if_closed(reader, Some(byte), 1),
    }
}

/// Reads `@'` without a valid constant, through the next apostrophe on the line, or up to the line
/// end: white space with a fault.
fn bad_constant(tokens: &mut Tokens, reader: &mut Reader, state: LexerState) -> Lexed
    ensures { IfOk result (λ after. IsRead tokens.old.items tokens.new.items reader.old reader.new
        after (spec.bad_constant state reader.old)) }
{
    tokens.push(Token::White)?;
    tokens.push(Token::Fault(FaultKind::AsciiBad, reader.line(state.last_line)))?;
    reader.pass(Unit::Two);
    reader.skip_to_end(Region::BadConstant);
    if holds(b'\'', reader.byte()) {
        reader.advance();
    }
    Ok(state)
}

/// Reads `@'` with the ASCII constant after it, or with the fault of a bad one.
pub fn ascii_constant(tokens: &mut Tokens, reader: &mut Reader, state: LexerState) -> Lexed
    ensures { IfOk result (λ after. IsRead tokens.old.items tokens.new.items reader.old reader.new
        after (spec.ascii_constant state reader.old)) }
{
    let mut character = reader.copy();
    character.pass(Unit::Two);
    let Some(constant) = constant_at(&character) else {
        return bad_constant(tokens, reader, state);
    };
    tokens.push(Token::AsciiConstant(constant.value, reader.line(state.last_line)))?;
    reader.advance();
    reader.skip(2 + constant.count);
    Ok(state.elsewhere())
}
