//! The kind of the lexeme that begins at a position, by the two bytes or line ends there.
ghost use Rattle.std.specs.Prelude.{◌≡◌};
ghost use Rattle.tangle_lexer.specs.CText as spec;

use crate::modes::IncludeState;
use tangle_text::{holds, is_white, is_word_byte, lower};

/// What begins at a position of C text or of a macro.
#[derive(Clone, Copy)]
pub enum LexemeKind {
    Control(ControlCode),
    /// `/*`.
    BlockComment,
    /// `//`.
    LineComment,
    DoubleQuote,
    Apostrophe,
    /// `<` after `#include`.
    HeaderName,
    LineEnd,
    White,
    Word,
    Other,
}

/// A control code: `@` and the byte after it. A capital letter counts as its small letter.
#[derive(Clone, Copy)]
pub enum ControlCode {
    /// `@` before white space or a line end, and `@*`.
    SectionStart,
    /// `@@`.
    DoubleAt,
    /// `@d`.
    Macro,
    /// `@f` and `@s`.
    Format,
    /// `@c` and `@p`.
    UnnamedPart,
    /// `@<` and `@(`.
    Name,
    /// `@^`, `@.`, `@:`, `@t` and `@q`.
    ControlText,
    /// `@=`.
    Verbatim,
    /// `@&`.
    Join,
    /// `@h`.
    AllMacros,
    /// `@'`.
    AsciiConstant,
    /// `@` before another byte.
    Other,
}

/// The control code that `@` makes with the next byte, or with a line end (`None`).
pub fn code_at(next: Option<u8>) -> ControlCode
    ensures { result ≡ spec.code_at next }
{
    match next {
        Some(byte) => code_of(lower(byte)),
        None => ControlCode::SectionStart,
    }
}

/// The control code that `@` makes with this byte, which is not a capital letter.
fn code_of(byte: u8) -> ControlCode
    ensures { result ≡ spec.code_of byte }
{
    if is_white(byte) || byte == b'*' {
        return ControlCode::SectionStart;
    }
    match byte {
        b'@' => ControlCode::DoubleAt,
        b'd' => ControlCode::Macro,
        b'f' | b's' => ControlCode::Format,
        b'c' | b'p' => ControlCode::UnnamedPart,
        b'<' | b'(' => ControlCode::Name,
        b'^' | b'.' | b':' | b't' | b'q' => ControlCode::ControlText,
        b'=' => ControlCode::Verbatim,
        b'&' => ControlCode::Join,
        b'h' => ControlCode::AllMacros,
        b'\'' => ControlCode::AsciiConstant,
        _ => ControlCode::Other,
    }
}

/// What begins with `byte`, which is not `@`. `next` is the byte after it.
fn byte_kind(include: IncludeState, byte: u8, next: Option<u8>) -> LexemeKind
    ensures { result ≡ spec.byte_kind include byte next }
{
    if byte == b'/' && holds(b'*', next) {
        LexemeKind::BlockComment
    } else if byte == b'/' && holds(b'/', next) {
        LexemeKind::LineComment
    } else if byte == b'"' {
        LexemeKind::DoubleQuote
    } else if byte == b'\'' {
        LexemeKind::Apostrophe
    } else if byte == b'<' && matches!(include, IncludeState::AfterInclude) {
        LexemeKind::HeaderName
    } else if is_white(byte) {
        LexemeKind::White
    } else if is_word_byte(byte) {
        LexemeKind::Word
    } else {
        LexemeKind::Other
    }
}

/// What begins with `byte`; `next` comes after it. `None` is a line end.
#[inline(always)]
pub fn kind_by(include: IncludeState, byte: Option<u8>, next: Option<u8>) -> LexemeKind
    ensures { result ≡ spec.kind_by include byte next }
{
    match byte {
        None => LexemeKind::LineEnd,
        Some(b'@') => LexemeKind::Control(code_at(next)),
        Some(byte) => byte_kind(include, byte, next),
    }
}
