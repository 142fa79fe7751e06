//! Tests of bytes. Each position of the text has a byte, or `None` at a line end.
ghost use Rattle.std.specs.Prelude.{◌≡◌};
ghost use Rattle.tangle_lines.specs.Bytes as lines;
ghost use Rattle.tangle_text.specs.Bytes as spec;

use crate::classes::is_word_byte;

/// Whether the byte at a position is the expected one; false at a line end.
pub fn holds(expected: u8, byte: Option<u8>) -> bool
    ensures { result ≡ spec.holds expected byte }
{
    matches!(byte, Some(byte) if byte == expected)
}

/// Whether a byte is a space, a tab, a carriage return, a vertical tab or a form feed.
pub fn is_white(byte: u8) -> bool
    ensures { result ≡ lines.is_white byte }
{
    byte == b' ' || byte == b'\t' || byte == b'\r' || byte == 11 || byte == 12
}

/// Whether a byte is a decimal digit.
pub fn is_digit(byte: u8) -> bool
    ensures { result ≡ spec.is_digit byte }
{
    b'0' <= byte && byte <= b'9'
}

/// The small letter of a capital one; any other byte unchanged.
pub fn lower(byte: u8) -> u8
    ensures { result ≡ spec.lower byte }
{
    if b'A' <= byte && byte <= b'Z' {
        byte + 32
    } else {
        byte
    }
}

/// Whether the byte at a position is white space; false at a line end.
pub fn holds_white(byte: Option<u8>) -> bool
    ensures { result ≡ spec.holds_white byte }
{
    matches!(byte, Some(byte) if is_white(byte))
}

/// Whether the byte at a position is white space, or the position is a line end.
pub fn is_white_or_line_end(byte: Option<u8>) -> bool
    ensures { result ≡ spec.is_white_or_line_end byte }
{
    byte.is_none() || holds_white(byte)
}

/// Whether the byte at a position is a word byte; false at a line end.
pub fn holds_word_byte(byte: Option<u8>) -> bool
    ensures { result ≡ spec.holds_word_byte byte }
{
    matches!(byte, Some(byte) if is_word_byte(byte))
}

/// Whether the byte at a position is an octal digit; false at a line end.
pub fn is_octal(byte: Option<u8>) -> bool
    ensures { result ≡ spec.is_octal byte }
{
    matches!(byte, Some(b'0'..=b'7'))
}

/// Whether a section starts at the position: with `@` before white space or a line end, or with
/// `@*`.
pub fn is_section_start(byte: Option<u8>, next: Option<u8>) -> bool
    ensures { result ≡ spec.is_section_start byte next }
{
    holds(b'@', byte) && (is_white_or_line_end(next) || holds(b'*', next))
}

/// Whether the position has `@<` or `@(`.
pub fn is_name_start(byte: Option<u8>, next: Option<u8>) -> bool
    ensures { result ≡ spec.is_name_start byte next }
{
    holds(b'@', byte) && (holds(b'<', next) || holds(b'(', next))
}

/// Whether the position has `@>`.
pub fn is_end_code(byte: Option<u8>, next: Option<u8>) -> bool
    ensures { result ≡ spec.is_end_code byte next }
{
    holds(b'@', byte) && holds(b'>', next)
}
