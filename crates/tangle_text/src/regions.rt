//! Regions of the text, and the units of which they consist.
ghost use Rattle.std.specs.Prelude.{◌≡◌};
ghost use Rattle.tangle_text.specs.Regions as spec;

use crate::bytes::{
    holds, holds_white, holds_word_byte, is_end_code, is_name_start, is_section_start,
};

/// A part of the text, by the rule for its end.
#[derive(Clone, Copy)]
pub enum Region {
    /// Up to `*/` or a section start.
    BlockComment,
    /// Up to the line end or a section start.
    LineComment,
    /// Up to a control code other than `@@`.
    ControlText,
    /// Up to `@>` or the line end.
    Verbatim,
    /// Up to `@>`, a section start, or the start of another name.
    Name,
    /// Up to a double quote or the line end.
    DoubleQuote,
    /// Up to an apostrophe or the line end.
    Apostrophe,
    /// The name of a header after `#include <`: up to `>` or the line end.
    HeaderName,
    /// Up to a byte that is no word byte, or the line end.
    Word,
    /// Up to a byte that is no white space, or the line end.
    White,
    /// As a word, but over an apostrophe between two word bytes.
    Number,
    /// Up to an `@`, which may be on a later line.
    Prose,
    /// A bad ASCII constant: up to an apostrophe or the line end.
    BadConstant,
}

/// The next step over a region: its end, one byte or line end, or two that belong together.
#[derive(Clone, Copy)]
pub enum Unit {
    /// The region ends here.
    Stop,
    /// One byte or line end.
    One,
    /// Two bytes or line ends that belong together.
    Two,
}

fn unit_by(ends: bool, is_two: bool) -> Unit
    ensures { result ≡ spec.unit_by ends is_two }
{
    if ends {
        Unit::Stop
    } else if is_two {
        Unit::Two
    } else {
        Unit::One
    }
}

/// The unit at a position of a quoted text that ends with this byte.
fn quoted_unit(close: u8, byte: Option<u8>, next: Option<u8>) -> Unit
    ensures { result ≡ spec.quoted_unit close byte next }
{
    let next_is_at = holds(b'@', next);
    let is_two = holds(b'@', byte) && next_is_at || holds(b'\\', byte) && !next_is_at;
    unit_by(holds(close, byte) || byte.is_none(), is_two)
}

/// Whether a number goes on here over an apostrophe and the word byte after it.
#[inline(always)]
pub(crate) fn is_separator(byte: Option<u8>, next: Option<u8>) -> bool
    ensures { result ≡ spec.is_separator byte next }
{
    holds(b'\'', byte) && holds_word_byte(next)
}

/// The unit at a position of a region, by the two bytes or line ends from the position on.
#[inline(always)]
pub fn unit_of(region: Region, byte: Option<u8>, next: Option<u8>) -> Unit
    ensures { result ≡ spec.unit_of region byte next }
{
    let at = holds(b'@', byte);
    let doubled = at && holds(b'@', next);
    let section = is_section_start(byte, next);
    let is_end = is_end_code(byte, next);
    match region {
        Region::BlockComment => unit_by(holds(b'*', byte) && holds(b'/', next) || section, at),
        Region::LineComment => unit_by(byte.is_none() || section, at),
        Region::ControlText => unit_by(at && !holds(b'@', next), at),
        Region::Verbatim => unit_by(byte.is_none() || is_end, doubled),
        Region::Name => unit_by(is_end || section || is_name_start(byte, next), at),
        Region::DoubleQuote => quoted_unit(b'"', byte, next),
        Region::Apostrophe => quoted_unit(b'\'', byte, next),
        Region::HeaderName => unit_by(holds(b'>', byte) || byte.is_none(), doubled),
        Region::Word => unit_by(!holds_word_byte(byte), false),
        Region::White => unit_by(!holds_white(byte), false),
        Region::Number => {
            let separates = is_separator(byte, next);
            unit_by(!(holds_word_byte(byte) || separates), separates)
        }
        Region::Prose => unit_by(at, false),
        Region::BadConstant => unit_by(holds(b'\'', byte) || byte.is_none(), false),
    }
}

/// Whether ordinary bytes have no meaning in the region: it is a comment, a control text, or a
/// quoted or verbatim text.
pub fn skips_ordinary(region: Region) -> bool
    ensures { result ≡ spec.skips_ordinary region }
{
    matches!(
        region,
        Region::BlockComment
            | Region::LineComment
            | Region::ControlText
            | Region::Verbatim
            | Region::DoubleQuote
            | Region::Apostrophe
            | Region::HeaderName
    )
}
