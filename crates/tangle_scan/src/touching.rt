//! Which items may touch.
ghost use Rattle.std.specs.Prelude.{◌≡◌, ◌<◌, ◌^◌, drop, get_or, length, []};
ghost use Rattle.tangle_lexer.specs.SpanBytes as span_bytes;
ghost use Rattle.tangle_scan.specs.Passes as passes;
ghost use Rattle.tangle_scan.specs.Rules as rules;
ghost use Rattle.tangle_scan.specs.Rules.{texts_of};

use tangle_lexer::{SpanKind, Token};
use tangle_lines::Source;
use tangle_text::{Span, is_word_byte};

/// How a C compiler may join an item to its neighbour if no white space is between the two.
#[derive(Clone, Copy)]
pub(crate) enum TouchKind {
    /// A sign that is a token by itself, and never a part of a longer token.
    Separator,
    /// A sign that may be a part of a longer operator or of a number.
    Operator,
    /// An identifier or a quoted text.
    Plain,
    /// All other items: a number, a verbatim text, an ASCII constant, any other sign.
    Other,
}

/// The byte at this column of a line, or 0 if the line has no such column.
fn byte_at(line: &[u8], column: usize) -> u8
    ensures { result ≡ get_or line.now column 0 }
{
    line.get(column).copied().unwrap_or(0)
}

/// The byte at this column of a source line, or 0 if the source has no such byte.
pub(crate) fn source_byte(source: &Source, line: u32, column: usize) -> u8
    ensures { result ≡ get_or (get_or (texts_of source.now.lines) line []) column 0 }
{
    byte_at(source.line(line as usize), column)
}

/// The byte at the start of a span of the source, or 0 if the source has no such byte.
pub(crate) fn first_byte(source: &Source, span: Span) -> u8
    ensures { result ≡ span_bytes.first_byte (texts_of source.now.lines) span }
{
    source_byte(source, span.line, span.start as usize)
}

/// The last byte of a span of the source, or 0 if the span has none.
pub(crate) fn last_byte(source: &Source, span: Span) -> u8
    ensures { result ≡ span_bytes.last_byte (texts_of source.now.lines) span }
{
    if span.end <= span.start {
        return 0;
    }
    source_byte(source, span.line, span.end as usize - 1)
}

/// The bytes of a source line from a column on.
pub(crate) fn bytes_from<'s>(source: &'s Source, line: u32, column: usize) -> &'s [u8]
    ensures { result.now ≡ drop column (get_or (texts_of source.now.lines) line []) }
{
    let line = source.line(line as usize);
    if column < line.len() {
        &line[column..]
    } else {
        &[]
    }
}

/// The bytes of a span of the source, as far as the source has them.
#[inline(always)]
pub(crate) fn span_bytes<'s>(source: &'s Source, span: Span) -> &'s [u8]
    ensures text { result.now ≡ rules.span_text (texts_of source.now.lines) span }
    ensures short { length result.now < 2 ^ 16 }
{
    let line = source.line(span.line as usize);
    let start = span.start as usize;
    let end = line.len().min(span.end as usize);
    if start < end { &line[start..end] } else { &[] }
}

/// Whether a number beside this token would be read as one with it: an ASCII constant, a word, a
/// verbatim text, a full stop or a backslash.
#[inline(always)]
fn may_merge(source: &Source, token: Token) -> bool
    ensures { result ≡ rules.may_merge (texts_of source.now.lines) token }
{
    match token {
        Token::AsciiConstant(..) => true,
        Token::Span(SpanKind::Word | SpanKind::Verbatim, _) => true,
        Token::Span(SpanKind::Sign, span) => matches!(first_byte(source, span), b'.' | b'\\'),
        _ => false,
    }
}

/// Whether a token is a quoted text that an apostrophe begins.
#[inline(always)]
fn is_character(source: &Source, token: Token) -> bool
    ensures { result ≡ rules.is_character (texts_of source.now.lines) token }
{
    match token {
        Token::Span(SpanKind::Quoted, span) => first_byte(source, span) == b'\'',
        _ => false,
    }
}

/// Whether two tokens, of which one is an ASCII constant, would be read as one number with nothing
/// between them.
#[inline(always)]
fn would_merge(source: &Source, before: Token, token: Token) -> bool
    ensures { result ≡ rules.would_merge (texts_of source.now.lines) before token }
{
    match (before, token) {
        (Token::AsciiConstant(..), _) => { may_merge(source, token) || is_character(source, token) }
        (_, Token::AsciiConstant(..)) => may_merge(source, before),
        _ => false,
    }
}

/// Whether a number beside a run that begins or ends with this byte would be read as one with it.
fn is_merging_byte(byte: u8) -> bool
    ensures { result ≡ passes.is_merging_byte byte }
{
    is_word_byte(byte) || byte == b'.' || byte == b'\\'
}

/// Whether two tokens, which may be runs, would be read as one with nothing between them.
#[inline(always)]
pub(crate) fn would_merge_in_run(source: &Source, before: Token, token: Token) -> bool
    ensures { result ≡ passes.would_merge_in_run (texts_of source.now.lines) before token }
{
    match (before, token) {
        (Token::AsciiConstant(..), Token::Run(span)) => is_merging_byte(first_byte(source, span)),
        (Token::Run(span), Token::AsciiConstant(..)) => is_merging_byte(last_byte(source, span)),
        _ => would_merge(source, before, token),
    }
}

/// The kind of the sign that this byte is.
fn sign_kind(byte: u8) -> TouchKind
    ensures { result ≡ rules.sign_kind byte }
{
    if b"()[]{};,~".contains(&byte) {
        TouchKind::Separator
    } else if b"!#%&*+-/:<=>?^|".contains(&byte) {
        TouchKind::Operator
    } else {
        TouchKind::Other
    }
}

/// The kind of the item that a token becomes.
fn touch_kind(source: &Source, token: Token) -> TouchKind
    ensures { result ≡ rules.touch_kind (texts_of source.now.lines) token }
{
    match token {
        Token::Span(SpanKind::Sign, span) => sign_kind(first_byte(source, span)),
        Token::Span(SpanKind::Word, span) => {
            if first_byte(source, span).is_ascii_digit() {
                TouchKind::Other
            } else {
                TouchKind::Plain
            }
        }
        Token::Span(SpanKind::Quoted, _) => TouchKind::Plain,
        _ => TouchKind::Other,
    }
}

/// Whether two items may touch: a C compiler reads the same tokens with and without white space
/// between the two.
pub(crate) fn may_touch(source: &Source, before: Token, after: Token) -> bool
    ensures { result ≡ rules.may_touch (texts_of source.now.lines) before after }
{
    matches!(
        (touch_kind(source, before), touch_kind(source, after)),
        (TouchKind::Separator, _)
            | (_, TouchKind::Separator)
            | (TouchKind::Operator, TouchKind::Plain)
            | (TouchKind::Plain, TouchKind::Operator)
    )
}
