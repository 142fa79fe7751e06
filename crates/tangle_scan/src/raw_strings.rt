//! Raw strings of C++. CWEB has none: it reads each as a quoted text, which may end elsewhere.
ghost use Rattle.std.specs.Prelude.{◌≡◌, ◌≤◌, ◌++◌, length, true, OnOk};
ghost use Rattle.std.specs.List.{list_all, prefix_len};
ghost use Rattle.tangle_lexer.specs.Runs.{IsRunIn};
ghost use Rattle.tangle_scan.specs.RawStrings as raw;
ghost use Rattle.tangle_scan.specs.Rules.{texts_of};
ghost use Rattle.tangle_scan.specs.Web as web;

use crate::faults::add_fault;
use crate::runs::last_token;
use crate::touching::{bytes_from, first_byte, source_byte, span_bytes};
use std::alloc::Global;
use tangle_lexer::{SpanKind, Token};
use tangle_lines::{Fault, FaultKind, NoMemory, Source};
use tangle_text::{Region, Span, Unit, is_white, unit_of};

/// Whether a word makes a raw string of the quoted text directly after it.
fn is_raw_prefix(word: &[u8]) -> bool
    ensures { result ≡ raw.is_raw_prefix word.now }
{
    word == b"R".as_slice()
        || word == b"LR".as_slice()
        || word == b"uR".as_slice()
        || word == b"UR".as_slice()
        || word == b"u8R".as_slice()
}

/// The number of bytes of a quoted text from here on to its closing byte or to the end of the line,
/// which a backslash at that end goes past.
#[tactic(auto, using(crate::proofs::lemmas::RawLemmas::size_step))]
fn quoted_size(bytes: &[u8]) -> usize
    ensures { result ≡ raw.quoted_size bytes.now }
{
    let mut end = 0;
    while end < bytes.len() {
        let next = bytes.get(end + 1).copied();
        match unit_of(Region::DoubleQuote, Some(bytes[end]), next) {
            Unit::Stop => return end,
            Unit::One => end += 1,
            Unit::Two => end += 2,
        }
    }
    end
}

/// Whether a byte may be in the delimiter of a raw string.
fn is_in_delimiter(byte: u8) -> bool
    ensures { result ≡ raw.is_in_delimiter byte }
{
    !(is_white(byte) || byte == b')' || byte == b'\\')
}

/// Whether these bytes may be the delimiter of a raw string, if they are not too many.
fn is_delimiter(bytes: &[u8]) -> bool
    ensures { result ≡ list_all raw.is_in_delimiter bytes.now }
{
    bytes.iter().all(|byte| is_in_delimiter(*byte))
}

/// The number of bytes before the first opening parenthesis.
fn size_before_parenthesis(bytes: &[u8]) -> usize
    ensures size { result ≡ prefix_len raw.is_before_parenthesis bytes.now }
    ensures inside { result ≤ length bytes.now }
{
    let mut end = 0;
    while end < bytes.len() && bytes[end] != b'(' {
        end += 1;
    }
    end
}

/// Whether these bytes, which are between two quotes, are as those of a raw string.
fn is_delimited(bytes: &[u8]) -> bool
    ensures { result ≡ raw.is_delimited bytes.now }
{
    let size = size_before_parenthesis(bytes);
    if size > 16 || bytes.len() < 2 * size + 2 {
        return false;
    }
    let end = bytes.len() - size;
    if bytes[end - 1] != b')' {
        return false;
    }
    is_delimiter(&bytes[..size]) && &bytes[end..] == &bytes[..size]
}

/// Whether the raw string whose opening quote is before these bytes ends where C++ ends it.
fn is_whole(bytes: &[u8]) -> bool
    ensures { result ≡ raw.is_whole bytes.now }
{
    let size = quoted_size(bytes);
    bytes.get(size).copied() == Some(b'"') && is_delimited(&bytes[..size])
}

/// Whether a double quote begins a quoted text directly after an R, as in a raw string.
#[inline(always)]
fn follows_r(source: &Source, quoted: Span) -> bool
    ensures { result ≡ raw.follows_r (texts_of source.now.lines) quoted }
{
    // An R is rare there, so that it is looked for first.
    let column = (quoted.start as usize).saturating_sub(1);
    source_byte(source, quoted.line, column) == b'R' && first_byte(source, quoted) == b'"'
}

/// Whether a token is a quoted text that begins as a raw string does.
#[inline(always)]
pub(crate) fn begins_after_r(source: &Source, token: Token) -> bool
    ensures { result ≡ raw.begins_after_r (texts_of source.now.lines) token }
{
    match token {
        Token::Span(SpanKind::Quoted, quoted) => follows_r(source, quoted),
        _ => false,
    }
}

/// Whether a quoted text that follows an R is a raw string that is not whole, if this word is before
/// it.
fn is_cut(source: &Source, word: Span, quoted: Span) -> bool
    requires { raw.follows_r (texts_of source.now.lines) quoted ≡ true }
    ensures { result ≡ raw.is_cut (texts_of source.now.lines) word quoted }
{
    if word.line != quoted.line || word.end != quoted.start {
        return false;
    }
    if !is_raw_prefix(span_bytes(source, word)) {
        return false;
    }
    !is_whole(bytes_from(source, quoted.line, quoted.start as usize + 1))
}

/// The word with which a token ends, if it ends with one.
fn word_at_end(source: &Source, token: Token) -> Option<Span>
    requires { IsRunIn (texts_of source.now.lines) token }
    ensures { result ≡ web.word_at_end (texts_of source.now.lines) token }
{
    match last_token(source, token) {
        Token::Span(SpanKind::Word, span) => Some(span),
        _ => None,
    }
}

/// The quoted text that begins with these tokens, or its first part; its own faults may be before it.
#[inline(always)]
fn quoted_ahead(tokens: &[Token]) -> Option<Span>
    ensures { result ≡ web.quoted_ahead tokens.now }
{
    let mut left = tokens;
    while let [token, rest @ ..] = left {
        match *token {
            Token::Span(SpanKind::Quoted, quoted) => return Some(quoted),
            Token::Fault(..) => left = rest,
            _ => return None,
        }
    }
    None
}

/// Adds the fault of the quoted text that begins with these tokens, if it is a raw string that is not
/// whole. `before` is the token before them.
#[inline(always)]
pub(crate) fn add_raw_fault(
    alloc: Global,
    source: &Source,
    faults: &mut Vec<Fault>,
    before: Token,
    tokens: &[Token],
) -> Result<(), NoMemory>
    requires { IsRunIn (texts_of source.now.lines) before }
    ensures { OnOk result (faults.new.items ≡ faults.old.items
        ++ web.raw_fault source.now.files source.now.lines
        (web.word_at_end (texts_of source.now.lines) before) (web.quoted_ahead tokens.now)) }
{
    if let Some(quoted) = quoted_ahead(tokens) {
        if follows_r(source, quoted) {
            if let Some(word) = word_at_end(source, before) {
                if is_cut(source, word, quoted) {
                    add_fault(alloc, source, faults, FaultKind::RawString, quoted.line)?;
                }
            }
        }
    }
    Ok(())
}
