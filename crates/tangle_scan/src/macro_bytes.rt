//! The bytes of macros.
ghost use Rattle.std.specs.Prelude.{◌≡◌, ◌++◌, ◌∷◌, [], flat_map, OnOk};
ghost use Rattle.std.specs.List.{All};
ghost use Rattle.tangle_lexer.specs.Runs.{IsRunIn};
ghost use Rattle.tangle_scan.specs.Passes.{spaced_items, written_items};
ghost use Rattle.tangle_scan.specs.MacroBytes as spec;
ghost use Rattle.tangle_scan.specs.Rules.{texts_of};

use crate::touching::{first_byte, span_bytes};
use itoa::Buffer;
use tangle_lexer::{SpanKind, Token};
use tangle_lines::{NoMemory, Source};

/// Adds the bytes of a token of a macro. A line end gets a backslash before it.
#[tactic(auto, using(crate::proofs::lemmas::MacroEndLemmas::run_bytes))]
fn push_token(bytes: &mut Vec<u8>, source: &Source, token: Token) -> Result<(), NoMemory>
    ensures { OnOk result (let texts = texts_of source.now.lines in bytes.new.items ≡ bytes.old.items
        ++ flat_map (spec.macro_item_bytes texts) (written_items texts token)) }
{
    match token {
        Token::Span(_, span) => bytes.extend_from_slice(span_bytes(source, span))?,
        Token::Run(span) => bytes.extend_from_slice(span_bytes(source, span))?,
        Token::AsciiConstant(value, _) => bytes.extend_from_slice(
            Buffer::new().format(value).as_bytes(),
        )?,
        Token::White => bytes.push(b' ')?,
        Token::QuoteBreak(_) => bytes.push(b'\n')?,
        Token::LineEnd(_) => bytes.extend_from_slice(b"\\\n")?,
        _ => {}
    }
    Ok(())
}

/// Whether a token is white space, a line end, a backslash or no item. These are not written at the
/// end of a macro: after a macro that ends in a backslash, a C compiler would read the next macro as
/// a part of it.
fn is_dropped_at_end(source: &Source, token: Token) -> bool
    ensures { result ≡ spec.is_dropped_token (texts_of source.now.lines) token }
{
    match token {
        Token::Span(SpanKind::Sign, span) => first_byte(source, span) == b'\\',
        Token::Span(..) | Token::Run(_) | Token::QuoteBreak(_) | Token::AsciiConstant(..) => false,
        _ => true,
    }
}

/// The tokens up to the last one that is no white space, line end or backslash.
fn without_end<'t>(source: &Source, tokens: &'t [Token]) -> &'t [Token]
    requires { All (IsRunIn (texts_of source.now.lines)) tokens.now }
    ensures { let texts = texts_of source.now.lines in
        spaced_items texts result.now ≡ spec.without_end texts (spaced_items texts tokens.now) }
{
    let mut left = tokens;
    while let Some((last, front)) = left.split_last() {
        if !is_dropped_at_end(source, *last) {
            return left;
        }
        left = front;
    }
    left
}

/// Adds the bytes of a macro, as a line that begins with `#define`.
// It is not inlined into the long function that gathers a web.
#[inline(never)]
pub(crate) fn push_macro(
    bytes: &mut Vec<u8>,
    source: &Source,
    tokens: &[Token],
) -> Result<(), NoMemory>
    requires { All (IsRunIn (texts_of source.now.lines)) tokens.now }
    ensures { OnOk result (let texts = texts_of source.now.lines in bytes.new.items
        ≡ bytes.old.items ++ spec.macro_bytes texts (spaced_items texts tokens.now)) }
{
    bytes.extend_from_slice(b"#define ")?;
    for token in without_end(source, tokens) {
        push_token(bytes, source, *token)?;
    }
    bytes.push(b'\n')?;
    Ok(())
}
