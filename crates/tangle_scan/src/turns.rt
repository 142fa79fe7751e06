//! Turns: lines of C that turn or end a group of lines, which a compiler may leave out.
ghost use Rattle.std.specs.Prelude.{◌≡◌};
ghost use Rattle.tangle_lexer.specs.Runs.{IsRunOf};
ghost use Rattle.tangle_text.specs.Runs.{run_parts};
ghost use Rattle.tangle_scan.specs.Directives as directives;
ghost use Rattle.tangle_scan.specs.Passes as passes;
ghost use Rattle.tangle_scan.specs.Rules.{texts_of};

use crate::runs::parts_of_run;
use crate::touching::{first_byte, span_bytes};
use tangle_lexer::{SpanKind, Token};
use tangle_lines::Source;
use tangle_text::{RunPart, Span};

/// How much of a turn is on a line of C.
#[derive(Clone, Copy)]
pub(crate) enum Turn {
    /// No item.
    NoItem,
    /// The sign `#`.
    NumberSign,
    /// The sign `#` and a word that turns or ends a group: the line is a turn.
    Whole,
    /// Other items: the line is no turn.
    Other,
}

/// Whether the line is a turn.
#[inline(always)]
pub(crate) fn is_whole(at: Turn) -> bool
    ensures { result ≡ passes.is_whole at }
{
    matches!(at, Turn::Whole)
}

/// Whether a word, directly after the sign `#` of a directive, turns or ends a group.
fn is_turn_word(word: &[u8]) -> bool
    ensures { result ≡ directives.is_turn_word word.now }
{
    word == b"else".as_slice()
        || word == b"elif".as_slice()
        || word == b"endif".as_slice()
        || word == b"elifdef".as_slice()
        || word == b"elifndef".as_slice()
}

/// How much of a turn is on the line after a token that is no line end. After a use or `@h` a line
/// of C begins.
#[inline(always)]
pub(crate) fn turn_after(source: &Source, at: Turn, token: Token) -> Turn
    ensures { result ≡ passes.turn_after (texts_of source.now.lines) at token }
{
    match (at, token) {
        (_, Token::UseOf(..) | Token::AllMacros(_)) => Turn::NoItem,
        (Turn::NoItem, Token::Span(SpanKind::Sign, span)) if first_byte(source, span) == b'#' => {
            Turn::NumberSign
        }
        (Turn::NumberSign, Token::Span(SpanKind::Word, span))
            if is_turn_word(span_bytes(source, span)) => { Turn::Whole }
        (
            Turn::NoItem | Turn::NumberSign,
            Token::Span(..) | Token::QuoteBreak(_) | Token::AsciiConstant(..),
        ) => Turn::Other,
        _ => at,
    }
}

/// How much of a turn is on the line after a run, which does not begin with the sign `#`.
#[inline(always)]
pub(crate) fn turn_after_run(source: &Source, at: Turn, span: Span) -> Turn
    requires { IsRunOf (texts_of source.now.lines) span }
    ensures { result ≡ passes.turn_after_run (texts_of source.now.lines) at span }
{
    match at {
        Turn::NoItem => Turn::Other,
        Turn::NumberSign if begins_turn(source, span) => Turn::Whole,
        Turn::NumberSign => Turn::Other,
        at => at,
    }
}

/// Whether the first part of a run is a word that turns or ends a group.
// Few runs are after the sign `#`, so that this is not inlined.
#[inline(never)]
fn begins_turn(source: &Source, span: Span) -> bool
    requires { IsRunOf (texts_of source.now.lines) span }
    ensures { result ≡ passes.parts_begin_turn (texts_of source.now.lines)
        (run_parts (texts_of source.now.lines) span) }
{
    match parts_of_run(source, span).next() {
        Some(RunPart::Word(word)) => is_turn_word(span_bytes(source, word)),
        _ => false,
    }
}

/// How much of a turn is on the line after the end of a source line. A line of C begins there, unless
/// the source line is continued or is the last one.
#[inline(always)]
pub(crate) fn turn_after_line_end(source: &Source, is_continued: bool, line: u32, at: Turn) -> Turn
    ensures { result ≡ passes.turn_after_line_end source.now.lines is_continued line at }
{
    if is_continued || line as usize + 1 >= source.count() {
        at
    } else {
        Turn::NoItem
    }
}
