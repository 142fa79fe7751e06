//! A loop for the simple lexemes: words, white space, signs and line ends, which are most of C
//! text. A run of words, signs, quoted texts and single spaces is read at once.
ghost use Rattle.std.specs.Prelude.{◌≡◌, ◌≤◌, ◌<◌, true, List, length, IfOk, IfSome, OnOk};
ghost use Rattle.tangle_lines.specs.Reading.{SourceLine};
ghost use Rattle.tangle_text.specs.Text.{IsRestOf};
ghost use Rattle.tangle_lexer.specs.Lexemes.{with_line};
ghost use Rattle.tangle_lexer.specs.Reads.{IsRead, ReadsOn, AddsSimple};
ghost use Rattle.tangle_lexer.specs.Simple.{IsSimple, simple_kind};
ghost use Rattle.tangle_lexer.specs.Runs as runs;
ghost use Rattle.tangle_lexer.specs.Simple as spec;
ghost use Rattle.tangle_lexer.specs.Steps.{c_lexeme};

use crate::modes::{IncludeState, Lexed, LexerState, LineState, Mode};
use crate::steps::{line_end, sign, white_space, word};
use crate::tokens::{Pushed, Token, Tokens, is_between_items};
use tangle_text::{Reader, Unit, holds, is_sign_byte, is_white, is_word_byte};

/// A lexeme whose kind is known from its first byte, or from a line end.
#[derive(Clone, Copy)]
pub enum SimpleLexeme {
    Word,
    White,
    Sign,
    LineEnd,
}

/// The simple lexeme that begins with this byte; `None` if the byte may open something longer.
#[inline(always)]
fn simple_of(byte: u8) -> Option<SimpleLexeme>
    ensures { result ≡ spec.simple_of byte }
{
    if is_word_byte(byte) {
        Some(SimpleLexeme::Word)
    } else if is_sign_byte(byte) {
        Some(SimpleLexeme::Sign)
    } else if is_white(byte) {
        Some(SimpleLexeme::White)
    } else {
        None
    }
}

/// The simple lexeme that the text ahead begins with, if it begins with one.
#[inline(always)]
fn simple_at(reader: &Reader) -> Option<SimpleLexeme>
    ensures { IfSome result (λ simple. IsSimple reader.now simple) }
{
    match reader.byte() {
        Some(byte) => simple_of(byte),
        None if reader.is_at_end() => None,
        None => Some(SimpleLexeme::LineEnd),
    }
}

#[inline(always)]
fn simple_step(
    tokens: &mut Tokens,
    reader: &mut Reader,
    state: LexerState,
    simple: SimpleLexeme,
) -> Lexed
    requires { IsSimple reader.old simple }
    ensures { IfOk result (λ after. IsRead tokens.old.items tokens.new.items reader.old reader.new
        after (c_lexeme (simple_kind simple) state reader.old)) }
{
    match simple {
        SimpleLexeme::Word => word(tokens, reader, state),
        SimpleLexeme::White => white_space(tokens, reader, state),
        SimpleLexeme::LineEnd => line_end(tokens, reader, state),
        SimpleLexeme::Sign => {
            let after = state.after_sign(reader.byte());
            sign(tokens, reader, Unit::One, after)
        }
    }
}

/// Whether some of these tokens is an item.
// It is called in macros alone, and mostly stops at the second token. So it is not inlined.
#[inline(never)]
fn has_item(tokens: &[Token]) -> bool
    ensures { result ≡ runs.has_item tokens.now }
{
    tokens.iter().any(|token| !is_between_items(*token))
}

/// Whether a run may begin with a simple lexeme that begins with this byte. It may with a word and
/// with a sign other than `#`, unless `#include` was begun before it; in a macro, after its first
/// item, which begins the macro's name.
#[inline(always)]
fn begins_run(tokens: &[Token], state: LexerState, simple: SimpleLexeme, byte: Option<u8>) -> bool
    ensures { result ≡ spec.begins_run tokens.now state.mode state.line.include simple byte }
{
    matches!(simple, SimpleLexeme::Word | SimpleLexeme::Sign)
        && matches!(
            state.line.include,
            IncludeState::AtStart | IncludeState::Elsewhere
        )
        && !holds(b'#', byte)
        && (matches!(state.mode, Mode::CPart) || has_item(tokens))
}

/// Reads the run that begins here, or else this simple lexeme. `line` is how the line of C was read
/// so far.
#[inline(always)]
fn run_or_simple(
    tokens: &mut Tokens,
    reader: &mut Reader,
    from: LexerState,
    line: &mut LineState,
    simple: SimpleLexeme,
) -> Pushed
    requires simple { IsSimple reader.old simple }
    requires mode { spec.is_c_text from.mode ≡ true }
    ensures read { OnOk result ((lines : List SourceLine) → IsRestOf lines reader.old
        → ReadsOn lines tokens.old.items tokens.new.items (with_line line.old from)
        (with_line line.new from) reader.old reader.new) }
    ensures adds { OnOk result (AddsSimple from.mode tokens.old.items tokens.new.items) }
    ensures shorter { OnOk result (length reader.new < length reader.old) }
{
    let state = from.with_line(*line);
    if begins_run(tokens, state, simple, reader.byte()) {
        if let Some(run) = reader.take_run() {
            tokens.push(Token::Run(run))?;
            line.set(state.elsewhere().line);
            return Ok(());
        }
    }
    let after = simple_step(tokens, reader, state, simple)?;
    line.set(after.line);
    Ok(())
}

/// Reads simple lexemes of C text, and runs in place of those that they consist of, up to a byte
/// that may open something longer. In limbo and in documentation it reads nothing.
pub fn read_simple(tokens: &mut Tokens, reader: &mut Reader, from: LexerState) -> Lexed
    ensures read { IfOk result (λ after. (lines : List SourceLine) → IsRestOf lines reader.old
        → ReadsOn lines tokens.old.items tokens.new.items from after reader.old reader.new) }
    ensures adds { OnOk result (AddsSimple from.mode tokens.old.items tokens.new.items) }
    ensures mode { IfOk result (λ after. after.mode ≡ from.mode) }
    ensures count { IfOk result (λ after. after.occurrences ≡ from.occurrences) }
    ensures shorter { OnOk result (length reader.new ≤ length reader.old) }
{
    if !matches!(from.mode, Mode::CPart | Mode::Macro) {
        return Ok(from);
    }
    // `here` and `line` are local, so that their fields stay in registers in the loop.
    let mut here = reader.copy();
    let mut line = from.line;
    while let Some(simple) = simple_at(&here) {
        run_or_simple(tokens, &mut here, from, &mut line, simple)?;
    }
    *reader = here;
    Ok(from.with_line(line))
}
