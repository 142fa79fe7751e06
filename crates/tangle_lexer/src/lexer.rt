//! The lexer: from the text to its tokens, one C part or macro at a time.
ghost use Rattle.std.specs.Prelude.{◌≡◌, ◌<◌, ◌++◌, ℕ, [], true, length, map, IfOk, IfSome};
ghost use Rattle.std.specs.Prelude.{IfNone, OnOk, Some, option_to_list};
ghost use Rattle.std.specs.List.{All};
ghost use Rattle.tangle_text.specs.Text.{IsRestOf, texts_of};
ghost use Rattle.tangle_lexer.specs.declared.modes.Mode.TheVariants as mode;
ghost use Rattle.tangle_lexer.specs.declared.tokens.Token.TheVariants as token;
ghost use Rattle.tangle_lexer.specs.Runs.{unfolded, first_is_alone, IsRunIn};
ghost use Rattle.tangle_lexer.specs.Steps.{tokens_from, occurrences_from};
ghost use Rattle.tangle_lexer.specs.Steps as spec;
ghost use Rattle.tangle_lexer.specs.Occurrences.{occurrence_of};
ghost use Rattle.tangle_lexer.specs.Heads.{is_head as is_head_token};
ghost use Rattle.tangle_lexer.specs.Heads.{HasNoHead, PopsHead};

use crate::modes::{LexerState, LineState, Mode};
use crate::simple::read_simple;
use crate::steps::step;
use crate::tokens::{LexerBuffers, Token, Tokens};
use tangle_lines::{NoMemory, Source};
use tangle_text::Reader;

/// The state of the lexer before the first line of this source: limbo, with no occurrence read.
pub fn first_state(source: &Source) -> LexerState
    ensures { result ≡ spec.first_state (length source.now.lines) }
{
    LexerState {
        mode: Mode::Limbo,
        line: LineState::front(),
        occurrences: 0,
        last_line: source.count().saturating_sub(1) as u32,
    }
}

/// Removes and returns the last token, if it is a head: it begins a section, a macro or a C part.
fn pop_head(tokens: &mut Tokens) -> Option<Token>
    ensures { PopsHead tokens.old.items tokens.new.items result }
{
    match tokens.last() {
        Some(
            Token::Section | Token::MacroStart(_) | Token::UnnamedPart(_) | Token::NamedPart(_, _),
        ) => tokens.pop(),
        _ => None,
    }
}

/// Reads the tokens up to the next head, which begins a section, a macro or a C part, or up to the
/// end of the text.
///
/// `from` is the state at the position of `reader`, which advances past the head; `from.occurrences`
/// has to be the number of occurrences in `buffers`. The tokens before the head, with the faults
/// among them, replace those in `buffers`. The occurrences that were read are added to those in
/// `buffers`. Returns the state after the head, and the head itself, or `None` at the end of the
/// text. Runs take the place of the words, signs, quoted texts and spaces in
/// them, in a macro after its first item.
///
/// # Errors
///
/// `NoMemory`, if an allocation failed.
pub fn next_block(
    source: &Source,
    buffers: &mut LexerBuffers,
    reader: &mut Reader,
    from: LexerState,
) -> Result<(LexerState, Option<Token>), NoMemory>
    requires occurrences { from.occurrences ≡ length buffers.old.occurrences.items }
    requires ours { IsRestOf source.now.lines reader.old }
    ensures tokens { IfOk result (λ next. tokens_from from reader.old
        ≡ unfolded (texts_of source.now.lines) buffers.new.tokens.items
        ++ option_to_list next.1 ++ tokens_from next.0 reader.new) }
    ensures ours { OnOk result (IsRestOf source.now.lines reader.new) }
    ensures runs { OnOk result
        (All (IsRunIn (texts_of source.now.lines)) buffers.new.tokens.items) }
    ensures alone { OnOk result ((from.mode ≡ mode.CPart → ⊥)
        → first_is_alone buffers.new.tokens.items ≡ true) }
    ensures no_head { OnOk result (HasNoHead buffers.new.tokens.items) }
    ensures head { IfOk result (λ next. IfSome next.1 (λ head. is_head_token head ≡ true)) }
    ensures in_macro { IfOk result (λ next. (line : ℕ) → next.1 ≡ Some (token.MacroStart line)
        → next.0.mode ≡ mode.Macro) }
    ensures end { IfOk result (λ next. IfNone next.1 (reader.new ≡ [])) }
    ensures shorter { IfOk result
        (λ next. IfSome next.1 (λ head. length reader.new < length reader.old)) }
    ensures occurrences { IfOk result (λ next. buffers.new.occurrences.items
        ++ map (occurrence_of source.now.lines) (occurrences_from next.0 reader.new)
        ≡ buffers.old.occurrences.items ++ map (occurrence_of source.now.lines)
        (occurrences_from from reader.old)) }
    ensures count { IfOk result
        (λ next. next.0.occurrences ≡ length buffers.new.occurrences.items) }
{
    buffers.tokens.clear();
    let mut state = from;
    while let Some(front) = reader.front() {
        state = step(source, buffers, reader, state, front)?;
        if let Some(head) = pop_head(&mut buffers.tokens) {
            return Ok((state, Some(head)));
        }
        state = read_simple(&mut buffers.tokens, reader, state)?;
    }
    Ok((state, None))
}
