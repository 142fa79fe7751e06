//! The items of a macro, in one pass over its tokens, in which a run stands for its first and its
//! last item. The gap between two items is what joins, white space and line ends are there. What is
//! left of it is added with the second item. White space goes between a word and an ASCII constant
//! that touch, in either order, between two constants that touch, and after the name. Nothing is
//! left of a gap that has a join. A C compiler takes out all line ends of a macro. So where line
//! ends keep two items apart, a blank goes before the line ends if the two may not touch, or if the
//! first ends the macro's name. A backslash of the author's before a line end is dropped.
ghost use Rattle.std.specs.Prelude.{◌≡◌, ◌≤◌, ◌<◌, ◌+◌, ◌^◌, ◌++◌, ◌∷◌, [], true, false, ◌&&◌, ℕ};
ghost use Rattle.std.specs.Prelude.{List, replicate, length, IfOk, IfSome, OnOk};
ghost use Rattle.std.specs.List.{All};
ghost use Rattle.tangle_scan.specs.Rules as rules;
ghost use Rattle.tangle_scan.specs.Rules.{texts_of};
ghost use Rattle.tangle_scan.specs.Passes as passes;
ghost use Rattle.tangle_scan.specs.Passes.{items_ahead, blank_if, gap_of, gap_before, from_item, left_gap};
ghost use Rattle.tangle_scan.specs.Passes.{gap_tokens, plain_state, spaced_items};
ghost use Rattle.tangle_lexer.specs.Runs.{is_run, first_is_alone, unfolded, unfolded_token, IsRunIn};
ghost use Rattle.tangle_scan.specs.declared.items.Item.TheVariants as item;
ghost use Rattle.tangle_lexer.specs.declared.tokens.Token.{Token as TokenRead};

use crate::runs::{are_words, first_token, last_token};
use crate::touching::{first_byte, may_touch, would_merge_in_run};
use std::alloc::Global;
use tangle_lexer::{SpanKind, Token};
use tangle_lines::{NoMemory, Source};
use tangle_text::Span;

/// What is between two items.
#[derive(Clone, Copy)]
struct Gap {
    has_join: bool,
    has_white: bool,
    line_ends: usize,
}

/// A gap with nothing in it.
fn no_gap() -> Gap
    ensures { result ≡ gap_of [] }
{
    Gap {
        has_join: false,
        has_white: false,
        line_ends: 0,
    }
}

/// The gap before the first item of these tokens, and the tokens from that item on.
fn read_gap(tokens: &[Token]) -> (Gap, &[Token])
    ensures gap { result.0 ≡ gap_of (gap_before tokens.now) }
    ensures next { result.1.now ≡ from_item tokens.now }
    ensures count { result.0.line_ends + length result.1.now ≤ length tokens.now }
{
    let mut gap = no_gap();
    let mut left = tokens;
    while let [token, rest @ ..] = left {
        match *token {
            Token::Join => gap.has_join = true,
            Token::White | Token::InnerLineEnd(_) => gap.has_white = true,
            Token::LineEnd(_) => gap.line_ends += 1,
            Token::Fault(..) => {}
            _ => return (gap, left),
        }
        left = rest;
    }
    (gap, left)
}

/// Whether a token may follow the name of a macro without white space.
fn may_follow_name(source: &Source, token: Token) -> bool
    ensures { result ≡ rules.may_follow_name (texts_of source.now.lines) token }
{
    match token {
        Token::White | Token::LineEnd(_) | Token::InnerLineEnd(_) | Token::Join => true,
        Token::Span(SpanKind::Sign, span) => first_byte(source, span) == b'(',
        _ => false,
    }
}

/// Whether white space goes between an item and the first of these tokens, which is directly after
/// it. `is_first`: the item is the first one of the macro.
fn is_spaced(source: &Source, is_first: bool, item: Token, tokens: &[Token]) -> bool
    requires { All (IsRunIn (texts_of source.now.lines)) tokens.now }
    ensures { result
        ≡ passes.is_spaced_in_run (texts_of source.now.lines) is_first item tokens.now }
{
    match tokens.first() {
        Some(token) => {
            is_first && !may_follow_name(source, first_token(source, *token))
                || would_merge_in_run(source, item, *token)
        }
        None => false,
    }
}

/// What is left of the gap between an item and the next one, and the tokens from the next one on.
fn gap_after<'t>(
    source: &Source,
    is_first: bool,
    item: Token,
    rest: &'t [Token],
) -> (Gap, &'t [Token])
    requires item { IsRunIn (texts_of source.now.lines) item }
    requires runs { All (IsRunIn (texts_of source.now.lines)) rest.now }
    ensures gap { let texts = texts_of source.now.lines in result.0
        ≡ gap_of (left_gap texts is_first (passes.last_token texts item) (unfolded texts rest.now)) }
    ensures next { result.1.now ≡ from_item rest.now }
    ensures count { result.0.line_ends + length result.1.now ≤ length rest.now }
{
    let (gap, next) = read_gap(rest);
    if gap.has_join {
        return (no_gap(), next);
    }
    let is_empty = gap.line_ends == 0 && !gap.has_white;
    let has_white = gap.has_white || is_empty && is_spaced(source, is_first, item, next);
    (Gap { has_white, ..gap }, next)
}

/// The state of a macro while its items are made.
#[derive(Clone, Copy)]
struct MacroState {
    /// Whether no item was read.
    is_first: bool,
    /// The last item, if there is one.
    item: Option<Token>,
    /// Whether all items so far are the macro's name.
    in_name: bool,
    /// What is left of the gap after the last item.
    gap: Gap,
}

/// Whether all items up to this one are the macro's name.
fn is_in_name(source: &Source, at: MacroState, token: Token) -> bool
    requires { IsRunIn (texts_of source.now.lines) token }
    ensures { result
        ≡ (passes.is_at_name at && passes.are_name_parts (texts_of source.now.lines) token) }
{
    if !at.in_name || at.gap.line_ends != 0 || at.gap.has_white {
        return false;
    }
    match token {
        Token::AsciiConstant(..) | Token::Span(SpanKind::Word | SpanKind::Verbatim, _) => true,
        Token::Run(span) => are_words(source, span),
        _ => false,
    }
}

/// Whether a token is a backslash before a line end. `gap` is left of the gap after it.
fn is_dropped(source: &Source, token: Token, gap: Gap) -> bool
    ensures { result ≡ passes.is_dropped (texts_of source.now.lines) token gap }
{
    match token {
        Token::Span(SpanKind::Sign, span) if gap.line_ends != 0 => {
            first_byte(source, span) == b'\\'
        }
        _ => false,
    }
}

/// Whether a blank goes before an item.
fn has_blank(source: &Source, at: MacroState, token: Token) -> bool
    requires item { IfSome at.item (IsRunIn (texts_of source.now.lines)) }
    requires run { IsRunIn (texts_of source.now.lines) token }
    ensures { let texts = texts_of source.now.lines in
        result ≡ passes.has_blank texts at.in_name (plain_state texts at).item at.gap
        (passes.first_token texts token) }
{
    match at.item {
        None => false,
        Some(_) if at.gap.line_ends == 0 => at.gap.has_white,
        Some(item) => {
            at.in_name || !may_touch(source, last_token(source, item), first_token(source, token))
        }
    }
}

/// Adds what is left of a gap: a blank, and line ends, of which only the number counts.
fn push_gap(spaced: &mut Vec<Token>, has_blank: bool, line_ends: usize) -> Result<(), NoMemory>
    ensures { OnOk result (spaced.new.items
        ≡ spaced.old.items ++ gap_tokens has_blank line_ends) }
{
    if has_blank {
        spaced.push(Token::White)?;
    }
    for _ in 0..line_ends {
        spaced.push(Token::LineEnd(0))?;
    }
    Ok(())
}

/// Adds a token that is an item or a run, unless it is dropped. `gap` is left of the gap after it.
fn add_token(
    source: &Source,
    spaced: &mut Vec<Token>,
    at: MacroState,
    token: Token,
    gap: Gap,
) -> Result<MacroState, NoMemory>
    requires solid { passes.is_solid token ≡ true }
    requires limit { at.gap.line_ends + gap.line_ends < 2 ^ 64 }
    requires item { IfSome at.item (IsRunIn (texts_of source.now.lines)) }
    requires run { IsRunIn (texts_of source.now.lines) token }
    requires alone { at.is_first ≡ true → is_run token ≡ false }
    ensures items { IfOk result (λ next. (rest : List TokenRead) →
        let texts = texts_of source.now.lines in
        gap ≡ gap_of (left_gap texts at.is_first (passes.last_token texts token) rest) →
        spaced_items texts spaced.new.items
        ++ items_ahead texts (plain_state texts next) (from_item rest)
        ≡ spaced_items texts spaced.old.items
        ++ items_ahead texts (plain_state texts at) (unfolded_token texts token ++ rest)) }
    ensures runs { OnOk result (All (IsRunIn (texts_of source.now.lines)) spaced.old.items
        → All (IsRunIn (texts_of source.now.lines)) spaced.new.items) }
    ensures next { IfOk result (λ next. (next.is_first ≡ false)
        × IfSome next.item (IsRunIn (texts_of source.now.lines))) }
    ensures count { IfOk result
        (λ next. next.gap.line_ends ≤ at.gap.line_ends + gap.line_ends) }
{
    if is_dropped(source, token, gap) {
        let both = Gap {
            has_join: false,
            has_white: at.gap.has_white | gap.has_white,
            line_ends: at.gap.line_ends + gap.line_ends,
        };
        return Ok(MacroState {
            is_first: false,
            gap: both,
            ..at
        });
    }
    push_gap(spaced, has_blank(source, at, token), at.gap.line_ends)?;
    spaced.push(token)?;
    Ok(MacroState {
        is_first: false,
        item: Some(token),
        in_name: is_in_name(source, at, token),
        gap,
    })
}

// It is not inlined into the long function that gathers a web, so that its state stays in
// registers.
/// The spaced tokens of a macro, from all its tokens: its items and runs, and the white space and the
/// line ends that are written between them.
///
/// # Errors
///
/// `NoMemory`, if an allocation failed.
#[inline(never)]
pub fn tokens_of_macro(
    alloc: Global,
    source: &Source,
    tokens: &[Token],
) -> Result<Vec<Token>, NoMemory>
    requires runs { All (IsRunIn (texts_of source.now.lines)) tokens.now }
    requires alone { first_is_alone tokens.now ≡ true }
    ensures items { IfOk result (λ spaced. let texts = texts_of source.now.lines in
        spaced_items texts spaced.items ≡ rules.macro_items texts (unfolded texts tokens.now)) }
    ensures runs { IfOk result
        (λ spaced. All (IsRunIn (texts_of source.now.lines)) spaced.items) }
{
    // Nothing is left of the gap before the first item.
    let (_, mut left) = read_gap(tokens);
    let mut spaced = Vec::with_capacity(alloc, left.len())?;
    let mut at = MacroState {
        is_first: true,
        item: None,
        in_name: true,
        gap: no_gap(),
    };
    while let [token, rest @ ..] = left {
        let (gap, next) = gap_after(source, at.is_first, *token, rest);
        at = add_token(source, &mut spaced, at, *token, gap)?;
        left = next;
    }
    push_gap(&mut spaced, false, at.gap.line_ends)?;
    Ok(spaced)
}
