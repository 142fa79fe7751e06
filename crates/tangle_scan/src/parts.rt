//! The text of a C part, in one pass over its tokens. White space becomes a blank between two items
//! of a line, and at the start of a line that continues another; other white space is dropped. A
//! line end inside a comment or a control text of a directive is white space. A join removes the
//! white space and the line ends around it: line ends are added at once, and removed again if a
//! join follows in their gap. A blank goes between a word and an ASCII constant that touch, in
//! either order, and between two constants that touch. A line mark follows each use and each `@h`.
//! It also replaces a line end if a compiler would count another origin for the next source line,
//! and at the end of a turn, except at the end of a continued line.
ghost use Rattle.std.specs.Prelude.{◌≡◌, ◌≤◌, ◌<◌, ◌+◌, ◌^◌, ◌++◌, ◌∷◌, ◌||◌, [], List, max};
ghost use Rattle.std.specs.Prelude.{if◌then◌else◌, true, false, None, Some, IfOk, OnOk};
ghost use Rattle.std.specs.List.{list_any, All};
ghost use Rattle.tangle_lines.specs.Reading.{origin_at};
ghost use Rattle.tangle_lexer.specs.Heads.{is_head};
ghost use Rattle.tangle_lexer.specs.Runs.{IsRunIn, IsRunOf, unfolded, unfolded_token};
ghost use Rattle.tangle_lexer.specs.SpanBytes as span_bytes;
ghost use Rattle.tangle_lexer.specs.declared.tokens.Token.{Token as TokenRead};
ghost use Rattle.tangle_lexer.specs.declared.tokens.Token.TheVariants as token;
ghost use Rattle.tangle_scan.specs.declared.items.Item.{Item as ItemRead};
ghost use Rattle.tangle_scan.specs.declared.items.Item.TheVariants as item;
ghost use Rattle.tangle_text.specs.declared.spans.Span.{Span as SpanRead};
ghost use Rattle.tangle_scan.specs.LineTruth.{counted_after_line_end};
ghost use Rattle.tangle_scan.specs.Passes as passes;
ghost use Rattle.tangle_scan.specs.Passes.{IsMade, before_gap, blank_if, highest, origin_of};
ghost use Rattle.tangle_scan.specs.Passes.{start_of_gap};
ghost use Rattle.tangle_scan.specs.RawStrings as raw;
ghost use Rattle.tangle_scan.specs.Rules as rules;
ghost use Rattle.tangle_scan.specs.Rules.{texts_of};
ghost use Rattle.tangle_scan.specs.Texts.{IsTextOf, item_kind, no_text, with_items, with_run};
ghost use Rattle.tangle_scan.specs.declared.parts.Last.TheVariants as last;
ghost use Rattle.tangle_scan.specs.Web as web;

use crate::faults::add_faults_if;
use crate::items::OccurrenceNumber;
use crate::raw_strings::begins_after_r;
use crate::texts::{ItemKind, PartText, TextSize};
use crate::touching::{first_byte, last_byte, span_bytes, would_merge_in_run};
use crate::turns::{Turn, is_whole, turn_after, turn_after_line_end, turn_after_run};
use std::alloc::Global;
use tangle_lexer::{SpanKind, Token};
use tangle_lines::{Fault, NoMemory, Origin, Source};
use tangle_text::Span;

/// The origin that a C compiler counts at a position, by the marks and line ends before it.
#[derive(Clone, Copy)]
struct CountedOrigin {
    file: usize,
    line: usize,
}

/// What is before a position, if white space and faults are left out.
#[derive(Clone, Copy)]
enum Last {
    /// Nothing, or the end of a line that is not continued.
    Front,
    /// The end of a line that the next one continues.
    Continued,
    /// A join. White space and line ends after it are dropped.
    Joined,
    Item,
}

/// Where a gap of joins, white space and line ends begins: the size of the text before it, how much
/// of a turn is on its line, and the counted origin there.
#[derive(Clone, Copy)]
struct Start {
    size: TextSize,
    turn: Turn,
    counted: CountedOrigin,
}

/// The state of a C part while its text is made. `start` is the start of the current gap; it has no
/// meaning unless that gap has a line end.
#[derive(Clone, Copy)]
struct PartState {
    last: Last,
    /// Whether white space is between `last` and the position.
    has_white: bool,
    /// The last item or run; white space, if there is none.
    item: Token,
    /// How much of a turn is on the line of C.
    turn: Turn,
    counted: CountedOrigin,
    start: Start,
}

/// What was noted of the tokens so far.
#[derive(Clone, Copy)]
struct TokenNotes {
    /// Whether some token is `@h`.
    has_all_macros: bool,
    /// Whether some token may have a fault.
    may_have_fault: bool,
}

/// Whether white space before an item is a blank: its line has an item before it, or it continues
/// another line.
#[inline(always)]
fn keeps_white(last: Last) -> bool
    ensures { result ≡ passes.keeps_white last }
{
    matches!(last, Last::Continued | Last::Item)
}

/// Whether only white space was read since a line end, or since the front of the part.
#[inline(always)]
fn is_after_line_end(last: Last) -> bool
    ensures { result ≡ passes.is_after_line_end last }
{
    matches!(last, Last::Front | Last::Continued)
}

/// What `last` is after the end of a line, which the next line may continue.
#[inline(always)]
fn last_after_line_end(is_continued: bool) -> Last
    ensures { result ≡ passes.last_after_line_end is_continued }
{
    if is_continued {
        Last::Continued
    } else {
        Last::Front
    }
}

/// The counted origin after a mark with this origin.
#[inline(always)]
fn counted_at(origin: Origin) -> CountedOrigin
    ensures origin { origin_of result ≡ origin }
    ensures limit { result.line < 2 ^ 32 }
{
    CountedOrigin {
        file: origin.file as usize,
        line: origin.line as usize,
    }
}

/// The counted origin one line later.
fn next_line(counted: CountedOrigin) -> CountedOrigin
    requires { counted.line < 2 ^ 63 }
    ensures counted { origin_of result ≡ rules.next_line (origin_of counted) }
    ensures limit { result.line ≡ counted.line + 1 }
{
    CountedOrigin {
        line: counted.line + 1,
        ..counted
    }
}

/// The origin of the next source line, if there is one and a mark has to set that origin: the line
/// is a turn, or the count does not expect the origin.
fn marked_origin(
    source: &Source,
    counted: CountedOrigin,
    line: u32,
    is_turn: bool,
) -> Option<Origin>
    requires { counted.line < 2 ^ 63 }
    ensures { result
        ≡ (if passes.is_unmarked source.now.lines is_turn (origin_of counted) line then None
        else Some (origin_at source.now.lines (line + 1))) }
{
    let next = line as usize + 1;
    if next >= source.count() {
        return None;
    }
    let origin = source.origin(next);
    let is_expected = origin.file as usize == counted.file
        && origin.line as usize == counted.line + 1;
    if is_expected && !is_turn {
        return None;
    }
    Some(origin)
}

/// Adds the item for the end of a source line, and returns the counted origin after it. The item is
/// a line end if the line is continued, or if it is no turn and the count expects the next source
/// line, else a mark.
#[inline(always)]
fn push_line_end(
    source: &Source,
    text: &mut PartText,
    counted: CountedOrigin,
    line: u32,
    is_continued: bool,
    is_turn: bool,
) -> Result<CountedOrigin, NoMemory>
    requires { counted.line < 2 ^ 63 }
    ensures text { OnOk result (text.new ≡ with_items (texts_of source.now.lines) text.old
        (passes.line_item source.now.lines is_continued is_turn (origin_of counted) line ∷ [])) }
    ensures counted { IfOk result (λ next. origin_of next
        ≡ counted_after_line_end source.now.lines is_continued (origin_of counted) line) }
    ensures limit { IfOk result (λ next. next.line ≤ max (2 ^ 32) (counted.line + 1)) }
{
    let marked = marked_origin(source, counted, line, is_turn);
    match marked {
        Some(origin) if !is_continued => {
            text.add_mark(origin)?;
            Ok(counted_at(origin))
        }
        _ => {
            text.add_byte(ItemKind::LineEnd, b'\n')?;
            Ok(next_line(counted))
        }
    }
}

/// The kind of an item with a span of this kind.
#[inline(always)]
fn kind_of(kind: SpanKind) -> ItemKind
    ensures { (span : SpanRead) → result ≡ item_kind (rules.span_item kind span) }
{
    match kind {
        SpanKind::Word => ItemKind::Word,
        SpanKind::Sign => ItemKind::Sign,
        SpanKind::Quoted => ItemKind::Quoted,
        SpanKind::Verbatim => ItemKind::Verbatim,
    }
}

/// Adds the items of a token other than white space and line ends, with a mark after a use or `@h`.
/// Returns the counted origin after them.
#[inline(always)]
fn push_items(
    source: &Source,
    text: &mut PartText,
    counted: CountedOrigin,
    token: Token,
) -> Result<CountedOrigin, NoMemory>
    requires { counted.line < 2 ^ 63 }
    ensures text { OnOk result (text.new ≡ with_items (texts_of source.now.lines) text.old
        (passes.items_at source.now.lines token)) }
    ensures counted { IfOk result (λ next. origin_of next
        ≡ passes.counted_after_token source.now.lines (origin_of counted) token) }
    ensures limit { IfOk result (λ next. next.line ≤ max (2 ^ 32) (counted.line + 1)) }
{
    match token {
        Token::Span(kind, span) => {
            text.add_bytes(kind_of(kind), span_bytes(source, span))?;
            Ok(counted)
        }
        Token::AsciiConstant(value, _) => {
            text.add_constant(value)?;
            Ok(counted)
        }
        Token::QuoteBreak(_) => {
            text.add_byte(ItemKind::QuoteBreak, b'\n')?;
            Ok(next_line(counted))
        }
        Token::UseOf(line, occurrence) => {
            text.add_use(OccurrenceNumber::new(occurrence))?;
            push_mark(source, text, line)
        }
        Token::AllMacros(line) => {
            text.add_all_macros()?;
            push_mark(source, text, line)
        }
        _ => Ok(counted),
    }
}

/// Adds a mark with the origin of a source line, and returns the counted origin after it.
#[inline(always)]
fn push_mark(source: &Source, text: &mut PartText, line: u32) -> Result<CountedOrigin, NoMemory>
    ensures text { OnOk result (text.new ≡ with_items (texts_of source.now.lines) text.old
        (item.LineMark (origin_at source.now.lines line) ∷ [])) }
    ensures counted { IfOk result (λ next. origin_of next ≡ origin_at source.now.lines line) }
    ensures limit { IfOk result (λ next. next.line < 2 ^ 32) }
{
    let origin = source.origin(line as usize);
    text.add_mark(origin)?;
    Ok(counted_at(origin))
}

/// Whether a token is a sign or a verbatim text that ends in this byte.
#[inline(always)]
fn ends_in(source: &Source, token: Token, byte: u8) -> bool
    ensures { result ≡ span_bytes.ends_in byte (texts_of source.now.lines) token }
{
    match token {
        Token::Span(SpanKind::Sign, span) => first_byte(source, span) == byte,
        Token::Span(SpanKind::Verbatim, span) => last_byte(source, span) == byte,
        _ => false,
    }
}

/// Whether the next line continues the one that ends here.
// No run ends in a backslash, so that its last byte need not be looked up.
#[inline(always)]
fn is_continued_at(source: &Source, at: &PartState) -> bool
    ensures { result ≡ passes.is_continued_at (texts_of source.now.lines) at.now }
{
    matches!(at.last, Last::Item) && ends_in(source, at.item, b'\\')
}

/// Whether a blank goes before an item or a run: it would merge with the item directly before it, or
/// white space before it is kept.
#[inline(always)]
fn has_blank_before(source: &Source, at: &PartState, token: Token) -> bool
    ensures { result ≡ passes.blank_before source.now.lines at.now token }
{
    if at.has_white {
        return keeps_white(at.last);
    }
    matches!(at.last, Last::Item) && would_merge_in_run(source, at.item, token)
}

/// Ends the gap before an item or a run.
#[inline(always)]
fn end_gap(
    source: &Source,
    text: &mut PartText,
    at: &mut PartState,
    token: Token,
) -> Result<(), NoMemory>
    ensures text { OnOk result (text.new ≡ with_items (texts_of source.now.lines) text.old
        (blank_if (passes.blank_before source.now.lines at.old token))) }
    ensures at { OnOk result
        (at.new ≡ record at.old { last = last.Item; has_white = false; item = token }) }
{
    if has_blank_before(source, at, token) {
        text.add_byte(ItemKind::Blank, b' ')?;
    }
    at.last = Last::Item;
    at.has_white = false;
    at.item = token;
    Ok(())
}

/// Adds a run.
#[inline(always)]
fn add_run(
    source: &Source,
    text: &mut PartText,
    at: &mut PartState,
    span: Span,
) -> Result<(), NoMemory>
    requires { IsRunOf (texts_of source.now.lines) span }
    ensures text { OnOk result (let texts = texts_of source.now.lines in
        text.new ≡ with_run texts (with_items texts text.old
        (blank_if (passes.blank_before source.now.lines at.old (token.Run span)))) span) }
    ensures at { OnOk result (at.new ≡ record at.old {
      last = last.Item;
      has_white = false;
      item = token.Run span;
      turn = passes.turn_after_run (texts_of source.now.lines) at.old.turn span;
    }) }
{
    end_gap(source, text, at, Token::Run(span))?;
    text.add_bytes(ItemKind::Run, span_bytes(source, span))?;
    at.turn = turn_after_run(source, at.turn, span);
    Ok(())
}

/// Adds the items of a token that is an item.
#[inline(always)]
fn add_item(
    source: &Source,
    text: &mut PartText,
    at: &mut PartState,
    token: Token,
) -> Result<(), NoMemory>
    requires { at.old.counted.line < 2 ^ 63 }
    ensures text { OnOk result (let texts = texts_of source.now.lines in
        text.new ≡ with_items texts (with_items texts text.old
        (blank_if (passes.blank_before source.now.lines at.old token)))
        (passes.items_at source.now.lines token)) }
    ensures at { OnOk result (at.new ≡ record at.old {
      last = last.Item;
      has_white = false;
      item = token;
      turn = passes.turn_after (texts_of source.now.lines) at.old.turn token;
      counted = at.new.counted;
    }) }
    ensures counted { OnOk result (origin_of at.new.counted
        ≡ passes.counted_after_token source.now.lines (origin_of at.old.counted) token) }
    ensures limit { OnOk result (at.new.counted.line ≤ max (2 ^ 32) (at.old.counted.line + 1)) }
{
    end_gap(source, text, at, token)?;
    at.counted = push_items(source, text, at.counted, token)?;
    at.turn = turn_after(source, at.turn, token);
    Ok(())
}

/// Notes where the gap of a line end begins, unless the gap has a line end already.
#[inline(always)]
fn note_gap(text: &PartText, at: &mut PartState)
    ensures { at.new ≡ record at.old { start = start_of_gap text.now at.old } }
{
    if !is_after_line_end(at.last) {
        at.start = Start {
            size: text.size(),
            turn: at.turn,
            counted: at.counted,
        };
    }
}

/// Adds the item for the end of a source line, which no join before it in its gap removes.
#[inline(always)]
fn add_line_end(
    source: &Source,
    text: &mut PartText,
    at: &mut PartState,
    line: u32,
) -> Result<(), NoMemory>
    requires { at.old.counted.line < 2 ^ 63 }
    ensures text { OnOk result (let texts = texts_of source.now.lines in
        text.new ≡ with_items texts text.old (passes.line_item source.now.lines
        (passes.is_continued_at texts at.old) (passes.is_whole at.old.turn)
        (origin_of at.old.counted) line ∷ [])) }
    ensures at { OnOk result (let continued = passes.is_continued_at (texts_of source.now.lines) at.old in
        at.new ≡ record at.old {
          last = passes.last_after_line_end continued;
          has_white = false;
          turn = passes.turn_after_line_end source.now.lines continued line at.old.turn;
          start = start_of_gap text.old at.old;
          counted = at.new.counted;
        }) }
    ensures counted { OnOk result (origin_of at.new.counted
        ≡ counted_after_line_end source.now.lines
        (passes.is_continued_at (texts_of source.now.lines) at.old) (origin_of at.old.counted) line) }
    ensures limit { OnOk result (at.new.counted.line ≤ max (2 ^ 32) (at.old.counted.line + 1)) }
{
    note_gap(text, at);
    let is_continued = is_continued_at(source, at);
    let is_turn = is_whole(at.turn);
    at.counted = push_line_end(source, text, at.counted, line, is_continued, is_turn)?;
    at.last = last_after_line_end(is_continued);
    at.has_white = false;
    at.turn = turn_after_line_end(source, is_continued, line, at.turn);
    Ok(())
}

/// Applies a join: removes the line ends of its gap, and sets the counted origin and what is on the
/// line of C back to those at the start of the gap.
#[inline(always)]
fn apply_join(text: &mut PartText, at: &mut PartState)
    ensures text { text.new ≡ before_gap text.old at.old }
    ensures at { at.new ≡ record at.old {
      last = last.Joined;
      turn = passes.turn_at_gap at.old;
      counted = passes.counted_at_gap at.old;
    } }
{
    if is_after_line_end(at.last) {
        text.cut(at.start.size);
        at.turn = at.start.turn;
        at.counted = at.start.counted;
    }
    at.last = Last::Joined;
}

fn is_all_macros(token: Token) -> bool
    ensures { result ≡ web.is_all_macros token }
{
    matches!(token, Token::AllMacros(_))
}

/// Notes what is rare of a token that is an item.
#[inline(always)]
fn note_item(source: &Source, notes: &mut TokenNotes, token: Token)
    ensures all_macros { notes.new.has_all_macros
        ≡ (notes.old.has_all_macros || web.is_all_macros token) }
    ensures fault { notes.new.may_have_fault ≡ (notes.old.may_have_fault
        || raw.begins_after_r (texts_of source.now.lines) token) }
{
    if is_all_macros(token) {
        notes.has_all_macros = true;
    }
    if begins_after_r(source, token) {
        notes.may_have_fault = true;
    }
}

/// Adds the text of a token of a C part, and notes what is rare of it.
#[inline(always)]
fn add_token(
    source: &Source,
    text: &mut PartText,
    at: &mut PartState,
    notes: &mut TokenNotes,
    token: &Token,
) -> Result<(), NoMemory>
    requires no_head { is_head token.now ≡ false }
    requires line { highest at.old < 2 ^ 63 }
    requires run { IsRunIn (texts_of source.now.lines) token.now }
    ensures made { OnOk result ((whole : List ItemRead) (rest : List TokenRead) →
        IsMade source.now.lines whole text.old at.old
        (unfolded_token (texts_of source.now.lines) token.now ++ rest)
        → IsMade source.now.lines whole text.new at.new rest) }
    ensures limit { OnOk result (highest at.new ≤ max (2 ^ 32) (highest at.old + 1)) }
    ensures all_macros { OnOk result (notes.new.has_all_macros
        ≡ (notes.old.has_all_macros || web.is_all_macros token.now)) }
    ensures fault { OnOk result (notes.new.may_have_fault ≡ (notes.old.may_have_fault
        || raw.may_have_fault (texts_of source.now.lines) token.now)) }
{
    match *token {
        // A line end inside a comment or a control text of a directive is no line end of the C.
        Token::White | Token::InnerLineEnd(_) => {
            at.has_white = true;
            Ok(())
        }
        Token::LineEnd(line) => {
            if let Last::Joined = at.last {
                return Ok(());
            }
            add_line_end(source, text, at, line)?;
            Ok(())
        }
        Token::Run(span) => {
            add_run(source, text, at, span)?;
            Ok(())
        }
        Token::Join => {
            apply_join(text, at);
            Ok(())
        }
        Token::Fault(..) => {
            notes.may_have_fault = true;
            Ok(())
        }
        _ => {
            add_item(source, text, at, *token)?;
            note_item(source, notes, *token);
            Ok(())
        }
    }
}

/// Whether the slash of the mark that closes a piece has to be kept apart from the items before it.
fn is_open(source: &Source, at: &PartState) -> bool
    ensures { result ≡ passes.ends_open (texts_of source.now.lines) at.now }
{
    match (at.last, at.item) {
        (Last::Continued, _) => true,
        (Last::Front, _) => false,
        (_, Token::Run(span)) => last_byte(source, span) == b'/',
        (_, token) => ends_in(source, token, b'/'),
    }
}

/// The state at the front of a C part whose head ends on this source line.
fn first_state(source: &Source, text: &PartText, line: u32) -> PartState
    requires { text.now ≡ no_text }
    ensures made { (tokens : List TokenRead) → IsMade source.now.lines
        (rules.part_items source.now.lines line tokens) text.now result tokens }
    ensures limit { highest result < 2 ^ 32 }
{
    let counted = counted_at(source.origin(line as usize));
    PartState {
        last: Last::Front,
        has_white: false,
        item: Token::White,
        turn: Turn::NoItem,
        counted,
        start: Start {
            size: text.size(),
            turn: Turn::NoItem,
            counted,
        },
    }
}

/// Replaces `text` by that of a C part whose head ends on this line, and adds the faults among its
/// tokens. Returns whether some of its tokens are `@h`.
pub(crate) fn fill_part(
    alloc: Global,
    source: &Source,
    faults: &mut Vec<Fault>,
    text: &mut PartText,
    line: u32,
    tokens: &[Token],
) -> Result<bool, NoMemory>
    requires no_head { list_any is_head tokens.now ≡ false }
    requires runs { All (IsRunIn (texts_of source.now.lines)) tokens.now }
    ensures text { OnOk result (IsTextOf (texts_of source.now.lines)
        (rules.part_items source.now.lines line
        (unfolded (texts_of source.now.lines) tokens.now)) text.new) }
    ensures all_macros { IfOk result
        (λ has_all_macros. has_all_macros ≡ list_any web.is_all_macros tokens.now) }
    ensures faults { OnOk result (faults.new.items ≡ faults.old.items
        ++ web.token_faults source.now.files source.now.lines None tokens.now) }
{
    text.clear();
    let mut at = first_state(source, text, line);
    let mut notes = TokenNotes {
        has_all_macros: false,
        may_have_fault: false,
    };
    for token in tokens {
        add_token(source, text, &mut at, &mut notes, token)?;
    }
    add_faults_if(alloc, source, faults, tokens, notes.may_have_fault)?;
    if is_open(source, &at) {
        text.add_byte(ItemKind::Blank, b' ')?;
    }
    Ok(notes.has_all_macros)
}
