//! One step of the lexer: it reads the lexeme at a position, by the rules of the mode.
ghost use Rattle.std.specs.Prelude.{◌≡◌, ◌≢◌, [], ◌∷◌, length, drop, IfOk, IsSome, None};
ghost use Rattle.tangle_text.specs.Ahead.{IsFront};
ghost use Rattle.tangle_lexer.specs.Reads.{IsRead, ReadsLexeme};
ghost use Rattle.tangle_text.specs.Text.{byte_at, span_at};
ghost use Rattle.tangle_text.specs.Regions.{count_before, more_by};
ghost use Rattle.tangle_text.specs.declared.regions.Region.TheVariants as region;
ghost use Rattle.tangle_lexer.specs.Lexemes.{in_mode, lexeme_of};
ghost use Rattle.tangle_lexer.specs.declared.tokens.SpanKind.TheVariants as span_kind;
ghost use Rattle.tangle_lexer.specs.declared.tokens.Token.TheVariants as token;
ghost use Rattle.tangle_lexer.specs.declared.lexeme_kinds.ControlCode.TheVariants as control_code;
ghost use Rattle.tangle_lexer.specs.declared.lexeme_kinds.LexemeKind.TheVariants as lexeme_kinds;
ghost use Rattle.tangle_lexer.specs.CText as c_text;
ghost use Rattle.tangle_lexer.specs.Steps as spec;

use crate::comments::{block_comment, control_text, line_comment};
use crate::constants::ascii_constant;
use crate::lexeme_kinds::{ControlCode, LexemeKind, code_at, kind_by};
use crate::modes::{IncludeState, Lexed, LexerState, Mode};
use crate::names::{name_in_documentation, use_of_name};
use crate::quoted::{quoted_text, verbatim_text};
use crate::tokens::{LexerBuffers, SpanKind, Token, Tokens, push_fault_if};
use tangle_lines::{FaultKind, Source};
use tangle_text::{Front, Reader, Region, Unit, holds, is_section_start, lower};

/// Begins a section. Only the `@` is read: the byte after it is skipped as documentation.
fn section_start(tokens: &mut Tokens, reader: &mut Reader, state: LexerState) -> Lexed
    ensures { IfOk result (λ after. IsRead tokens.old.items tokens.new.items reader.old reader.new
        after (c_text.section_start state)) }
{
    tokens.push(Token::Section)?;
    reader.advance();
    Ok(state.in_mode(Mode::Documentation))
}

/// Skips what is next, and the text after it up to an `@`.
fn prose(reader: &mut Reader)
    ensures { reader.new ≡ drop (count_before region.Prose (drop 1 reader.old)) (drop 1 reader.old) }
{
    reader.advance();
    reader.skip_prose();
}

/// Whether `@` makes a control code with this byte that may stand before the first section.
fn is_limbo_code(next: Option<u8>) -> bool
    ensures { result ≡ spec.is_limbo_code next }
{
    match next {
        Some(byte) => matches!(lower(byte), b'@' | b'f' | b's' | b'l' | b'q' | b'>'),
        None => false,
    }
}

/// Reads the first section start, or skips text in limbo: a control code, which may be a fault, or
/// the text up to an `@`.
fn limbo(tokens: &mut Tokens, reader: &mut Reader, state: LexerState, front: Front) -> Lexed
    requires { IsFront reader.old front }
    ensures { IfOk result (λ after. IsRead tokens.old.items tokens.new.items reader.old reader.new
        after (spec.limbo_lexeme state reader.old)) }
{
    if is_section_start(front.byte, front.next) {
        return section_start(tokens, reader, state);
    }
    if holds(b'@', front.byte) {
        let line = reader.line(state.last_line);
        let is_fault = !is_limbo_code(front.next);
        push_fault_if(tokens, is_fault, FaultKind::LimboCode, line)?;
        reader.pass(Unit::Two);
    } else {
        prose(reader);
    }
    Ok(state)
}

/// Reads a control code that becomes this token.
#[inline(always)]
fn code_token(tokens: &mut Tokens, reader: &mut Reader, token: Token, after: LexerState) -> Lexed
    ensures { IfOk result (λ state. IsRead tokens.old.items tokens.new.items reader.old reader.new
        state (lexeme_of (token ∷ []) 1 after)) }
{
    tokens.push(token)?;
    reader.pass(Unit::Two);
    Ok(after)
}

/// Reads a control code in documentation. It is skipped if it begins nothing.
fn documentation_code(
    source: &Source,
    buffers: &mut LexerBuffers,
    reader: &mut Reader,
    state: LexerState,
    code: ControlCode,
) -> Lexed
    requires { state.occurrences ≡ length buffers.old.occurrences.items }
    ensures { IfOk result (λ after. ReadsLexeme source.now.lines buffers.old buffers.new
        reader.old reader.new after (spec.documentation_code code state reader.old)) }
{
    let line = reader.line(state.last_line);
    let tokens = &mut buffers.tokens;
    match code {
        ControlCode::SectionStart => section_start(tokens, reader, state),
        ControlCode::Macro => {
            let after = state.in_mode(Mode::Macro);
            code_token(tokens, reader, Token::MacroStart(line), after)
        }
        ControlCode::UnnamedPart => {
            let after = state.in_mode(Mode::CPart);
            code_token(tokens, reader, Token::UnnamedPart(line), after)
        }
        ControlCode::Name => name_in_documentation(source, buffers, reader, state),
        _ => {
            reader.pass(Unit::Two);
            Ok(state)
        }
    }
}

/// Reads one sign: a unit of one byte, or `@@`, a unit of two.
#[inline(always)]
pub fn sign(tokens: &mut Tokens, reader: &mut Reader, unit: Unit, after: LexerState) -> Lexed
    requires { IsSome (byte_at 0 reader.old) }
    ensures { IfOk result (λ state. IsRead tokens.old.items tokens.new.items reader.old reader.new
        state
        (lexeme_of (token.Span span_kind.Sign (span_at 1 reader.old) ∷ []) (more_by unit) after)) }
{
    tokens.push(Token::Span(SpanKind::Sign, reader.byte_span()))?;
    reader.pass(unit);
    Ok(after)
}

/// Reads a control code that is a fault of this kind, and white space.
fn code_fault(tokens: &mut Tokens, reader: &mut Reader, kind: FaultKind, state: LexerState) -> Lexed
    ensures { IfOk result (λ after. IsRead tokens.old.items tokens.new.items reader.old reader.new
        after (c_text.code_fault kind state reader.old)) }
{
    tokens.push(Token::White)?;
    tokens.push(Token::Fault(kind, reader.line(state.last_line)))?;
    reader.pass(Unit::Two);
    Ok(state)
}

/// Reads `@h`. In a directive it is a fault.
fn all_macros(tokens: &mut Tokens, reader: &mut Reader, state: LexerState) -> Lexed
    ensures { IfOk result (λ after. IsRead tokens.old.items tokens.new.items reader.old reader.new
        after (spec.c_code control_code.AllMacros state reader.old)) }
{
    let line = reader.line(state.last_line);
    tokens.push(Token::AllMacros(line))?;
    let in_directive = state.is_in_directive();
    push_fault_if(tokens, in_directive, FaultKind::UseInDirective, line)?;
    reader.pass(Unit::Two);
    Ok(state.after_use())
}

/// Reads a control code in C text, except for one that opens a name.
fn c_code(tokens: &mut Tokens, reader: &mut Reader, state: LexerState, code: ControlCode) -> Lexed
    requires byte { IsSome (byte_at 0 reader.old) }
    requires no_name { code ≢ control_code.Name }
    ensures read { IfOk result (λ after. IsRead tokens.old.items tokens.new.items
        reader.old reader.new after (spec.c_code code state reader.old)) }
    ensures no_occurrence { (spec.c_code code state reader.old).occurrence ≡ None }
{
    match code {
        ControlCode::SectionStart => section_start(tokens, reader, state),
        ControlCode::DoubleAt => sign(tokens, reader, Unit::Two, state.elsewhere()),
        ControlCode::Macro => code_fault(tokens, reader, FaultKind::CodeInC, state),
        ControlCode::Format => code_fault(tokens, reader, FaultKind::CodeInC, state),
        ControlCode::UnnamedPart => code_fault(tokens, reader, FaultKind::CodeInC, state),
        ControlCode::ControlText => control_text(tokens, reader, state),
        ControlCode::Verbatim => verbatim_text(tokens, reader, state),
        ControlCode::Join => {
            let after = state.with_line(state.line.after_join());
            code_token(tokens, reader, Token::Join, after)
        }
        ControlCode::AllMacros => all_macros(tokens, reader, state),
        ControlCode::AsciiConstant => ascii_constant(tokens, reader, state),
        ControlCode::Name | ControlCode::Other => code_token(tokens, reader, Token::White, state),
    }
}

#[inline(always)]
pub fn word(tokens: &mut Tokens, reader: &mut Reader, state: LexerState) -> Lexed
    requires { IsSome (byte_at 0 reader.old) }
    ensures { IfOk result (λ after. IsRead tokens.old.items tokens.new.items reader.old reader.new
        after (c_text.word state reader.old)) }
{
    let after = match state.line.include {
        IncludeState::AfterNumberSign => state.after_word(reader.begins_include()),
        _ => state.elsewhere(),
    };
    tokens.push(Token::Span(SpanKind::Word, reader.take_word()))?;
    Ok(after)
}

#[inline(always)]
pub fn white_space(tokens: &mut Tokens, reader: &mut Reader, state: LexerState) -> Lexed
    requires { IsSome (byte_at 0 reader.old) }
    ensures { IfOk result (λ after. IsRead tokens.old.items tokens.new.items reader.old reader.new
        after (c_text.white_space state reader.old)) }
{
    tokens.push(Token::White)?;
    reader.skip_white();
    Ok(state)
}

#[inline(always)]
pub fn line_end(tokens: &mut Tokens, reader: &mut Reader, state: LexerState) -> Lexed
    ensures { IfOk result (λ after. IsRead tokens.old.items tokens.new.items reader.old reader.new
        after (spec.c_lexeme lexeme_kinds.LineEnd state reader.old)) }
{
    tokens.push(Token::LineEnd(reader.line(state.last_line)))?;
    reader.advance();
    Ok(state.with_line(state.line.after_line_end()))
}

/// Reads a lexeme of this kind in C text.
#[inline(always)]
fn c_text(
    source: &Source,
    buffers: &mut LexerBuffers,
    reader: &mut Reader,
    state: LexerState,
    lexeme_kind: LexemeKind,
) -> Lexed
    requires byte { (lexeme_kind ≡ lexeme_kinds.LineEnd → ⊥) → IsSome (byte_at 0 reader.old) }
    requires occurrences { state.occurrences ≡ length buffers.old.occurrences.items }
    ensures { IfOk result (λ after. ReadsLexeme source.now.lines buffers.old buffers.new
        reader.old reader.new after (spec.c_lexeme lexeme_kind state reader.old)) }
{
    let tokens = &mut buffers.tokens;
    match lexeme_kind {
        LexemeKind::Control(code) => match code {
            ControlCode::Name => use_of_name(source, buffers, reader, state),
            _ => c_code(tokens, reader, state, code),
        },
        LexemeKind::BlockComment => block_comment(tokens, reader, state),
        LexemeKind::LineComment => line_comment(tokens, reader, state),
        LexemeKind::DoubleQuote => quoted_text(tokens, reader, Region::DoubleQuote, b'"', state),
        LexemeKind::Apostrophe => quoted_text(tokens, reader, Region::Apostrophe, b'\'', state),
        LexemeKind::HeaderName => quoted_text(tokens, reader, Region::HeaderName, b'>', state),
        LexemeKind::LineEnd => line_end(tokens, reader, state),
        LexemeKind::White => white_space(tokens, reader, state),
        LexemeKind::Word => word(tokens, reader, state),
        LexemeKind::Other => {
            let after = state.after_sign(reader.byte());
            sign(tokens, reader, Unit::One, after)
        }
    }
}

/// Reads a control code in a macro. The codes that end a macro act as in documentation, and all
/// others but `@h` as in a C part.
fn macro_code(
    source: &Source,
    buffers: &mut LexerBuffers,
    reader: &mut Reader,
    state: LexerState,
    code: ControlCode,
) -> Lexed
    requires byte { IsSome (byte_at 0 reader.old) }
    requires occurrences { state.occurrences ≡ length buffers.old.occurrences.items }
    ensures { IfOk result (λ after. ReadsLexeme source.now.lines buffers.old buffers.new
        reader.old reader.new after (spec.macro_code code state reader.old)) }
{
    match code {
        ControlCode::Macro | ControlCode::UnnamedPart | ControlCode::Name => {
            documentation_code(source, buffers, reader, state, code)
        }
        ControlCode::Format => {
            reader.pass(Unit::Two);
            Ok(state.in_mode(Mode::Documentation))
        }
        ControlCode::AllMacros => {
            code_fault(&mut buffers.tokens, reader, FaultKind::MisplacedH, state)
        }
        _ => c_code(&mut buffers.tokens, reader, state, code),
    }
}

/// Reads one lexeme in any mode. `front` has the first two bytes or line ends of the text ahead.
#[tactic(auto, unfolding(crate::specs::Steps::lexeme))]
pub fn step(
    source: &Source,
    buffers: &mut LexerBuffers,
    reader: &mut Reader,
    state: LexerState,
    front: Front,
) -> Lexed
    requires front { IsFront reader.old front }
    requires occurrences { state.occurrences ≡ length buffers.old.occurrences.items }
    ensures { IfOk result (λ after. ReadsLexeme source.now.lines buffers.old buffers.new
        reader.old reader.new after (spec.lexeme state reader.old)) }
{
    match state.mode {
        Mode::Limbo => limbo(&mut buffers.tokens, reader, state, front),
        Mode::Documentation => {
            if holds(b'@', front.byte) {
                return documentation_code(source, buffers, reader, state, code_at(front.next));
            }
            prose(reader);
            Ok(state)
        }
        Mode::CPart => {
            let lexeme_kind = kind_by(state.line.include, front.byte, front.next);
            c_text(source, buffers, reader, state, lexeme_kind)
        }
        Mode::Macro => match kind_by(state.line.include, front.byte, front.next) {
            LexemeKind::Control(code) => macro_code(source, buffers, reader, state, code),
            lexeme_kind => c_text(source, buffers, reader, state, lexeme_kind),
        },
    }
}
