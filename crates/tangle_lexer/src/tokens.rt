//! The tokens that the lexer reads, and the buffers that it fills.
ghost use Rattle.std.specs.Prelude.{◌≡◌, ◌++◌, OnOk};
ghost use Rattle.tangle_lexer.specs.Lexemes.{fault_if};
ghost use Rattle.tangle_lexer.specs.LinesOfParts as parts;

use crate::occurrences::Occurrence;
use std::alloc::AllocError;
use tangle_lines::FaultKind;
use tangle_text::Span;

/// What the text of a `Token::Span` is.
#[derive(Clone, Copy)]
pub enum SpanKind {
    /// Word bytes, up to the first other byte.
    Word,
    /// One byte that begins nothing else; `@@` is the sign `@`.
    Sign,
    /// A quoted text, or a range of one.
    Quoted,
    /// A verbatim text, or a range of one.
    Verbatim,
}

/// A token of the text. Each `u32` is the number of a source line, from 0.
#[derive(Clone, Copy)]
pub enum Token {
    /// The start of a section.
    Section,
    /// The start of a macro, with the line of its `@d`.
    MacroStart(u32),
    /// The start of an unnamed C part, with the line of its `@c` or `@p`.
    UnnamedPart(u32),
    /// The start of a named C part, with the line of its equals sign, and the number of the
    /// occurrence that names it.
    // The line comes first, so that a token takes 16 bytes and not 24.
    NamedPart(u32, usize),
    /// A range of a line: a word, a sign, or a range of a quoted or verbatim text.
    Span(SpanKind, Span),
    /// A run: a range of a line of words, signs, quoted texts and single spaces. Its words, signs
    /// and quoted texts are spans, and each of its spaces is white space.
    Run(Span),
    /// A line end inside a quoted text, after a backslash, with the line that it ends. The text is
    /// cut there.
    QuoteBreak(u32),
    /// An ASCII constant, with its value and its line.
    AsciiConstant(u8, u32),
    /// `@&`.
    Join,
    /// White space, and what counts as white space: comments, control texts, some control codes.
    White,
    /// A line end of a C part or a macro, with the line that it ends.
    LineEnd(u32),
    /// A line end inside a comment or a control text of a directive, with the line that it ends. It
    /// counts as white space.
    InnerLineEnd(u32),
    /// A use of a name, with the line on which the name ends and the number of its occurrence.
    UseOf(u32, usize),
    /// `@h`, with its line.
    AllMacros(u32),
    /// A fault, with its line.
    Fault(FaultKind, u32),
}

pub type Tokens = Vec<Token>;

/// Whether all was added; if not, memory ran out.
pub type Pushed = Result<(), AllocError>;

/// Whether a token is no item, but what may be between two of them.
pub fn is_between_items(token: Token) -> bool
    ensures { result ≡ parts.is_between_items token }
{
    matches!(
        token,
        Token::White | Token::LineEnd(_) | Token::InnerLineEnd(_) | Token::Join | Token::Fault(..)
    )
}

/// The vectors that the lexer fills.
#[derive(Drop)]
pub struct LexerBuffers {
    /// The tokens that the last call of `next_block` read before the head.
    pub tokens: Vec<Token>,
    /// All occurrences of names that were read, in the order of the source.
    pub occurrences: Vec<Occurrence>,
}

/// Adds a fault of this kind, if `is_fault`.
#[inline(always)]
pub fn push_fault_if(tokens: &mut Tokens, is_fault: bool, kind: FaultKind, line: u32) -> Pushed
    ensures { OnOk result (tokens.new.items ≡ tokens.old.items ++ fault_if is_fault kind line) }
{
    if is_fault {
        tokens.push(Token::Fault(kind, line))?;
    }
    Ok(())
}
