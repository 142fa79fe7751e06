//! The state of the lexer at a position of the text.
ghost use Rattle.std.specs.Prelude.{◌≡◌};
ghost use Rattle.tangle_lexer.specs.declared.modes.AtLineEnd.TheVariants as at_line_end;
ghost use Rattle.tangle_lexer.specs.LinesOfC as lines_of_c;
ghost use Rattle.tangle_lexer.specs.Lexemes as lexemes;
ghost use Rattle.tangle_lexer.specs.CText as c_text;

use std::alloc::AllocError;
use tangle_text::holds;

/// The kind of text at a position. It decides what a control code means there.
#[derive(Clone, Copy)]
pub enum Mode {
    /// The text before the first section.
    Limbo,
    /// The text of a section outside its macros and its C part.
    Documentation,
    /// The C of a section, named or not.
    CPart,
    /// A macro, from after its `@d` on.
    Macro,
}

/// How much of `#include` was read on the line. Only after `#include` does `<` open a quoted text.
#[derive(Clone, Copy)]
pub enum IncludeState {
    /// Only white space since the start of the line or of the part.
    AtStart,
    /// `#`, with only white space before it on the line or in the part.
    AfterNumberSign,
    /// The word `include` after that `#`.
    AfterInclude,
    /// Something else: `#include` can begin on the next line at the earliest.
    Elsewhere,
}

/// What a line of C is, by its first item.
#[derive(Clone, Copy)]
pub enum LineOfC {
    /// The line has no item so far, and is the first one of the part or of those after a use or `@h`.
    Empty,
    /// The line has no item so far. If a join follows, it is the directive before it.
    AfterDirective,
    /// The line has no item so far. If a join follows, it is the other line before it.
    AfterOther,
    /// A line of the preprocessor: its first item is `#`.
    Directive,
    Other,
}

/// What a line end at a position of a C part does to the line of C, by what is before it, white
/// space aside.
#[derive(Clone, Copy)]
pub enum AtLineEnd {
    /// The line of C ends.
    Ends,
    /// It is continued: a sign or a verbatim text that ends in a backslash is before the line end.
    Continued,
    /// It goes on: a join is before the line end, perhaps with others between, and removes it.
    Removed,
}

impl LineOfC {
    /// The line after the end of this line.
    #[inline(always)]
    fn next(self) -> Self
        ensures { result ≡ lines_of_c.line_after_end at_line_end.Ends self }
    {
        match self {
            LineOfC::Directive => LineOfC::AfterDirective,
            LineOfC::Other => LineOfC::AfterOther,
            line => line,
        }
    }
}

/// How a line of C was read so far. A line of C begins at the front of a part, after a line end
/// where the line before does not go on, and after a use or `@h`, which a line mark follows.
#[derive(Clone, Copy)]
pub struct LineState {
    /// How much of `#include` was read on the line.
    pub include: IncludeState,
    pub line: LineOfC,
    pub at_line_end: AtLineEnd,
}

impl LineState {
    /// The front of a part.
    pub fn front() -> Self
        ensures { result ≡ lines_of_c.front }
    {
        LineState {
            include: IncludeState::AtStart,
            line: LineOfC::Empty,
            at_line_end: AtLineEnd::Ends,
        }
    }

    /// Sets this state field by field. A state that is assigned whole is packed into one register,
    /// which makes a run 3 % dearer.
    #[inline(always)]
    pub fn set(&mut self, to: LineState)
        ensures { self.new ≡ to }
    {
        self.include = to.include;
        self.line = to.line;
        self.at_line_end = to.at_line_end;
    }

    /// This state after an item, with `include` replaced.
    #[inline(always)]
    pub fn after_item(self, include: IncludeState, is_number_sign: bool, is_backslash: bool) -> Self
        ensures { result ≡ lines_of_c.after_item include is_number_sign is_backslash self }
    {
        let line = match self.line {
            LineOfC::Directive => LineOfC::Directive,
            LineOfC::Other => LineOfC::Other,
            _ if is_number_sign => LineOfC::Directive,
            _ => LineOfC::Other,
        };
        let at_line_end = if is_backslash {
            AtLineEnd::Continued
        } else {
            AtLineEnd::Ends
        };
        LineState {
            include,
            line,
            at_line_end,
        }
    }

    /// This state after a line end of the part.
    #[inline(always)]
    pub fn after_line_end(self) -> Self
        ensures { result ≡ lines_of_c.after_line_end self }
    {
        let (line, at_line_end) = match self.at_line_end {
            AtLineEnd::Ends => (self.line.next(), AtLineEnd::Ends),
            AtLineEnd::Continued => (self.line, AtLineEnd::Ends),
            AtLineEnd::Removed => (self.line, AtLineEnd::Removed),
        };
        LineState {
            include: IncludeState::AtStart,
            line,
            at_line_end,
        }
    }

    /// This state after a join, which removes the line ends after the last item.
    pub fn after_join(self) -> Self
        ensures { result ≡ lines_of_c.after_join self }
    {
        let line = match self.line {
            LineOfC::AfterDirective => LineOfC::Directive,
            LineOfC::AfterOther => LineOfC::Other,
            line => line,
        };
        LineState {
            include: IncludeState::Elsewhere,
            line,
            at_line_end: AtLineEnd::Removed,
        }
    }
}

/// The state of the lexer at a position of the text.
#[derive(Clone, Copy)]
pub struct LexerState {
    /// The number of occurrences before this position. The next occurrence gets this number.
    pub occurrences: usize,
    /// The number of the last source line, from 0: the line of a fault at the end of the text.
    pub last_line: u32,
    /// The kind of text that is read.
    pub mode: Mode,
    /// How the line of C was read so far.
    pub line: LineState,
}

/// The state after a step that has read something, if memory did not run out.
pub type Lexed = Result<LexerState, AllocError>;

impl LexerState {
    /// This state in another mode. A part begins, so `#include` may be the first thing in it.
    pub fn in_mode(self, mode: Mode) -> Self
        ensures { result ≡ lexemes.in_mode mode self }
    {
        LexerState {
            mode,
            line: LineState::front(),
            ..self
        }
    }

    /// This state with `line` replaced.
    #[inline(always)]
    pub fn with_line(self, line: LineState) -> Self
        ensures { result ≡ lexemes.with_line line self }
    {
        LexerState { line, ..self }
    }

    /// This state after an item that is no part of `#include` and ends in no backslash.
    #[inline(always)]
    pub fn elsewhere(self) -> Self
        ensures { result ≡ lexemes.elsewhere self }
    {
        let line = self.line.after_item(IncludeState::Elsewhere, false, false);
        self.with_line(line)
    }

    /// This state after a sign, of which `byte` is the first byte.
    pub fn after_sign(self, byte: Option<u8>) -> Self
        ensures { result ≡ lexemes.with_line (c_text.line_after_sign byte self.line) self }
    {
        let is_number_sign = holds(b'#', byte);
        let include = match self.line.include {
            IncludeState::AtStart if is_number_sign => IncludeState::AfterNumberSign,
            _ => IncludeState::Elsewhere,
        };
        let line = self
            .line
            .after_item(include, is_number_sign, holds(b'\\', byte));
        self.with_line(line)
    }

    /// This state after a word. `is_include` is whether the word is `include`.
    pub fn after_word(self, is_include: bool) -> Self
        ensures { result ≡ lexemes.with_line (c_text.line_after_word is_include self.line) self }
    {
        let include = match self.line.include {
            IncludeState::AfterNumberSign if is_include => IncludeState::AfterInclude,
            _ => IncludeState::Elsewhere,
        };
        let line = self.line.after_item(include, false, false);
        self.with_line(line)
    }

    /// This state after a use or `@h`. A line mark follows, so a line of C begins.
    pub fn after_use(self) -> Self
        ensures { result ≡ lexemes.with_line lines_of_c.after_use self }
    {
        self.with_line(LineState {
            include: IncludeState::Elsewhere,
            ..LineState::front()
        })
    }

    /// Whether the position is in a directive of a C part.
    pub fn is_in_directive(self) -> bool
        ensures { result ≡ lexemes.is_in_directive self }
    {
        matches!(self.mode, Mode::CPart) && matches!(self.line.line, LineOfC::Directive)
    }
}
