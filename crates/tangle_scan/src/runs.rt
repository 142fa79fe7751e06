//! The parts of runs.
ghost use Rattle.std.specs.Prelude.{◌≡◌};
ghost use Rattle.tangle_text.specs.Text.{IsSpan};
ghost use Rattle.tangle_scan.specs.Rules.{texts_of};
ghost use Rattle.tangle_text.specs.Runs.{run_parts};
ghost use Rattle.tangle_lexer.specs.Runs.{IsRunIn};
ghost use Rattle.tangle_lexer.specs.Runs as runs;
ghost use Rattle.tangle_scan.specs.Passes as passes;

use tangle_lexer::{SpanKind, Token};
use tangle_lines::Source;
use tangle_text::{RunPart, RunParts, Span};

/// The parts of a run of this source.
pub(crate) fn parts_of_run<'a>(source: &Source<'a>, span: Span) -> RunParts<'a>
    requires { IsSpan (texts_of source.now.lines) span }
    ensures { result ≡ run_parts (texts_of source.now.lines) span }
{
    RunParts::new(source.line(span.line as usize), span)
}

/// The token of a part of a run.
fn part_token(part: RunPart) -> Token
    ensures { result ≡ runs.part_token part }
{
    match part {
        RunPart::Word(span) => Token::Span(SpanKind::Word, span),
        RunPart::Quoted(span) => Token::Span(SpanKind::Quoted, span),
        RunPart::Sign(span) => Token::Span(SpanKind::Sign, span),
        RunPart::Space => Token::White,
    }
}

/// The first of the tokens that a token stands for.
pub(crate) fn first_token(source: &Source, token: Token) -> Token
    requires { IsRunIn (texts_of source.now.lines) token }
    ensures { result ≡ passes.first_token (texts_of source.now.lines) token }
{
    match token {
        Token::Run(span) => match parts_of_run(source, span).next() {
            Some(part) => part_token(part),
            None => Token::White,
        },
        token => token,
    }
}

/// The last of the tokens that a token stands for.
pub(crate) fn last_token(source: &Source, token: Token) -> Token
    requires { IsRunIn (texts_of source.now.lines) token }
    ensures { result ≡ passes.last_token (texts_of source.now.lines) token }
{
    let Token::Run(span) = token else {
        return token;
    };
    let mut last = Token::White;
    let mut parts = parts_of_run(source, span);
    while let Some(part) = parts.next() {
        last = part_token(part);
    }
    last
}

/// Whether a run consists of words.
pub(crate) fn are_words(source: &Source, span: Span) -> bool
    requires { IsSpan (texts_of source.now.lines) span }
    ensures { result ≡ passes.are_words (run_parts (texts_of source.now.lines) span) }
{
    let mut parts = parts_of_run(source, span);
    while let Some(part) = parts.next() {
        if !matches!(part, RunPart::Word(_)) {
            return false;
        }
    }
    true
}
