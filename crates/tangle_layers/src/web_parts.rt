//! The pieces and macros of a web, with their items.
use crate::listing::Listing;
use crate::source_parts::read_parts;
use std::alloc::Global;
use std::slice::Iter;
use tangle_lexer::{SpanKind, Token};
use tangle_lines::{NoMemory, Sink, Source};
use tangle_scan::{ItemKind, ItemTag, Piece, PieceText, Span, Web};
use tangle_text::{RunPart, RunParts};

/// Lists the items of the run with this text.
fn list_run<S: Sink>(out: &mut Listing<S>, run: Option<&Span>, text: &[u8]) {
    let end = text.len().min(u16::MAX as usize) as u16;
    let whole = Span {
        line: 0,
        start: 0,
        end,
    };
    let mut parts = RunParts::new(text, whole);
    while let Some(part) = parts.next() {
        match part {
            RunPart::Word(span) => list_part(out, b"word", run, text, span),
            RunPart::Quoted(span) => list_part(out, b"quoted", run, text, span),
            RunPart::Sign(span) => list_part(out, b"sign", run, text, span),
            RunPart::Space => out.begin_inner(b"blank"),
        }
        out.end();
    }
}

/// Begins the line of an item that has this range of the text of a run.
fn list_part<S: Sink>(
    out: &mut Listing<S>,
    word: &[u8],
    run: Option<&Span>,
    text: &[u8],
    part: Span,
) {
    let (start, end) = (part.start as usize, part.end as usize);
    out.begin_text(word, run, start, text.get(start..end).unwrap_or(&[]));
}

/// Lists the items that a tag stands for. What is left of the piece's text and of all spans begins
/// with theirs.
fn list_tag<S: Sink>(
    out: &mut Listing<S>,
    web: &Web,
    left: &mut PieceText,
    spans: &mut Iter<Span>,
    tag: ItemTag,
) {
    let (text, rest) = left.bytes.split_at(left.bytes.len().min(tag.size as usize));
    left.bytes = rest;
    match (tag.kind, left.marks, left.uses) {
        (ItemKind::Run, ..) => return list_run(out, spans.next(), text),
        (ItemKind::Word, ..) => out.begin_text(b"word", spans.next(), 0, text),
        (ItemKind::Sign, ..) => out.begin_text(b"sign", spans.next(), 0, text),
        (ItemKind::Quoted, ..) => out.begin_text(b"quoted", spans.next(), 0, text),
        (ItemKind::Verbatim, ..) => out.begin_text(b"verbatim", spans.next(), 0, text),
        (ItemKind::QuoteBreak, ..) => out.begin_inner(b"quote break"),
        (ItemKind::AsciiConstant, ..) => {
            out.begin_inner(b"code");
            out.word(text);
        }
        (ItemKind::Blank, ..) => out.begin_inner(b"blank"),
        (ItemKind::LineEnd, ..) => out.begin_inner(b"line end"),
        (ItemKind::AllMacros, ..) => out.begin_inner(b"macros"),
        (ItemKind::Mark, [origin, rest @ ..], _) => {
            out.begin_inner(b"line mark");
            out.place(web.file_name(*origin), origin.line);
            left.marks = rest;
        }
        (ItemKind::Use, _, [occurrence, rest @ ..]) => {
            out.begin_inner(b"use");
            out.number(occurrence.number());
            left.uses = rest;
        }
        _ => {}
    }
    out.end();
}

fn list_piece<S: Sink>(out: &mut Listing<S>, web: &Web, number: usize, piece: Piece) {
    out.begin(b"piece");
    out.number(number);
    out.word(b"section");
    out.number(piece.section);
    out.place(web.file_name(piece.origin), piece.origin.line);
    match piece.occurrence {
        Some(occurrence) => {
            out.word(b"occurrence");
            out.number(occurrence.number());
        }
        None => out.word(b"program"),
    }
    out.end();
}

/// The bytes of a range of the source.
fn text_of<'a>(source: &Source<'a>, span: Span) -> &'a [u8] {
    let range = span.start as usize..span.end as usize;
    source.line(span.line as usize).get(range).unwrap_or(&[])
}

fn list_macro_token<S: Sink>(out: &mut Listing<S>, source: &Source, token: Token) {
    match token {
        Token::Run(span) => return list_run(out, Some(&span), text_of(source, span)),
        Token::Span(kind, span) => {
            let word: &[u8] = match kind {
                SpanKind::Word => b"word",
                SpanKind::Sign => b"sign",
                SpanKind::Quoted => b"quoted",
                SpanKind::Verbatim => b"verbatim",
            };
            out.begin_text(word, Some(&span), 0, text_of(source, span));
        }
        Token::QuoteBreak(_) => out.begin_inner(b"quote break"),
        Token::AsciiConstant(value, _) => {
            out.begin_inner(b"code");
            out.number(value);
        }
        Token::White => out.begin_inner(b"blank"),
        _ => out.begin_inner(b"line end"),
    }
    out.end();
}

/// Lists the pieces and the macros, and whether some C part has all macros.
///
/// # Errors
///
/// `NoMemory`, where an allocation failed.
pub fn list_parts<S: Sink>(
    alloc: Global,
    out: &mut Listing<S>,
    source: &Source,
    web: &Web,
) -> Result<(), NoMemory> {
    let (spans, macros) = read_parts(alloc, source)?;
    let mut spans = spans.iter();
    let pieces = web.pieces();
    for number in 0..pieces.len() {
        list_piece(out, web, number, pieces[number]);
        let mut left = web.piece_text(number);
        for tag in left.tags {
            list_tag(out, web, &mut left, &mut spans, *tag);
        }
    }
    for (number, tokens) in macros.iter().enumerate() {
        out.begin(b"macro");
        out.number(number);
        out.end();
        for token in tokens {
            list_macro_token(out, source, *token);
        }
    }
    if web.has_all_macros() {
        out.begin(b"macros in pieces");
        out.end();
    }
    Ok(())
}
