//! What a web does not keep of its source, which is read again for it.
use std::alloc::Global;
use tangle_lexer::{LexerBuffers, Token, first_state, next_block};
use tangle_lines::{NoMemory, Source};
use tangle_scan::{begins_with_name, tokens_of_macro};
use tangle_text::{Reader, Span};

/// The spans of the runs and the other texts of all C parts, and the tokens of each macro, spaced as
/// they are written.
///
/// # Errors
///
/// `NoMemory`, where an allocation failed.
pub fn read_parts(
    alloc: Global,
    source: &Source,
) -> Result<(Vec<Span>, Vec<Vec<Token>>), NoMemory> {
    let mut spans = Vec::new(alloc);
    let mut macros = Vec::new(alloc);
    let mut buffers = LexerBuffers {
        tokens: Vec::new(alloc),
        occurrences: Vec::new(alloc),
    };
    let mut reader = Reader::new(source);
    let first = first_state(source);
    let (mut state, mut next_head) = next_block(source, &mut buffers, &mut reader, first)?;
    while let Some(head) = next_head {
        (state, next_head) = next_block(source, &mut buffers, &mut reader, state)?;
        if let Token::MacroStart(_) = head {
            let spaced = tokens_of_macro(alloc, source, &buffers.tokens)?;
            if begins_with_name(source, &spaced) {
                macros.push(spaced)?;
            }
        } else {
            // Documentation has no spans.
            for token in &buffers.tokens {
                if let Token::Span(_, span) | Token::Run(span) = *token {
                    spans.push(span)?;
                }
            }
        }
    }
    Ok((spans, macros))
}
