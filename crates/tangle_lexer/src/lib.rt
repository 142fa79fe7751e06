//! The lexer: from the bytes of source lines to tokens, and to the occurrences of section names.
#![tactic(auto)]

mod comments;
mod constants;
mod lexeme_kinds;
mod lexer;
mod line_laws;
mod modes;
mod names;
mod occurrences;
mod quoted;
mod simple;
mod steps;
mod tokens;
mod white;

pub use lexer::{first_state, next_block};
pub use line_laws::{directives_are_lines_of_c, the_lexer_knows_directives};
pub use modes::{IncludeState, LexerState, Mode};
pub use occurrences::{Occurrence, OccurrenceRole};
pub use tokens::{LexerBuffers, SpanKind, Token, is_between_items};
