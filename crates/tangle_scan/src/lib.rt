//! The scanner: from source lines to the pieces, macros and section names of a web.
#![tactic(auto)]

mod faults;
mod items;
mod kept_bytes;
mod line_truth;
mod macro_bytes;
mod macro_items;
mod parts;
mod pieces;
mod raw_strings;
mod read_as_meant;
mod runs;
mod scanning;
mod tags;
mod tags_left;
mod texts;
mod touching;
mod turns;
mod web_builder;
mod webs;

pub use items::{Item, OccurrenceNumber};
pub use kept_bytes::no_byte_is_lost;
pub use line_truth::pieces_are_at_their_lines;
pub use macro_items::tokens_of_macro;
pub use pieces::Piece;
pub use read_as_meant::items_are_read_as_meant;
pub use scanning::scan;
pub use tags::have_same_items;
pub use tangle_lexer::{Occurrence, OccurrenceRole};
pub use tangle_text::Span;
pub use texts::{ItemKind, ItemTag, PieceText};
pub use web_builder::begins_with_name;
pub use webs::Web;
