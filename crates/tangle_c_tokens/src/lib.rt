//! What a C compiler reads of the items of a web, by C's grammar of tokens.
#![tactic(auto)]

mod kinds;
mod laws;

pub use kinds::{items_are_of_their_kinds, lines_have_no_line_feeds};
pub use laws::{files_are_read_by_parts, macros_are_read_by_groups};
