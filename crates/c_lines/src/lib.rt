//! At which file and line a C compiler counts each token that it reads, whichever groups of lines it
//! leaves out; and its lines, which a line feed directly after a backslash does not end.
#![tactic(auto)]

mod laws;

pub use laws::{each_line_is_read_by_itself, each_token_is_counted};
