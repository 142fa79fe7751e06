//! At which lines a C compiler counts the tokens that it reads of an output file, by the bytes of the
//! file.
#![tactic(auto)]

mod laws;

pub use laws::files_are_counted_as_written;
