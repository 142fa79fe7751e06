//! The full names of a web, and what each occurrence of a name resolves to.
#![tactic(auto)]

mod beginnings;
mod faults;
mod first_numbers;
mod keys;
mod laws;
mod name_table;
mod names;
mod numbers;
mod resolution;
mod sorted;

pub use first_numbers::Counted;
pub use laws::{
    first_occurrences_resolve_to_their_names, names_are_the_full_names,
    occurrences_resolve_by_the_whole_web,
};
pub use name_table::NameTable;
pub use names::Names;

/// What an occurrence of a name resolves to.
#[derive(Clone, Copy, Debug, PartialEq, Eq)]
pub enum Resolved {
    /// The full name with this number.
    Name(usize),
    /// No full name begins with the abbreviation's prefix.
    NoFullName,
    /// Several full names begin with the abbreviation's prefix.
    Ambiguous,
}
