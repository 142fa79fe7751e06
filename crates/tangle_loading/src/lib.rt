//! Loading: the files that a run reads from a folder.
//!
//! [`load`] reads the web, the change file and the files that they include.
#![tactic(auto)]

mod laws;
mod loading;

pub use laws::{
    each_name_is_asked_for_once, missing_names_are_not_there, one_more_round_changes_nothing,
};
pub use loading::{LoadFault, load};
