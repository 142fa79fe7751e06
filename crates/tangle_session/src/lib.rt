//! A project as one object: a session tangles files with roles, and shows their outputs and faults.
//!
//! [`Session::start`] takes the files and the roles. They alone define what the session shows: the
//! output files with their bytes, and the list of faults. [`Session::apply`] makes an edit and
//! [`Session::apply_all`] a list of edits; the session then shows the outputs and faults of the
//! edited files.
#![tactic(auto)]

mod analysis;
mod histories;
mod laws;
mod outputs;
mod refusing;
mod session;
mod tangling;

pub use histories::start_and_edit;
pub use laws::{
    histories_end_in_plain_tangling, moved_text_expands_nothing, one_edit_is_a_list,
    outputs_are_found_by_their_names, what_leaves_the_web_expands_nothing,
};
pub use outputs::OutputNames;
pub use refusing::ListRefusal;
pub use session::Session;
