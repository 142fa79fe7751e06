//! What both programs share, between `main` and the session: arguments, messages and a run.
//!
//! [`run_ctangle`] is a whole run of `ctangle` over a [`Folder`] and an error stream: it starts a
//! session and writes the session's faults and outputs. [`run_retangle_before_exit`] is one of
//! `retangle`: its session answers a script of edits and questions, as [`run_retangle`] says. The
//! folders are those of `tangle_folders`, and files are loaded by `tangle_loading`: both are
//! re-exported.
#![tactic(auto)]

mod arguments;
mod conversation;
mod laws;
mod messages;
mod opening;
mod retangle_names;
mod run;
mod writing;

pub use arguments::{WordFault, Words, read_words};
pub use conversation::run_retangle;
pub use laws::{
    outputs_are_read_as_written, scripts_show_plain_tangling, the_answers_of_a_script_are_a_history,
};
pub use messages::write_load;
pub use opening::{command_line, lines_to};
pub use retangle_names::{RetangleFault, read_retangle};
pub use run::{run_before_exit, run_ctangle, run_retangle_before_exit, status_3_needs_a_failure};
pub use tangle_folders::{Disk, FILE_LIMIT, Folder, FolderFault};
pub use tangle_loading::{LoadFault, load};
