//! A script of edits and questions: its lines, their requests, and a run that answers them.
//!
//! [`parse`] reads a line, with its text if it takes one, as a [`Request`] of the table.
//! [`run_script`] reads a script and has a [`Project`] answer each command before more is read. The
//! contract of a run holds for every project, reader and writer.
#![tactic(auto)]

mod answering;
mod buffer;
mod commands;
mod project;
mod request;
mod running;

pub use project::{Project, SinkFailed};
pub use request::{Request, each_command_asks_for_its_row, parse, takes_text};
pub use running::{
    SCRIPT_LIMIT, run_script, short_commands_need_no_memory, status_3_needs_a_failure,
};
