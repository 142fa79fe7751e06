//! The source lines of a web, after inclusions and changes.
//!
//! [`read_source`] reads a web and its change file from a table of files. The types for files,
//! faults and streams are re-exported.
#![tactic(auto)]

mod changes;
mod inclusion;
mod origin;
mod reading;
mod source;
mod waiting;

pub use inclusion::included_name;
pub use origin::Origin;
pub use reading::{read_source, reading_goes_step_by_step};
pub use source::Source;
pub use tangle_faults::{Fault, FaultKind, Place, write_fault};
pub use tangle_files::{Edit, Files, Line, MarkMode, Refusal, Roles, Words, is_file_name};
pub use tangle_streams::{
    Discarding, Feed, IoFeed, IoSink, NoMemory, Sink, WriteFault, write_after,
};
