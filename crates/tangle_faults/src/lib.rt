//! Faults: the kind, the place and the subject of each, and the line that reports it.
//!
//! While a web is read, the [`Origin`] of a line is the number of its file, and its own number in
//! the file. The [`Place`] of a fault has the name of the file. [`write_fault`] writes the line
//! that reports a fault.
#![tactic(auto)]

mod fault_line;
mod faults;

pub use fault_line::write_fault;
pub use faults::{Fault, FaultKind, Place, add_fault};
