//! A folder in memory, for tests.
//!
//! [`MemoryFolder`] reports its files to contracts, and can be made to fail; [`MemorySink`] is the
//! writer of its files, and of any bytes that a test writes.
#![tactic(auto)]

mod memory_folder;

pub use memory_folder::{CreatedFile, MemoryFolder, MemorySink};
