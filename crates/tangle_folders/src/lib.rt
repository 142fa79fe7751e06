//! Where a program reads its files and creates its outputs.
//!
//! [`Disk`] is the current folder of the program.
#![tactic(auto)]

mod disk;
mod folder;

pub use disk::Disk;
pub use folder::{FILE_LIMIT, Folder, FolderFault};
