//! Files cut into lines, edits of files, and the names of the files that have roles.
//!
//! [`Files`] is the table of files, an [`Edit`] changes it, and [`Roles`] names the web, the change
//! file and the main file.
#![tactic(auto)]

mod cutting;
mod edits;
mod files;
mod line;
mod marks;
mod refusal;
mod roles;
mod shared_slice;
mod splicing;
mod words;

pub use edits::Edit;
pub use files::{Files, is_file_name};
pub use line::Line;
pub use marks::MarkMode;
pub use refusal::Refusal;
pub use roles::Roles;
pub use shared_slice::SharedSlice;
pub use words::Words;
