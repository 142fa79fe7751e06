//! Reading the text of a web byte by byte: the source lines, each followed by a line end.
//!
//! A [`Reader`] is at a position of the text. It advances over a byte, a word, white space, or a
//! [`Region`] up to the position where the region ends. A [`Span`] is a range of a line.
#![tactic(auto)]

mod bytes;
mod classes;
mod reader;
mod regions;
mod runs;
mod spans;

pub use bytes::{holds, is_end_code, is_octal, is_section_start, is_white, lower};
pub use classes::{is_sign_byte, is_word_byte};
pub use reader::{Front, Reader};
pub use regions::{Region, Unit, unit_of};
pub use runs::{RunPart, RunParts};
pub use spans::Span;
