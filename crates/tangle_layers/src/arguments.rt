//! The arguments: those of `ctangle`, and after `--and` those of a second web.
use ctangle_cli::{WordFault, Words, read_words};
use std::alloc::Global;

/// The names of a web, and those of a second one, if there is one.
#[derive(Drop)]
pub struct Arguments {
    pub first: Words,
    pub second: Option<Words>,
}

/// What is between the arguments of the two webs.
const AND: &[u8] = b"--and";

/// The names that the arguments give.
///
/// # Errors
///
/// `Usage` where a web has no name, or more than three; `NoMemory`, where an allocation failed.
pub fn read_arguments(alloc: Global, arguments: &[&[u8]]) -> Result<Arguments, WordFault> {
    match arguments.iter().position(|argument| *argument == AND) {
        Some(and) => Ok(Arguments {
            first: read_words(alloc, &arguments[..and])?,
            second: Some(read_words(alloc, &arguments[and + 1..])?),
        }),
        None => Ok(Arguments {
            first: read_words(alloc, arguments)?,
            second: None,
        }),
    }
}
