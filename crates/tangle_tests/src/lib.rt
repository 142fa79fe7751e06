//! The tests of what only a caller of the crates sees: calls that no program makes, and writers and
//! folders that fail at a given byte or call. What a run, a conversation or a listing of layers
//! shows is tested over the built programs, with limits at their exact value and with each
//! allocation refused.
//!
//! They are in a crate of their own, since a crate that has tests is proved once more for them.
#![tactic(auto)]

#[cfg(test)]
mod graphs;
#[cfg(test)]
mod messages;
#[cfg(test)]
mod runs;
#[cfg(test)]
mod scripts;
#[cfg(test)]
mod sessions;
#[cfg(test)]
mod streams;
#[cfg(test)]
mod support;
