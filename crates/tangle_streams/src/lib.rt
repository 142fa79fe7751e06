//! Writers and readers that report their bytes and count their failures.
//!
//! A [`Feed`] is such a reader, and [`IoFeed`] makes one of any reader.
//!
//! A [`Sink`] is such a writer, and [`IoSink`] makes one of any writer; [`Discarding`] is one that
//! keeps nothing. [`write_after`] writes bytes to a sink and counts them, until the first failure.
#![tactic(auto)]

mod discarding;
mod failures;
mod feeds;
mod io_sink;
mod sinks;
mod writing;

pub use discarding::Discarding;
pub use failures::{NoMemory, WriteFault};
pub use feeds::{Feed, IoFeed};
pub use io_sink::IoSink;
pub use sinks::Sink;
pub use writing::write_after;
