//! Directed graphs of names, as rows of nodes: row `n` has the nodes that node `n` uses.
//!
//! The searches in `proposals` only give hints: no result depends on them, only the running time,
//! which is linear after a good hint.
#![tactic(auto)]

mod cycles;
mod evidence;
mod growing;
mod laws;
mod nodes;
mod ordering;
mod proposals;
mod ranks;
mod reach;
mod reversing;
mod roots;
mod rows;

pub use cycles::self_containing;
pub use growing::GrowingRows;
pub use laws::order_holds_what_reaches_no_cycle;
pub use nodes::Node;
pub use ordering::{Ordered, order};
pub use reversing::{once_each, users};
pub use rows::Rows;
