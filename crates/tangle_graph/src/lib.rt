//! The graph of names: which nodes use which, how heavy and deep each is, which are expandable, and
//! the output files and faults. Also the nodes that an edit affects, and the expansions of a web:
//! those that are shared after an edit, and those that are made again.
#![tactic(auto)]

mod bodies;
mod edits;
mod faults;
mod flags;
mod keeping;
mod laws;
mod measures;
mod name_graph;
mod named_files;
mod nodes;
mod outputs;
mod pieces;
mod plain_forms;
mod shapes;
mod store;

pub use digraph::Node;
pub use edits::affected;
pub use flags::is_flagged;
pub use keeping::{expand_again, expand_all};
pub use laws::{alike_shapes_affect_nothing, cycles_are_computed};
pub use nodes::node_before;
pub use shapes::same_shape;
pub use store::{Built, Store};
pub use tangle_expansion::{
    Expansion, Kept, Numbers, Output, Work, file_size, write_file, write_text,
};
