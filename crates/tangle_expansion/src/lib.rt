//! Expansions of the nodes of a web, which share parts, and how they are written.
//!
//! [`expand`] makes the expansion of a node from its body and the kept expansions of the names that
//! it uses. [`write_text`] writes an expansion, with the section numbers and origins of a web: its
//! [`Numbers`].
#![tactic(auto)]

mod cursor;
mod expanding;
mod expansion;
mod kept;
mod laws;
mod mark_ends;
mod node_numbers;
mod numbers;
mod outputs;
mod passing;
mod piece_numbers;
mod work;
mod writing;

pub use expanding::expand;
pub use expansion::Expansion;
pub use kept::Kept;
pub use laws::{
    bodies_give_expansions, bytes_are_at_their_origins, expandable_nodes_reach_no_cycle,
    items_are_written_as_meant, nodes_are_written_by_pieces, nodes_expand_by_uses,
    outputs_are_short, unaffected_nodes_stay, used_names_are_expandable,
};
pub use numbers::Numbers;
pub use outputs::{Output, file_size, write_file};
pub use work::Work;
pub use writing::write_text;
