//! The bodies of the nodes of a web, and their shapes.
//!
//! A node is a full name or the unnamed program. A [`BodyBuilder`] makes its body, a [`NodeBody`],
//! or finds that an old one has the same shape.
#![tactic(auto)]

mod body_builder;
mod counting;
mod laws;
mod nodes;
mod shapes;

pub use body_builder::BodyBuilder;
pub use counting::symbols_of_kind;
pub use laws::{names_resolve_inside, tags_settle_the_shape};
pub use nodes::{NodeBody, NodeItems, node_of_occurrence};
pub use tangle_scan::{ItemKind, ItemTag};
