//! C's preprocessing tokens: the grammar of C23 over bytes, and which texts may be written together
//! so that a C compiler reads the tokens of the first and then those of the second.
#![tactic(auto)]

mod laws;

pub use laws::{
    elements_are_the_longest, texts_that_may_touch_stay_apart, texts_with_borders_stay_apart,
};
