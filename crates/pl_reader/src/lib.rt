//! Terms read from tokens.
#![tactic(auto)]

mod classes;
mod codes;
mod laws;
mod machine;
mod prefix;
mod reading;
mod tokens_taken;
mod variables;

pub use laws::{one_tree, one_tree_of_tokens, reading_is_decided, root_is_told};
pub use reading::{ReadFault, read};
