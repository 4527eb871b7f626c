//! What the directives of a text say: entries, and operators.
#![tactic(auto)]

mod directive;
mod fault;
mod listing;
mod operators;
mod sort;
mod words;

pub use directive::directive_entries;
pub use fault::DirFault;
pub use sort::{Sort, sort_of};
