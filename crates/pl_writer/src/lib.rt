//! Terms and atoms as text.
#![tactic(auto)]

mod edge;
mod name;
mod todo;
mod writer;

pub use name::write_name;
pub use text_model::Quote;
pub use writer::{write_onto, write_text};
