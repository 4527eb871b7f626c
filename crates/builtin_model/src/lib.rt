//! What the built-in predicates that are no control constructs do (ISO/IEC 13211-1, 8): their rows, and the errors that they throw.
//! The definitions stand in specs.
#![tactic(auto)]

mod error;
mod laws;
mod row;

pub use error::{Domain, Expected};
pub use laws::{output_law, text_law, value_law};
pub use row::{OrderTest, Relation, Row, TypeTest};
