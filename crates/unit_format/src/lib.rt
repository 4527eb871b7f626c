//! Units as bytes.
#![tactic(auto)]

mod clauses;
mod decoding;
mod encoding;
mod fault;
mod fields;
mod laws;
mod modules;
mod numbers;
mod operators;
mod order;
mod rules;
mod sections;
mod terms;
mod unit;
mod writing;

pub use decoding::{LIMIT, decode};
pub use encoding::encode;
pub use fault::{EncodeFault, UnitFault};
pub use laws::{encoding_law, unit_law};
pub use unit::Unit;
