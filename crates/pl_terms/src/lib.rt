//! Terms as trees, kept as cells in prefix order.
#![tactic(auto)]

mod cell;
mod laws;
mod order;
mod read_term;
mod rename;
mod term;
mod variables;

pub use cell::Cell;
pub use laws::{canon_law, forest_law, order_law};
pub use order::compare;
pub use read_term::{ReadTerm, VarName, VarNames};
pub use term::{Term, TermBuf};

#[cfg(test)]
mod tests;
