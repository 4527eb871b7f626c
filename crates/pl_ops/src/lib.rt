//! Tables of operators.
#![tactic(auto)]

mod laws;
mod op;
mod refusal;
mod slots;
mod standard;
mod table;

pub use laws::table_law;
pub use op::{Kind, Op};
pub use refusal::OpRefusal;
pub use table::OpTable;

#[cfg(test)]
mod tests;
