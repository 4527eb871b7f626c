//! Bodies of clauses as instructions: each goal leads to the next one, and control constructs to their parts.
#![tactic(auto)]

mod body;
mod instruction;
pub mod laws;
mod list;
mod shape;
mod work;

pub use body::Body;
pub use instruction::Instruction;
pub use shape::ControlNames;
