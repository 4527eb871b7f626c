//! Terms of a store as goals: what a goal is, its conversion and its conjuncts, goals with arguments added, and the terms of errors.
#![tactic(auto)]

mod adding;
mod balls;
mod calling;
mod conjunction;
mod constructs;
mod conversion;
mod kind;
pub mod laws;
mod list;
mod names;
mod row;

pub use calling::Called;
pub use constructs::Constructs;
pub use kind::Kind;
pub use names::GoalNames;
pub use row::GoalRow;
