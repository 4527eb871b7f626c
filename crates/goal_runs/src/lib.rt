//! The goal that a text is, and its run over a linked program.
#![tactic(auto)]

mod goal;
mod goal_fault;
mod laws;
mod running;

pub use goal::read_goal;
pub use goal_fault::GoalFault;
pub use laws::goals_are_decided;
pub use running::{Finished, GoalEnd, run_goal};
