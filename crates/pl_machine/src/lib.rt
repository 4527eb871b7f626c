//! The machine that runs a goal over a linked program (ISO/IEC 13211-1, 7.7).
#![tactic(auto)]

mod compiled;
mod fault;
mod front;
mod line;
mod machine;
mod moves;
mod records;
mod run;

pub use fault::RunFault;
pub use goal_state::{Choice, ChoiceKind};
pub use machine::Machine;
pub use moves::Progress;
pub use prep_report::End2 as End;
pub use run::Show;
