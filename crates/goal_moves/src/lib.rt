//! The moves of a run: what goals do that are activated, and what follows where they fail or throw.
#![tactic(auto)]

mod activation;
mod active;
mod backtracking;
mod builtins;
mod code_control;
mod code_goals;
mod code_values;
mod collecting;
mod enter;
mod going;
mod procedures;
mod raising;
mod standing;
mod term_control;

pub use activation::{activate_code, activate_term};
pub use active::{Active, Rest};
pub use backtracking::back;
pub use collecting::keep_answer;
pub use enter::enter_goals;
pub use going::Going;
pub use raising::raise;
pub use standing::{Stand, instruction};
