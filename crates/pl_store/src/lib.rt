//! A linked program: its modules, its procedures with their clauses, and which procedure is visible where.
#![tactic(auto)]

mod index;
mod key;
pub mod laws;
mod list;
mod program;
mod tables;

pub use key::{ClauseId, Key, ProcId};
pub use program::Program;
pub use tables::Tables;
