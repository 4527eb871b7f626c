//! The code of a program's clauses: heads that goals are tried against, bodies as instructions, and what their goals lead to.
#![tactic(auto)]

mod codes;
mod head;
mod laws;
mod list;
mod target;
mod targets;

pub use codes::{ClauseCode, Codes};
pub use head::try_head;
pub use laws::{head_names_stay, names_stay, new_terms_stay};
pub use target::Target;
pub use targets::Targets;
