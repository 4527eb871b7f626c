//! The search for the answers of a goal, over a table of goals that it does not look into, and its laws.
#![tactic(auto)]

mod laws;

pub use laws::{budget_adds, value_is_bound_free};
