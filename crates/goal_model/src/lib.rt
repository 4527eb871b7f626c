//! What each goal does (ISO/IEC 13211-1, 7.8, and 13211-2, 6): the table of goals, over the search of solver_model, and the run of a goal.
//! The definitions stand in specs.
#![tactic(auto)]

mod laws;

pub use laws::{budget_adds, converts_alike, mgu_renames, unfit_clauses_fail, value_is_bound_free};
