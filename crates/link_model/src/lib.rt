//! Definitions of linking, and their laws: what modules give, what is visible in them, the link faults of units, and what texts
//! are together.
#![tactic(auto)]

mod laws;

pub use laws::{apart_is_together, first_is_least, gives_is_least, whole_is_one, whole_of_units};
