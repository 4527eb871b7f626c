//! Faults of units together: what one asks of others that isn't there, or what two say of one procedure (ISO/IEC 13211-2, 6).
#![tactic(auto)]

mod bodies;
mod fault;
mod first;
mod interfaces;
mod least;
mod missing;
mod needs;
mod split;
mod table;

pub use fault::Fault;
pub use first::first_fault;
pub use table::Table;
