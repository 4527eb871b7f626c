//! Units from facts: the names stand in the order of their first use.
#![tactic(auto)]

mod counts;
mod numbering;
mod ordering;
mod renumbering;
mod uses;

pub use ordering::ordered;

#[cfg(test)]
mod tests;
