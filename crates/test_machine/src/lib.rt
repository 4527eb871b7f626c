//! Tests of a machine: its moves, its runs and its records.
#![tactic(auto)]

#[cfg(test)]
mod tests;
