//! Tests of what makes units of texts and a program of units.
#![tactic(auto)]

#[cfg(test)]
mod tests;
