//! Tests of the binding store and of what stands on it alone: terms, heads, values and built-in procedures.
#![tactic(auto)]

#[cfg(test)]
mod tests;
