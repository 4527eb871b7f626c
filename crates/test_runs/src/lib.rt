//! Tests of parts that a run is made of: functions that take memory are called where there is enough of it.
#![tactic(auto)]

#[cfg(test)]
mod tests;
