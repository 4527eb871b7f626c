//! A machine over a program of no clauses.
mod moves;
