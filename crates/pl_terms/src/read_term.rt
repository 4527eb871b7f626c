//! Terms as they are read.
use crate::term::Term;
use pl_atoms::{Bytes, Items};

/// The name of a variable, and its number.
#[derive(Debug, Drop)]
pub struct VarName {
    pub name: Bytes,
    pub number: usize,
}

/// The named variables of a term, in order of first occurrence.
pub type VarNames = Items<VarName>;

/// A term as it was read: its variables are 0, 1, 2 and so on in order of first occurrence.
#[derive(Drop)]
pub struct ReadTerm {
    pub term: Term,
    /// The names of its named variables.
    pub names: VarNames,
    /// The byte of its first token.
    pub byte: usize,
}
