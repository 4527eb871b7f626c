//! One place of a term.
use pl_atoms::NameId;

/// One cell of a term in prefix order: a compound is followed by the cells of its arguments.
#[derive(Clone, Copy, Debug, PartialEq, Eq)]
pub enum Cell {
    /// A variable by its number.
    Var(usize),
    /// An integer.
    Int(i64),
    /// An atom.
    Name(NameId),
    /// A compound term's name and its number of arguments, at least 1.
    Comp(NameId, u8),
}
