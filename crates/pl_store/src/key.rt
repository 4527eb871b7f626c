//! Numbers of procedures and clauses, and keys.
use pl_atoms::NameId;

/// A procedure by its number in a program.
#[derive(Clone, Copy, Debug, PartialEq, Eq)]
pub struct ProcId(pub usize);

/// A clause by its number in a program.
#[derive(Clone, Copy, Debug, PartialEq, Eq)]
pub struct ClauseId(pub usize);

/// What is known of a goal's first argument. A clause fits that may have a unifier with such a goal.
#[derive(Clone, Copy, Debug, PartialEq, Eq)]
pub enum Key {
    /// Nothing is known, or there is no argument. Each clause fits.
    Any,
    /// An integer.
    Int(i64),
    /// An atom.
    Name(NameId),
    /// A compound's name and its number of arguments.
    Comp(NameId, u8),
}
