//! What terms in errors are expected to be (ISO/IEC 13211-1, 7.12.2).

/// The type that a term was expected to have.
#[derive(Clone, Copy, Debug, PartialEq, Eq)]
pub enum Expected {
    /// `atom`.
    Atom,
    /// `atomic`, an atom or an integer.
    Atomic,
    /// `character`, an atom of one character.
    Character,
    /// `compound`.
    Compound,
    /// `integer`.
    Integer,
    /// `list`.
    List,
}

/// The domain that a term was expected to be of.
#[derive(Clone, Copy, Debug, PartialEq, Eq)]
pub enum Domain {
    /// `non_empty_list`.
    NonEmptyList,
    /// `not_less_than_zero`.
    NotLessThanZero,
    /// `order`, the names of how two terms stand to each other.
    Order,
}
