//! Definitions of texts: tokens, terms over tokens, and written terms.
#![tactic(auto)]

/// How atoms are written.
#[derive(Clone, Copy, Debug, PartialEq, Eq)]
pub enum Quote {
    /// As their characters.
    Plain,
    /// In quotes where they would not read back bare.
    Quoted,
}

/// How a piece of a written term stands in its term.
#[derive(Clone, Copy, Debug, PartialEq, Eq)]
pub enum Role {
    /// No operator of its term.
    Ordinary,
    /// The prefix operator of its term.
    SignBefore,
    /// The infix operator of its term.
    SignBetween,
    /// The postfix operator of its term.
    SignAfter,
}
