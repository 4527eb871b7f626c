//! The built-in predicates that are no control constructs.
use text_model::Quote;

/// A test of a term's type (ISO/IEC 13211-1, 8.3).
#[derive(Clone, Copy, Debug, PartialEq, Eq)]
pub enum TypeTest {
    /// `var`.
    Var,
    /// `nonvar`.
    Nonvar,
    /// `atom`.
    Atom,
    /// `integer`.
    Integer,
    /// `number`: the only numbers are integers.
    Number,
    /// `float`, which no term is.
    Float,
    /// `atomic`: an atom or an integer.
    Atomic,
    /// `compound`.
    Compound,
    /// `callable`: an atom or a compound term.
    Callable,
}

/// A test of how two terms stand to each other in the standard order (ISO/IEC 13211-1, 8.4).
#[derive(Clone, Copy, Debug, PartialEq, Eq)]
pub enum OrderTest {
    /// `==`.
    Same,
    /// `\==`.
    NotSame,
    /// `@<`.
    Less,
    /// `@=<`.
    AtMost,
    /// `@>`.
    Greater,
    /// `@>=`.
    AtLeast,
}

/// A comparison of the values of two expressions (ISO/IEC 13211-1, 8.7).
#[derive(Clone, Copy, Debug, PartialEq, Eq)]
pub enum Relation {
    /// `=:=`.
    Equal,
    /// `=\=`.
    NotEqual,
    /// `<`.
    Less,
    /// `=<`.
    AtMost,
    /// `>`.
    Greater,
    /// `>=`.
    AtLeast,
}

/// A built-in predicate that is no control construct.
#[derive(Clone, Copy, Debug, PartialEq, Eq)]
pub enum Row {
    /// `=` and `unify_with_occurs_check` (8.2.1, 8.2.2).
    Unify,
    /// `\=` (8.2.3).
    NotUnifiable,
    /// The type tests (8.3).
    Type(TypeTest),
    /// `ground`.
    Ground,
    /// The tests of the standard order (8.4.1).
    Order(OrderTest),
    /// `compare`.
    Compare,
    /// `functor` (8.5.1).
    Functor,
    /// `arg` (8.5.2).
    Arg,
    /// `=..` (8.5.3).
    Univ,
    /// `copy_term` (8.5.4).
    CopyTerm,
    /// `term_variables`.
    TermVariables,
    /// `is` (8.6.1).
    Is,
    /// The comparisons of values (8.7.1).
    Value(Relation),
    /// `nl` (8.12.1).
    NewLine,
    /// `put_char` (8.12.3).
    PutChar,
    /// `write` and `writeq` (8.14.2).
    Write(Quote),
    /// `calling_context` (ISO/IEC 13211-2).
    CallingContext,
    /// `true` (7.8.1).
    True,
    /// `fail` and `false` (7.8.2).
    Fail,
    /// `halt` without an argument (8.17.1).
    Halt,
    /// `halt` with a status (8.17.2).
    HaltWith,
}
