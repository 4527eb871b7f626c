//! What the value of an expression is (ISO/IEC 13211-1, 9.1): its operations, and why it has none. The definitions stand in specs.
#![tactic(auto)]

ghost use Rattle.std.specs.Prelude.{◌≡◌};

use pl_atoms::{NameId, NoMemory};
use thiserror::Error;

/// Why an expression has no value (ISO/IEC 13211-1, 9.1.3 and 7.12.2).
#[derive(Clone, Copy, Debug, PartialEq, Eq, Error)]
pub enum EvalFault {
    /// An argument is a variable.
    #[error("instantiation error")]
    Instantiation,
    /// No evaluable functor has this name and number of arguments.
    #[error("type error: no evaluable functor")]
    NotEvaluable(NameId, u8),
    /// A value is not one of 64 bits.
    #[error("evaluation error: integer overflow")]
    Overflow,
    /// A divisor is 0.
    #[error("evaluation error: zero divisor")]
    ZeroDivisor,
    /// A shift is not by 0 to 63 bits.
    #[error("evaluation error: undefined")]
    Undefined,
    /// A growth was refused.
    #[error("no memory")]
    NoMemory,
}

impl From<NoMemory> for EvalFault {
    ghost use Rattle.value_model.specs.declared.EvalFault.TheVariants.{NoMemory as OutOfMemory};

    ghost from_gives = { λ _ e. e ≡ OutOfMemory };

    fn from(_e: NoMemory) -> EvalFault {
        EvalFault::NoMemory
    }
}

/// An operation on one integer.
#[derive(Clone, Copy, Debug, PartialEq, Eq)]
pub enum Unary {
    /// `\`, each bit the other one.
    Complement,
    /// `-`.
    Negate,
    /// `abs`.
    Abs,
    /// `sign`.
    Sign,
}

/// An operation on two integers.
#[derive(Clone, Copy, Debug, PartialEq, Eq)]
pub enum Binary {
    /// `+`.
    Add,
    /// `-`.
    Subtract,
    /// `*`.
    Multiply,
    /// `//`, rounded toward zero.
    Quotient,
    /// `rem`, with the sign of the dividend.
    Remainder,
    /// `mod`, with the sign of the divisor.
    Modulo,
    /// `<<`.
    ShiftLeft,
    /// `>>`, rounded down.
    ShiftRight,
    /// `/\`, bit by bit.
    And,
    /// `\/`, bit by bit.
    Or,
}

/// An operation, by the number of its arguments.
#[derive(Clone, Copy, Debug, PartialEq, Eq)]
pub enum Operation {
    One(Unary),
    Two(Binary),
}
