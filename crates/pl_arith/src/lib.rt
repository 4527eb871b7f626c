//! The values of expressions (ISO/IEC 13211-1, 9.1).
#![tactic(auto)]

mod at_once;
mod evaluable;
mod expression;
mod functor;
mod in_code;
mod name;
mod number;

pub use expression::evaluate;
pub use in_code::value_in_code;
pub use value_model::EvalFault;
