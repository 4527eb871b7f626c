//! The built-in predicates that are no control constructs, over the terms of a store (ISO/IEC 13211-1, 8).
#![tactic(auto)]

mod argument;
mod comparison;
mod control;
mod dispatch;
mod numbered;
mod order;
mod output;
mod row_table;
mod type_test;
mod unification;
mod value;

pub use dispatch::run;
pub use numbered::{Outcome, call};
pub use pl_builtin_ends::{Done, Raised, add_names};
pub use row_table::row_of;
pub use unification::unify_code_int;
pub use value::holds;
