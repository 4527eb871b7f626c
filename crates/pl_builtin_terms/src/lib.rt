//! The built-in predicates that take terms apart and make them, and those that write terms (ISO/IEC 13211-1, 8.5 and 8.14).
#![tactic(auto)]

mod copying;
mod error_term;
mod functor_row;
mod items;
mod univ_row;
mod variables;
mod writing;

pub use copying::{copy_term, numbered};
pub use error_term::error_place;
pub use functor_row::functor;
pub use univ_row::univ;
pub use variables::{ground, term_variables};
pub use writing::write;
