//! How built-in predicates end, over the terms of a store.
#![tactic(auto)]

mod done;
mod ending;
mod made;
mod name;
mod unification;

pub use done::{Done, Raised, whether};
pub use ending::settle;
pub use made::{add_names, names_law};
pub use name::{intern, text_of};
pub use unification::{unify, unify_two};
