//! What running a program means: substitutions and most general unifiers of trees.
#![tactic(auto)]

mod laws;

pub use laws::{
    mgu_general, mgu_idempotent, mgu_most, mgu_none, mgu_unifies, mgu_unique, solved_by_mgu,
    solved_once,
};
