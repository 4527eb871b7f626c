//! The forms of directives and clauses, read from the cells of terms.
#![tactic(auto)]

mod bounds;
mod items;
mod walk;

pub use bounds::names_below;
pub use items::{ModeTerm, indicator, mode_term};
pub use walk::{Walk, text};
