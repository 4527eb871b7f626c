//! What a term of a body says: clauses with their bodies converted, and directives.
#![tactic(auto)]

mod clause;
mod convert;
mod entries;

pub use convert::{BodyFault, convert_body, is_converted};
pub use entries::body_entries;
pub use mod_directives::DirFault;
