//! What a term of an interface says: entries, and operators.
#![tactic(auto)]

mod interface;

pub use interface::interface_entries;
pub use mod_directives::DirFault;
