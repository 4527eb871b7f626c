//! Lists, texts and names that every other crate stands on.
#![tactic(auto)]

mod case_table;
mod laws;
mod list;
mod memory;
mod name;
mod names;
mod remap;

pub use case_table::{CaseRow, CaseTable, ascending};
pub use laws::{front_law, names_law, remap_front_law, remap_law};
pub use list::{Bytes, Items, VarList};
pub use memory::NoMemory;
pub use name::Name;
pub use names::{NameId, Names};
pub use remap::Remap;

#[cfg(test)]
mod tests;
