//! Data that linking, the printed lines and the commands share, with the data of units that they speak of.
#![tactic(auto)]

mod lists;
mod rows;

pub use lists::ByteLists;
pub use rows::{VisibleRow, VisibleRows};
pub use unit_model::{
    Entries, Entry, Facts, Ind, ModeList, Need, Needs, OpDecl, OpDecls, Section, SectionKind,
    Sections, What, builtins,
};
