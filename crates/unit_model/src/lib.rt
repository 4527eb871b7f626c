//! Definitions of units: the facts of a text, their bytes, and preparing.
#![tactic(auto)]

mod builtin_table;
mod facts;

pub use builtin_table::builtins;
pub use facts::{
    Entries, Entry, Facts, Ind, ModeList, Need, Needs, OpDecl, OpDecls, Section, SectionKind,
    Sections, What,
};
