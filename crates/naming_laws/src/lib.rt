//! The run of a goal does not depend on what its names are: over the numbers of a table of names it is the run over their texts.
//! The definitions stand in specs.
#![tactic(auto)]

mod laws;

pub use laws::{names_are_added, runs_by_texts, runs_translate, texts_say_same};
