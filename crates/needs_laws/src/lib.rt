//! What preparing a text reads of the interfaces that are known before it, and what follows for texts that are linked.
#![tactic(auto)]

mod laws;

pub use laws::{
    preparing_reads_needs, texts_are_one_whole, units_apart_are_the_whole,
    units_together_are_the_whole,
};
