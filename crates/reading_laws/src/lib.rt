//! Laws of texts that are read: what their terms keep, and that preparing a text is decided.
#![tactic(auto)]

mod laws;

pub use laws::{
    preparing_is_decided, reading_is_sound, runs_end_at_places, runs_proceed, start_is_a_place,
};
