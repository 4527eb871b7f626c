//! Metapredicates (ISO/IEC 13211-2, 6.3).
#![tactic(auto)]

mod goals;
mod laws;
mod modes;

pub use goals::qualify;
pub use laws::colon_law;
pub use modes::{Modes, ModesFault};
