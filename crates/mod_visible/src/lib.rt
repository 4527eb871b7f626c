//! What is visible in the modules of units, and what they give (ISO/IEC 13211-2, 6.1).
#![tactic(auto)]

mod cause;
mod causes;
mod clash;
mod closing;
mod existing;
mod flat;
mod keys;
mod leasts;
mod placed;
mod rows;
mod takers;
mod texts;
mod visibility;

pub use cause::{Cause, Sort};
pub use causes::causes_of;
pub use clash::Clash;
pub use flat::{Flat, flattened};
pub use placed::{Placed, Role};
pub use visibility::Visibility;
