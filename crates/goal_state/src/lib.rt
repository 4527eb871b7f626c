//! Where a run stands: the goals still to be run, the terms, and the records of alternatives that are still untried.
#![tactic(auto)]

mod choice;
mod compiled;
pub mod frame_laws;
mod frames;
mod list;
mod path;
pub mod record_laws;

pub use choice::{Choice, ChoiceKind};
pub use compiled::CompiledProgram;
pub use frames::{Frame, Frames, Part, Setting};
pub use path::Path;
