//! Files by name and an output, each with counts of its faults.
#![tactic(auto)]

mod entries;
mod mem;
mod quiet;
mod real;
mod traits;

pub use mem::{CallList, MemShelf, MemSink};
pub use pl_atoms::{Bytes, Name, NoMemory};
pub use quiet::{QuietShelf, QuietSink};
pub use real::{FileShelf, StdSink};
pub use traits::{IoFault, MOST_BYTES, Shelf, Sink};

#[cfg(test)]
mod tests;
