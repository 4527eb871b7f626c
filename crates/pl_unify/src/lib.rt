//! A store of terms with bindings that can be undone, and the code of terms that it matches and builds.
#![tactic(auto)]

mod code;
mod list;
mod store;
mod word;

pub use code::{Code, CodeWord};
pub use store::{Mark, Store};
pub use word::{Ref, View, Word};
