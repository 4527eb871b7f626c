//! Lists of bytes.
use pl_atoms::{Bytes, Items};

/// Names, or other lists of bytes.
pub type ByteLists = Items<Bytes>;
