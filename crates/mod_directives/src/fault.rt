//! Faults of the terms of a text.
ghost use Rattle.std.specs.Prelude.{◌≡◌};

use pl_atoms::NoMemory;
use thiserror::Error;

/// Why a term of a text says nothing.
#[derive(Clone, Copy, Debug, PartialEq, Eq, Error)]
pub enum DirFault {
    /// The fault of this number.
    #[error("fault P{0}")]
    Fault(u8),
    /// A growth was refused.
    #[error("no memory")]
    NoMemory,
}

impl From<NoMemory> for DirFault {
    ghost use Rattle.mod_directives.specs.declared.fault.DirFault.TheVariants.{NoMemory as OutOfMemory};

    ghost from_gives = { λ _ e. e ≡ OutOfMemory };

    fn from(_e: NoMemory) -> DirFault {
        DirFault::NoMemory
    }
}
