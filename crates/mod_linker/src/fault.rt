//! Why units don't link.
ghost use Rattle.std.specs.Prelude.{◌≡◌};

use pl_atoms::NoMemory;
use thiserror::Error;

/// Why units don't link.
#[derive(Clone, Copy, Debug, PartialEq, Eq, Error)]
pub enum LinkFault {
    /// The first link fault: its number, from 2 to 8, its unit, and the byte in it.
    #[error("link fault {number} in unit {unit} at byte {byte}")]
    Fault {
        number: u8,
        unit: usize,
        byte: usize,
    },
    /// A growth was refused.
    #[error("no memory")]
    NoMemory,
}

impl From<NoMemory> for LinkFault {
    ghost use Rattle.mod_linker.specs.declared.fault.LinkFault.TheVariants.{NoMemory as OutOfMemory};

    ghost from_gives = { λ _ e. e ≡ OutOfMemory };

    fn from(_e: NoMemory) -> LinkFault {
        LinkFault::NoMemory
    }
}
