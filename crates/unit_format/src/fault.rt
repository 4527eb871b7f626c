//! Why there is no unit, and why there are no bytes.
ghost use Rattle.std.specs.Prelude.{◌≡◌};

use pl_atoms::NoMemory;
use thiserror::Error;

/// Why bytes give no unit.
#[derive(Clone, Copy, Debug, Error)]
pub enum UnitFault {
    /// No valid unit has these bytes.
    #[error("not a unit")]
    NotUnit,
    /// A growth was refused.
    #[error("no memory")]
    NoMemory,
}

impl From<NoMemory> for UnitFault {
    ghost use Rattle.unit_format.specs.declared.fault.UnitFault.TheVariants.{NoMemory as OutOfMemory};

    ghost from_gives = { λ _ e. e ≡ OutOfMemory };

    fn from(_e: NoMemory) -> UnitFault {
        UnitFault::NoMemory
    }
}

/// Why a unit gives no bytes.
#[derive(Clone, Copy, Debug, Error)]
pub enum EncodeFault {
    /// The unit has more than 67,108,864 bytes.
    #[error("the unit is too long")]
    TooLong,
    /// A growth was refused.
    #[error("no memory")]
    NoMemory,
}

impl From<NoMemory> for EncodeFault {
    ghost use Rattle.unit_format.specs.declared.fault.EncodeFault.TheVariants.{NoMemory as OutOfMemory};

    ghost from_gives = { λ _ e. e ≡ OutOfMemory };

    fn from(_e: NoMemory) -> EncodeFault {
        EncodeFault::NoMemory
    }
}
