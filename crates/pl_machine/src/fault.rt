//! Why runs are refused.
use pl_atoms::NoMemory;
use thiserror::Error;

/// Why a run was refused.
#[derive(Clone, Copy, Debug, PartialEq, Eq, Error)]
pub enum RunFault {
    /// A put on the output failed.
    #[error("a write failed")]
    WriteFault,
    /// A growth was refused.
    #[error("no memory")]
    NoMemory,
}

impl From<NoMemory> for RunFault {
    ghost use Rattle.std.specs.Prelude.{◌≡◌};
    ghost use Rattle.pl_machine.specs.declared.fault.RunFault.TheVariants.{NoMemory as OutOfMemory};

    ghost from_gives = { λ _ e. e ≡ OutOfMemory };

    fn from(_e: NoMemory) -> RunFault {
        RunFault::NoMemory
    }
}
