//! Why a text is not prepared.
ghost use Rattle.std.specs.Prelude.{◌≡◌};

use pl_atoms::NoMemory;
use pl_tokens::TokenFault;
use thiserror::Error;

/// Why a text is not prepared.
#[derive(Clone, Copy, Debug, PartialEq, Eq, Error)]
pub enum PrepFault {
    /// What is wrong, by its number, and where.
    #[error("fault P{number} at byte {byte}")]
    Fault { number: u8, byte: usize },
    /// A growth was refused.
    #[error("no memory")]
    NoMemory,
}

impl From<NoMemory> for PrepFault {
    ghost use Rattle.prep_texts.specs.declared.fault.PrepFault.TheVariants.{NoMemory as OutOfMemory};

    ghost from_gives = { λ _ e. e ≡ OutOfMemory };

    fn from(_e: NoMemory) -> PrepFault {
        PrepFault::NoMemory
    }
}

impl From<TokenFault> for PrepFault {
    ghost use Rattle.prep_texts.specs.Faults.{token_fault};

    ghost from_gives = { λ f e. e ≡ token_fault f };

    fn from(fault: TokenFault) -> PrepFault {
        match fault {
            TokenFault::Fault { number, byte } => PrepFault::Fault { number, byte },
            TokenFault::NoMemory => PrepFault::NoMemory,
        }
    }
}
