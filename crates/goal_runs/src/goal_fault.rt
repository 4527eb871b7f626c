//! Why a text is no goal.
ghost use Rattle.std.specs.Prelude.{◌≡◌};

use pl_atoms::NoMemory;
use pl_tokens::TokenFault;
use thiserror::Error;

/// Why a goal is refused.
#[derive(Clone, Copy, Debug, PartialEq, Eq, Error)]
pub enum GoalFault {
    /// What is wrong, by its number, and where.
    #[error("fault P{number} at byte {byte}")]
    Fault { number: u8, byte: usize },
    /// A growth was refused.
    #[error("no memory")]
    NoMemory,
}

impl From<NoMemory> for GoalFault {
    ghost use Rattle.goal_runs.specs.declared.goal_fault.GoalFault.TheVariants.{NoMemory as OutOfMemory};

    ghost from_gives = { λ _ e. e ≡ OutOfMemory };

    fn from(_e: NoMemory) -> GoalFault {
        GoalFault::NoMemory
    }
}

impl From<TokenFault> for GoalFault {
    ghost use Rattle.goal_runs.specs.GoalFaults.{token_fault};

    ghost from_gives = { λ f e. e ≡ token_fault f };

    fn from(fault: TokenFault) -> GoalFault {
        match fault {
            TokenFault::Fault { number, byte } => GoalFault::Fault { number, byte },
            TokenFault::NoMemory => GoalFault::NoMemory,
        }
    }
}
