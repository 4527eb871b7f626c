//! Why a declaration of an operator is refused.
ghost use Rattle.std.specs.Prelude.{◌≡◌};
ghost use Rattle.pl_ops.specs.Refusals as spec;

use pl_atoms::NoMemory;
use thiserror::Error;

/// Why a declaration of an operator is refused: the first cause in this order (ISO/IEC 13211-1, 8.14.3).
#[derive(Clone, Copy, Debug, PartialEq, Eq, Error)]
pub enum OpRefusal {
    /// The priority is not 0 to 1200.
    #[error("an operator's priority is 0 to 1200")]
    NotPriority,
    /// The kind is none of `xfx`, `xfy`, `yfx`, `fx`, `fy`, `xf` and `yf`.
    #[error("an operator's kind is xfx, xfy, yfx, fx, fy, xf or yf")]
    NotKind,
    /// The name is the comma.
    #[error("the comma stays as it is")]
    Comma,
    /// The name is the bar.
    #[error("the bar is no operator")]
    Bar,
    /// The name is `[]` or `{}`.
    #[error("empty brackets are no operators")]
    Brackets,
    /// The priority is above 0, and the name is an infix operator that would be postfix, or the other way round.
    #[error("no name is an infix and a postfix operator")]
    InfixPostfix,
    /// A growth was refused.
    #[error("no memory")]
    NoMemory,
}

impl From<NoMemory> for OpRefusal {
    ghost use Rattle.pl_ops.specs.declared.refusal.OpRefusal.TheVariants.{NoMemory as OutOfMemory};

    ghost from_gives = { λ _ e. e ≡ OutOfMemory };

    fn from(_e: NoMemory) -> OpRefusal {
        OpRefusal::NoMemory
    }
}

/// What refuses this name as an operator's, whatever its priority and kind.
pub fn refusal_of_name(name: &[u8]) -> Option<OpRefusal>
    ensures { result ≡ spec.refusal_of_name name.now }
{
    match name {
        b"," => Some(OpRefusal::Comma),
        b"|" => Some(OpRefusal::Bar),
        b"[]" | b"{}" => Some(OpRefusal::Brackets),
        _ => None,
    }
}
