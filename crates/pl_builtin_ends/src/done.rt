//! How a built-in predicate ends.
ghost use Rattle.std.specs.Prelude.{◌≡◌};
ghost use Rattle.pl_unify.specs.State.{State};
ghost use Rattle.builtin_model.specs.Deeds.{whether};
ghost use Rattle.pl_builtin_ends.specs.Meets.{Meets};

use builtin_model::{Domain, Expected};
use pl_atoms::NameId;
use pl_unify::Ref;
use value_model::EvalFault;

/// An error that a built-in predicate throws, with the place of its culprit (ISO/IEC 13211-1, 7.12.2).
#[derive(Clone, Copy, Debug)]
pub enum Raised {
    /// A variable stands where something else is needed.
    Instantiation,
    /// A term of another type.
    Type(Expected, Ref),
    /// A term of the type, but of another domain.
    Domain(Domain, Ref),
    /// A compound term would have too many arguments.
    MaxArity,
    /// No evaluable functor has this name and number of arguments.
    NotEvaluable(NameId, u8),
    /// An operation has no result.
    Evaluation(EvalFault),
}

/// How a built-in predicate ends.
#[derive(Clone, Copy, Debug)]
pub enum Done {
    /// It succeeds, with its bindings in the store.
    Yes,
    /// It fails.
    No,
    /// It throws an error.
    Raise(Raised),
    /// It ends the run with this status.
    Halt(i64),
}

/// Succeeds or fails, and changes nothing.
pub fn whether(yes: bool) -> Done
    ensures { (s : State) → Meets s s (whether yes) result }
{
    if yes { Done::Yes } else { Done::No }
}
