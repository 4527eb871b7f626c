//! Ends, and the calling context.
ghost use Rattle.std.specs.Prelude.{◌≡◌, IfOk, OnErr};
ghost use Rattle.pl_terms.specs.Trees.{atom};
ghost use Rattle.pl_unify.specs.State.{tree_at, IsRef};
ghost use Rattle.builtin_model.specs.Deeds.{halt_deed, unify};
ghost use Rattle.pl_builtin_ends.specs.Meets.{Meets};

use crate::unification::unify_name;
use builtin_model::Expected;
use pl_atoms::{NameId, NoMemory};
use pl_builtin_ends::{Done, Raised};
use pl_unify::{Ref, Store, View};

/// Ends the run with a status: `halt` (ISO/IEC 13211-1, 8.17.2).
pub fn halt(store: &Store, at: Ref) -> Done
    requires { IsRef store.now.state at }
    ensures { Meets store.now.state store.now.state (halt_deed (tree_at store.now.state at)) result }
{
    match store.view(at) {
        View::Var(_) => Done::Raise(Raised::Instantiation),
        View::Int(status) => Done::Halt(status),
        _ => Done::Raise(Raised::Type(Expected::Integer, at)),
    }
}

/// Unifies a term with the module of the caller: `calling_context` (ISO/IEC 13211-2).
pub fn calling_context(store: &mut Store, at: Ref, caller: NameId) -> Result<Done, NoMemory>
    requires { IsRef store.old.state at }
    ensures done { IfOk result (λ done. Meets store.old.state store.new.state (unify (tree_at store.old.state at) (atom caller.0)) done) }
    ensures memory { OnErr result (store.new.state ≡ store.old.state) }
{
    unify_name(store, at, caller)
}
