//! Unification of terms of a store.
ghost use Rattle.std.specs.Prelude.{[], ◌∷◌, IfOk};
ghost use Rattle.pl_unify.specs.State.{tree_at, IsRef};
ghost use Rattle.pl_unify.specs.Steps.{OnlyBinds};
ghost use Rattle.builtin_model.specs.Deeds.{equal, unify};
ghost use Rattle.pl_builtin_ends.specs.Meets.{Answers};

use crate::done::Done;
use pl_atoms::NoMemory;
use pl_unify::{Ref, Store};

/// Unifies two terms (ISO/IEC 13211-1, 7.3.2).
pub fn unify(store: &mut Store, left: Ref, right: Ref) -> Result<Done, NoMemory>
    requires { IsRef store.old.state left × IsRef store.old.state right }
    ensures done { IfOk result (λ done. Answers store.old.state store.new.state (unify (tree_at store.old.state left) (tree_at store.old.state right)) done) }
    ensures only { OnlyBinds store.old.state store.new.state }
{
    if store.unify(left, right)? {
        Ok(Done::Yes)
    } else {
        Ok(Done::No)
    }
}

/// Unifies two pairs of terms, one after the other. Bindings of the first may be left where the second has no unifier.
pub fn unify_two(
    store: &mut Store,
    left: Ref,
    right: Ref,
    second_left: Ref,
    second_right: Ref,
) -> Result<Done, NoMemory>
    requires first { IsRef store.old.state left × IsRef store.old.state right }
    requires second { IsRef store.old.state second_left × IsRef store.old.state second_right }
    ensures done { IfOk result (λ done. Answers store.old.state store.new.state (equal ((tree_at store.old.state left, tree_at store.old.state right) ∷ (tree_at store.old.state second_left, tree_at store.old.state second_right) ∷ []) 0) done) }
    ensures only { OnlyBinds store.old.state store.new.state }
{
    if store.unify(left, right)? {
        if store.unify(second_left, second_right)? {
            Ok(Done::Yes)
        } else {
            Ok(Done::No)
        }
    } else {
        Ok(Done::No)
    }
}
