//! Unification, and unification with an atom or an integer.
ghost use Rattle.std.specs.Prelude.{◌≡◌, ◌<◌, ◌≤◌, length, IfOk, OnErr};
ghost use Rattle.pl_terms.specs.Trees.{int, atom};
ghost use Rattle.pl_unify.specs.State.{tree_at, IsRef};
ghost use Rattle.pl_unify.specs.Code.{code_tree_in};
ghost use Rattle.builtin_model.specs.Deeds.{unify, differ};
ghost use Rattle.pl_builtin_ends.specs.Meets.{Meets};

use pl_atoms::{NameId, NoMemory};
use pl_builtin_ends::{Done, settle, unify as unify_terms};
use pl_unify::{Code, Ref, Store, Word};

/// Unifies two terms: `=`, and `unify_with_occurs_check` (ISO/IEC 13211-1, 8.2.1 and 8.2.2).
pub fn unify(store: &mut Store, left: Ref, right: Ref) -> Result<Done, NoMemory>
    requires { IsRef store.old.state left × IsRef store.old.state right }
    ensures done { IfOk result (λ done. Meets store.old.state store.new.state (unify (tree_at store.old.state left) (tree_at store.old.state right)) done) }
    ensures memory { OnErr result (store.new.state ≡ store.old.state) }
{
    if store.unify(left, right)? {
        Ok(Done::Yes)
    } else {
        Ok(Done::No)
    }
}

/// Succeeds where two terms have no unifier: `\=` (ISO/IEC 13211-1, 8.2.3).
pub fn not_unifiable(store: &mut Store, left: Ref, right: Ref) -> Result<Done, NoMemory>
    requires { IsRef store.old.state left × IsRef store.old.state right }
    ensures done { IfOk result (λ done. Meets store.old.state store.new.state (differ (tree_at store.old.state left) (tree_at store.old.state right)) done) }
    ensures unchanged { store.new.state ≡ store.old.state }
{
    let mark = store.mark();
    if store.unify(left, right)? {
        store.undo(&mark);
        Ok(Done::No)
    } else {
        Ok(Done::Yes)
    }
}

/// Unifies a term with an integer.
pub fn unify_int(store: &mut Store, at: Ref, value: i64) -> Result<Done, NoMemory>
    requires { IsRef store.old.state at }
    ensures done { IfOk result (λ done. Meets store.old.state store.new.state (unify (tree_at store.old.state at) (int value)) done) }
    ensures memory { OnErr result (store.new.state ≡ store.old.state) }
{
    let mark = store.mark();
    let place = store.place_of_int(value)?;
    let ended = unify_terms(store, at, place);
    settle(store, &mark, ended)
}

/// Unifies the term that the code has at a place, with the variables numbered from `base` on, with an integer. These variables are
/// in the store.
///
/// NoMemory: memory is wanting, or one of the variables is not in the store. Then places and variables may have been added.
pub fn unify_code_int(
    store: &mut Store,
    code: &Code,
    place: usize,
    base: usize,
    value: i64,
) -> Result<Done, NoMemory>
    requires place { place < length code.now.words }
    requires base { base ≤ store.old.state.next }
    ensures { IfOk result (λ done. Meets store.old.state store.new.state (unify (code_tree_in store.old.state base code.now.words place) (int value)) done) }
{
    let mark = store.mark();
    let before = store.next_var();
    let left = store.build(code, place, base)?;
    if store.next_var() != before {
        return Err(NoMemory);
    }
    if !store.solve_words(left, Word::Int(value))? {
        store.undo(&mark);
        return Ok(Done::No);
    }
    Ok(Done::Yes)
}

/// Unifies a term with an atom.
pub fn unify_name(store: &mut Store, at: Ref, name: NameId) -> Result<Done, NoMemory>
    requires { IsRef store.old.state at }
    ensures done { IfOk result (λ done. Meets store.old.state store.new.state (unify (tree_at store.old.state at) (atom name.0)) done) }
    ensures memory { OnErr result (store.new.state ≡ store.old.state) }
{
    let mark = store.mark();
    let place = store.place_of_name(name)?;
    let ended = unify_terms(store, at, place);
    settle(store, &mark, ended)
}
