//! The values of terms of a store that one look at each argument shows.
ghost use Rattle.std.specs.Prelude.{◌≡◌, IfSome};
ghost use Rattle.pl_terms.specs.Trees.{int};
ghost use Rattle.pl_unify.specs.State.{tree_at, IsRef};
ghost use Rattle.pl_unify.specs.Shape.{root};
ghost use Rattle.value_model.specs.Value.{value};

use crate::functor::{over_one, over_two};
use pl_atoms::{NameId, Names};
use pl_unify::{Ref, Store, View};
use value_model::EvalFault;

/// The value of an integer, or of a compound of one or two integers, or why it has none. None: the term is another one.
pub fn value_at_once(store: &Store, names: &Names, at: Ref) -> Option<Result<i64, EvalFault>>
    requires place { IsRef store.now.state at }
    ensures { IfSome result (λ v. v ≡ value names.now (tree_at store.now.state at)) }
{
    match store.view(at) {
        View::Int(z) => Some(Ok(z)),
        View::Comp(name, 1) => value_of_one(store, names, at, name),
        View::Comp(name, 2) => value_of_two(store, names, at, name),
        _ => None,
    }
}

// The value of the compound of a name and one argument, which is an integer.
fn value_of_one(
    store: &Store,
    names: &Names,
    at: Ref,
    name: NameId,
) -> Option<Result<i64, EvalFault>>
    requires place { IsRef store.now.state at }
    requires root { View.Comp name 1 ≡ root (tree_at store.now.state at) }
    ensures { IfSome result (λ v. v ≡ value names.now (tree_at store.now.state at)) }
{
    let x = integer_at(store, store.arg(at, 0))?;
    Some(over_one(names, name, x))
}

// The value of the compound of a name and two arguments, which are integers.
fn value_of_two(
    store: &Store,
    names: &Names,
    at: Ref,
    name: NameId,
) -> Option<Result<i64, EvalFault>>
    requires place { IsRef store.now.state at }
    requires root { View.Comp name 2 ≡ root (tree_at store.now.state at) }
    ensures { IfSome result (λ v. v ≡ value names.now (tree_at store.now.state at)) }
{
    let x = integer_at(store, store.arg(at, 0))?;
    let y = integer_at(store, store.arg(at, 1))?;
    Some(over_two(names, name, x, y))
}

// The integer of a place, where it is one.
fn integer_at(store: &Store, at: Ref) -> Option<i64>
    requires place { IsRef store.now.state at }
    ensures { IfSome result (λ z. tree_at store.now.state at ≡ int z) }
{
    match store.view(at) {
        View::Int(z) => Some(z),
        _ => None,
    }
}
