//! The name of a term and how many arguments it has (ISO/IEC 13211-1, 8.5.1).
ghost use Rattle.std.specs.Prelude.{◌≡◌, ◌+◌, ◌<◌, ◌≤◌, IfOk, OnErr};
ghost use Rattle.pl_terms.specs.Trees.{comp};
ghost use Rattle.pl_unify.specs.State.{tree_at, IsRef, Grows, Extends};
ghost use Rattle.builtin_model.specs.Lists.{arguments, variables_from};
ghost use Rattle.builtin_model.specs.Deeds.{functor_deed, made_by_name, with_arity};
ghost use Rattle.pl_builtin_ends.specs.Meets.{Meets, Answers};
ghost use Rattle.pl_builtin_terms.specs.Counts.{count_of};

use builtin_model::{Domain, Expected};
use pl_atoms::{NameId, NoMemory};
use pl_builtin_ends::{Done, Raised, settle, unify, unify_two};
use pl_unify::{Ref, Store, View};
use std::alloc::Global;

// A number of arguments.
#[derive(Clone, Copy, Debug)]
enum Count {
    // Below zero.
    Negative,
    Zero,
    Some(u8),
    // More than a compound may have.
    TooMany,
}

/// Unifies the name of a term and the number of its arguments, or a variable with a term that has new variables as its arguments:
/// `functor` (ISO/IEC 13211-1, 8.5.1).
pub fn functor(
    alloc: Global,
    store: &mut Store,
    term: Ref,
    name: Ref,
    count: Ref,
) -> Result<Done, NoMemory>
    requires { IsRef store.old.state term × IsRef store.old.state name × IsRef store.old.state count }
    ensures done { IfOk result (λ done. Meets store.old.state store.new.state (functor_deed (tree_at store.old.state term) (tree_at store.old.state name) (tree_at store.old.state count) store.old.state.next) done) }
    ensures memory { OnErr result (store.new.state ≡ store.old.state) }
{
    let mark = store.mark();
    let ended = unify_functor(alloc, store, term, name, count);
    settle(store, &mark, ended)
}

// As `functor`, but what was made is still there.
fn unify_functor(
    alloc: Global,
    store: &mut Store,
    term: Ref,
    name: Ref,
    count: Ref,
) -> Result<Done, NoMemory>
    requires { IsRef store.old.state term × IsRef store.old.state name × IsRef store.old.state count }
    ensures done { IfOk result (λ done. Answers store.old.state store.new.state (functor_deed (tree_at store.old.state term) (tree_at store.old.state name) (tree_at store.old.state count) store.old.state.next) done) }
    ensures extends { Extends store.old.state store.new.state }
{
    match store.view(term) {
        View::Var(_) => unify_named(alloc, store, term, name, count),
        View::Comp(found, arity) => {
            let found = store.place_of_name(found)?;
            let arity = store.place_of_int(arity as i64)?;
            unify_two(store, name, found, count, arity)
        }
        _ => {
            let arity = store.place_of_int(0)?;
            unify_two(store, name, term, count, arity)
        }
    }
}

// Unifies a variable with a term of a name and a number of arguments.
fn unify_named(
    alloc: Global,
    store: &mut Store,
    term: Ref,
    name: Ref,
    count: Ref,
) -> Result<Done, NoMemory>
    requires { IsRef store.old.state term × IsRef store.old.state name × IsRef store.old.state count }
    ensures done { IfOk result (λ done. Answers store.old.state store.new.state (made_by_name (tree_at store.old.state term) (tree_at store.old.state name) (tree_at store.old.state count) store.old.state.next) done) }
    ensures extends { Extends store.old.state store.new.state }
{
    match store.view(name) {
        View::Var(_) => Ok(Done::Raise(Raised::Instantiation)),
        View::Comp(_, _) => match store.view(count) {
            View::Var(_) => Ok(Done::Raise(Raised::Instantiation)),
            _ => Ok(Done::Raise(Raised::Type(Expected::Atomic, name))),
        },
        _ => match store.view(count) {
            View::Var(_) => Ok(Done::Raise(Raised::Instantiation)),
            View::Int(value) => match count_of(value) {
                Count::Negative => Ok(Done::Raise(Raised::Domain(Domain::NotLessThanZero, count))),
                Count::Zero => unify(store, term, name),
                Count::Some(arity) => unify_new(alloc, store, term, name, arity),
                Count::TooMany => Ok(Done::Raise(Raised::MaxArity)),
            },
            _ => Ok(Done::Raise(Raised::Type(Expected::Integer, count))),
        },
    }
}

fn count_of(value: i64) -> Count
    ensures { result ≡ count_of value }
{
    if value < 0 {
        Count::Negative
    } else if value == 0 {
        Count::Zero
    } else if value > 255 {
        Count::TooMany
    } else {
        Count::Some(value as u8)
    }
}

// Unifies a variable with a compound of this name, which has new variables as its arguments.
fn unify_new(
    alloc: Global,
    store: &mut Store,
    term: Ref,
    name: Ref,
    arity: u8,
) -> Result<Done, NoMemory>
    requires places { IsRef store.old.state term × IsRef store.old.state name }
    requires some { 1 ≤ arity }
    ensures done { IfOk result (λ done. Answers store.old.state store.new.state (with_arity (tree_at store.old.state term) (tree_at store.old.state name) arity store.old.state.next) done) }
    ensures extends { Extends store.old.state store.new.state }
{
    match store.view(name) {
        View::Name(found) => {
            let made = new_compound(alloc, store, found, arity)?;
            unify(store, term, made)
        }
        _ => Ok(Done::Raise(Raised::Type(Expected::Atom, name))),
    }
}

// A compound of this name, which has new variables as its arguments.
fn new_compound(alloc: Global, store: &mut Store, name: NameId, arity: u8) -> Result<Ref, NoMemory>
    requires { 1 ≤ arity }
    ensures grows { Grows store.old.state store.new.state }
    ensures next { IfOk result (λ at. store.new.state.next ≡ store.old.state.next + arity) }
    ensures place { IfOk result (λ at. IsRef store.new.state at) }
    ensures tree { IfOk result (λ at. tree_at store.new.state at ≡ comp name.0 (arguments (variables_from store.old.state.next arity))) }
{
    let mut args = Vec::new(alloc);
    'arguments: for _i in 0..arity {
        let arg = store.fresh()?;
        args.push(arg)?;
    }
    store.compound(name, &args)
}
