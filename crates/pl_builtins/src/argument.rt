//! Arguments of a term.
ghost use Rattle.std.specs.Prelude.{◌≡◌, ℕ, IfOk, OnErr};
ghost use Rattle.pl_terms.specs.Trees.{Tree};
ghost use Rattle.pl_unify.specs.State.{tree_at, IsRef};
ghost use Rattle.builtin_model.specs.Deeds.{arg_deed};
ghost use Rattle.pl_builtin_ends.specs.Meets.{Meets};
ghost use Rattle.pl_builtins.specs.Argument.{IsTurn, place_turn};

use crate::unification::unify;
use builtin_model::{Domain, Expected};
use pl_atoms::NoMemory;
use pl_builtin_ends::{Done, Raised};
use pl_unify::{Ref, Store, View};

// What `arg` does after its checks.
#[derive(Clone, Copy, Debug)]
enum ArgTurn {
    End(Done),
    // Unifies with this argument, counted from 0.
    Unify(u8),
}

/// Unifies the argument of `term` at a place, counted from 1, with `argument`: `arg` (ISO/IEC 13211-1, 8.5.2).
pub fn arg(store: &mut Store, place: Ref, term: Ref, argument: Ref) -> Result<Done, NoMemory>
    requires { IsRef store.old.state place × IsRef store.old.state term × IsRef store.old.state argument }
    ensures done { IfOk result (λ done. Meets store.old.state store.new.state (arg_deed (tree_at store.old.state place) (tree_at store.old.state term) (tree_at store.old.state argument)) done) }
    ensures memory { OnErr result (store.new.state ≡ store.old.state) }
{
    match arg_turn(store, place, term) {
        ArgTurn::End(done) => Ok(done),
        ArgTurn::Unify(k) => {
            let found = store.arg(term, k);
            unify(store, argument, found)
        }
    }
}

fn arg_turn(store: &Store, place: Ref, term: Ref) -> ArgTurn
    requires { IsRef store.now.state place × IsRef store.now.state term }
    ensures { (a : Tree ℕ) → IsTurn store.now.state (tree_at store.now.state term) a (arg_deed (tree_at store.now.state place) (tree_at store.now.state term) a) result }
{
    match store.view(place) {
        View::Var(_) => ArgTurn::End(Done::Raise(Raised::Instantiation)),
        View::Int(number) => match store.view(term) {
            View::Var(_) => ArgTurn::End(Done::Raise(Raised::Instantiation)),
            View::Comp(_, arity) => place_turn(place, number, arity),
            _ => ArgTurn::End(Done::Raise(Raised::Type(Expected::Compound, term))),
        },
        _ => match store.view(term) {
            View::Var(_) => ArgTurn::End(Done::Raise(Raised::Instantiation)),
            _ => ArgTurn::End(Done::Raise(Raised::Type(Expected::Integer, place))),
        },
    }
}

fn place_turn(place: Ref, number: i64, arity: u8) -> ArgTurn
    ensures { result ≡ place_turn place number arity }
{
    if number < 0 {
        ArgTurn::End(Done::Raise(Raised::Domain(Domain::NotLessThanZero, place)))
    } else if number == 0 {
        ArgTurn::End(Done::No)
    } else if number <= arity as i64 {
        ArgTurn::Unify((number - 1) as u8)
    } else {
        ArgTurn::End(Done::No)
    }
}
