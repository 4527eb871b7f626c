//! Values of expressions: `is` and the comparisons of values (ISO/IEC 13211-1, 8.6 and 8.7).
ghost use Rattle.std.specs.Prelude.{◌≡◌, IfOk, OnErr};
ghost use Rattle.pl_unify.specs.State.{tree_at, IsRef};
ghost use Rattle.builtin_model.specs.Naming.{by_numbers};
ghost use Rattle.builtin_model.specs.Values.{value};
ghost use Rattle.builtin_model.specs.Deeds.{assigned, related, holds};
ghost use Rattle.pl_builtin_ends.specs.Meets.{Meets};
ghost use Rattle.pl_builtins.specs.Evaluated.{IsRaised};

use crate::unification::unify_int;
use builtin_model::Relation;
use pl_arith::evaluate;
use pl_atoms::{Names, NoMemory};
use pl_builtin_ends::{Done, Raised, whether};
use pl_unify::{Ref, Store};
use std::alloc::Global;
use value_model::EvalFault;

/// Unifies a term with the value of an expression: `is` (ISO/IEC 13211-1, 8.6.1).
pub fn is(
    alloc: Global,
    store: &mut Store,
    names: &Names,
    left: Ref,
    right: Ref,
) -> Result<Done, NoMemory>
    requires left { IsRef store.old.state left }
    requires right { IsRef store.old.state right }
    ensures done { IfOk result (λ done. Meets store.old.state store.new.state (assigned (tree_at store.old.state left) (value (by_numbers names.now) (tree_at store.old.state right))) done) }
    ensures memory { OnErr result (store.new.state ≡ store.old.state) }
{
    match evaluate(alloc, store, names, right) {
        Ok(value) => unify_int(store, left, value),
        Err(fault) => raise(fault),
    }
}

/// Compares the values of two expressions (ISO/IEC 13211-1, 8.7.1).
pub fn compare_values(
    alloc: Global,
    store: &Store,
    names: &Names,
    relation: Relation,
    left: Ref,
    right: Ref,
) -> Result<Done, NoMemory>
    requires left { IsRef store.now.state left }
    requires right { IsRef store.now.state right }
    ensures { IfOk result (λ done. Meets store.now.state store.now.state (related relation (value (by_numbers names.now) (tree_at store.now.state left)) (value (by_numbers names.now) (tree_at store.now.state right))) done) }
{
    match evaluate(alloc, store, names, left) {
        Ok(x) => match evaluate(alloc, store, names, right) {
            Ok(y) => Ok(whether(holds(relation, x, y))),
            Err(fault) => raise(fault),
        },
        Err(fault) => raise(fault),
    }
}

// Throws the error of an expression.
fn raise(fault: EvalFault) -> Result<Done, NoMemory>
    ensures { IfOk result (λ done. IsRaised fault done) }
{
    match fault {
        EvalFault::Instantiation => Ok(Done::Raise(Raised::Instantiation)),
        EvalFault::NotEvaluable(name, arity) => {
            Ok(Done::Raise(Raised::NotEvaluable(name, arity)))
        }
        EvalFault::NoMemory => Err(NoMemory),
        other => Ok(Done::Raise(Raised::Evaluation(other))),
    }
}

/// Whether two values stand in a relation (ISO/IEC 13211-1, 8.7.1).
pub fn holds(relation: Relation, x: i64, y: i64) -> bool
    ensures { result ≡ holds relation x y }
{
    match relation {
        Relation::Equal => x == y,
        Relation::NotEqual => x != y,
        Relation::Less => x < y,
        Relation::AtMost => x <= y,
        Relation::Greater => x > y,
        Relation::AtLeast => x >= y,
    }
}
