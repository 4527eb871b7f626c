//! What evaluable functors give over integers.
ghost use Rattle.std.specs.Prelude.{◌≡◌};
ghost use Rattle.pl_terms.specs.Trees.{comp, int, cons, nil};
ghost use Rattle.value_model.specs.Value.{value};

use crate::evaluable::find_operation;
use crate::name::text_of;
use crate::number::{apply_one, apply_two};
use pl_atoms::{NameId, Names};
use value_model::{EvalFault, Operation};

/// The value of the compound of a name and one integer.
pub fn over_one(names: &Names, name: NameId, x: i64) -> Result<i64, EvalFault>
    ensures { result ≡ value names.now (comp name.0 (cons (int x) nil)) }
{
    match find_operation(text_of(names, name), 1) {
        Some(Operation::One(op)) => apply_one(op, x),
        Some(Operation::Two(_)) | None => Err(EvalFault::NotEvaluable(name, 1)),
    }
}

/// The value of the compound of a name and two integers.
pub fn over_two(names: &Names, name: NameId, x: i64, y: i64) -> Result<i64, EvalFault>
    ensures { result ≡ value names.now (comp name.0 (cons (int x) (cons (int y) nil))) }
{
    match find_operation(text_of(names, name), 2) {
        Some(Operation::Two(op)) => apply_two(op, x, y),
        Some(Operation::One(_)) | None => Err(EvalFault::NotEvaluable(name, 2)),
    }
}
