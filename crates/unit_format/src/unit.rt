//! Units.
ghost use Rattle.unit_format.specs.Units.{IsUnitOf};

use pl_atoms::Names;
use unit_model::Facts;

/// The facts of a text, with a table of the names in them.
///
/// The names stand in the order of their first use, and the facts keep the rules on units.
#[derive(Drop)]
pub struct Unit {
    pub names: Names,
    pub facts: Facts,
    pub ghost valid: { ∥ IsUnitOf names facts ∥₁ },
}
