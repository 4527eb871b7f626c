//! Units from bytes.
ghost use Rattle.std.specs.Prelude.{◌≡◌, List, ℕ, IfOk, MatchResult};
ghost use Rattle.unit_model.specs.Facts.{Facts as FactsOf};
ghost use Rattle.unit_model.specs.Validity.{IsUnit};
ghost use Rattle.unit_format.specs.Decoding.{decoded};
ghost use Rattle.unit_format.specs.Views.{Gives, raw_view, unit_facts};
ghost use Rattle.unit_format.specs.declared.fault.UnitFault.TheVariants.{NoMemory as OutOfMemory};

use crate::fault::UnitFault;
use crate::fields::raw;
use crate::order::is_in_order;
use crate::rules::keeps_rules;
use crate::unit::Unit;
use pl_atoms::Names;
use std::alloc::Global;
use unit_model::Facts;

/// The most bytes that a unit has.
pub const LIMIT: usize = 67108864;

fn parts(alloc: Global, bytes: &[u8]) -> Result<(Names, Facts), UnitFault>
    ensures { Gives raw_view result (decoded bytes.now) }
{
    if bytes.len() > LIMIT {
        return Err(UnitFault::NotUnit);
    }
    let (names, facts) = raw(alloc, bytes)?;
    if !is_in_order(&names, &facts) {
        return Err(UnitFault::NotUnit);
    }
    if !keeps_rules(alloc, &names, &facts)? {
        return Err(UnitFault::NotUnit);
    }
    Ok((names, facts))
}

/// The unit that these bytes spell. `NotUnit`: they are no valid unit's, or more than 67,108,864. It takes no more memory than the
/// bytes that are there ask for, whatever their counts say, and time in proportion to them.
pub fn decode(alloc: Global, bytes: &[u8]) -> Result<Unit, UnitFault>
    // What is decoded is spelled so.
    ensures found { IfOk result (λ u. IsUnit (unit_facts u) bytes.now) }
    // What is spelled so is decoded to its facts, unless memory runs out.
    ensures only { (f : FactsOf (List ℕ)) → IsUnit f bytes.now → MatchResult result (λ u. unit_facts u ≡ f) (λ e. e ≡ OutOfMemory) }
{
    let (names, facts) = parts(alloc, bytes)?;
    Ok(Unit { names, facts })
}
