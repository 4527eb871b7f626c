//! Units from facts.
ghost use Rattle.std.specs.Prelude.{◌≡◌, ◌<◌, [], length, map, IfOk};
ghost use Rattle.std.specs.List.{AllByRecursion};
ghost use Rattle.pl_atoms.specs.Names.{with_texts};
ghost use Rattle.unit_model.specs.Encoding.{text_at, facts_in};
ghost use Rattle.unit_model.specs.Views.{facts_view};
ghost use Rattle.unit_format.specs.Views.{unit_facts};
ghost use Rattle.unit_model.specs.Entries.{FactsBelow, IsSound};

use crate::counts::are_few;
use crate::numbering::Numbering;
use crate::renumbering::numbered_facts;
use crate::uses::note_facts;
use pl_atoms::{NameId, Names, NoMemory};
use std::alloc::Global;
use unit_format::Unit;
use unit_model::Facts;

/// A table of the names with these numbers, in their order.
pub fn table_of(alloc: Global, names: &Names, numbers: &[usize]) -> Result<Names, NoMemory>
    requires { AllByRecursion (λ k. k < length names.now) numbers.now }
    ensures { IfOk result (λ table. table ≡ with_texts [] (map (text_at names.now) numbers.now)) }
{
    let mut table = Names::new(alloc);
    for number in numbers {
        table.intern(names.text(NameId(*number)))?;
    }
    Ok(table)
}

/// The unit of these facts, whose names are numbers of `names`. The names of the unit stand in the order of their first use.
pub fn ordered(alloc: Global, names: &Names, facts: Facts) -> Result<Unit, NoMemory>
    requires below { FactsBelow (length names.now) (facts_view facts) }
    requires sound { IsSound (facts_in names.now (facts_view facts)) }
    ensures facts { IfOk result (λ u. unit_facts u ≡ facts_in names.now (facts_view facts)) }
{
    let count = names.len();
    let mut used = Numbering::with_room(alloc, count)?;
    note_facts(&mut used, &facts)?;
    let table = table_of(alloc, names, used.names())?;
    // Of a text of at most 67,108,864 bytes there are never so many that a count would not fit.
    if !are_few(table.len(), &facts) {
        return Err(NoMemory);
    }
    let facts = numbered_facts(alloc, &used, &facts)?;
    Ok(Unit {
        names: table,
        facts,
    })
}
