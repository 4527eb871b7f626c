//! The rules on the facts of a unit.
ghost use Rattle.std.specs.Prelude.{◌≡◌, IfOk};
ghost use Rattle.unit_format.specs.Rules.{bits, standard_infixes, rules_by};

use crate::modules::are_modules_known;
use crate::operators::are_operators_accepted;
use crate::sections::{begins_with_user, have_clauses, have_entries_of_kind};
use pl_atoms::{Names, NoMemory};
use std::alloc::Global;
use unit_model::Facts;

/// Whether the facts keep the rules on sections, clauses, operators and modules.
pub fn keeps_rules(alloc: Global, names: &Names, facts: &Facts) -> Result<bool, NoMemory>
    ensures { IfOk result (λ b. b ≡ rules_by names.now (bits (standard_infixes names.now)) facts.now) }
{
    let sections = facts.sections.as_slice();
    if !begins_with_user(names, sections) {
        return Ok(false);
    }
    if !have_entries_of_kind(sections) {
        return Ok(false);
    }
    if !have_clauses(names, sections) {
        return Ok(false);
    }
    if !are_operators_accepted(alloc, names, facts)? {
        return Ok(false);
    }
    are_modules_known(alloc, names, facts)
}
