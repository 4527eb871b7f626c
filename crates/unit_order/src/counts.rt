//! Whether counts fit into the fields of a unit.
ghost use Rattle.std.specs.Prelude.{◌≡◌, ◌^◌, length, nat_lt, IsTrue};
ghost use Rattle.std.specs.List.{list_all};
ghost use Rattle.unit_order.specs.Counts.{few_ops, few_entries, are_few};

use unit_model::{Facts, Need, Section};

// What a count is below.
const COUNT_LIMIT: usize = 1 << 32;

fn have_few_ops(needs: &[Need]) -> bool
    ensures { result ≡ list_all few_ops needs.now }
{
    needs
        .iter()
        .all(|need| need.ops.as_slice().len() < COUNT_LIMIT)
}

fn have_few_entries(sections: &[Section]) -> bool
    ensures { result ≡ list_all few_entries sections.now }
{
    sections
        .iter()
        .all(|section| section.entries.as_slice().len() < COUNT_LIMIT)
}

/// Whether so many names, and each count in the facts, fit into four bytes.
pub fn are_few(names: usize, facts: &Facts) -> bool
    ensures { result ≡ are_few names facts.now }
{
    let needs = facts.needs.as_slice();
    let sections = facts.sections.as_slice();
    names < COUNT_LIMIT
        && needs.len() < COUNT_LIMIT
        && sections.len() < COUNT_LIMIT
        && have_few_ops(needs)
        && have_few_entries(sections)
}
