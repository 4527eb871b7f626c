//! Whether names, and the variables of a clause, come in order.
ghost use Rattle.std.specs.Prelude.{◌≡◌, ◌∷◌, [], ◌++◌};
ghost use Rattle.std.specs.List.{flat_map};
ghost use Rattle.pl_terms.specs.Occurrence.{occurrences, first_after, from_to};
ghost use Rattle.unit_model.specs.Facts.{tree_names};
ghost use Rattle.unit_model.specs.Validity.{are_same};
ghost use Rattle.unit_format.specs.Counting.{counted_within};
ghost use Rattle.unit_format.specs.Uses.{cell_names, cell_variables, op_uses, need_uses, what_uses, entry_uses, section_uses, facts_uses};
ghost use Rattle.unit_format.specs.Decoding.{is_in_order};
ghost use Rattle.unit_format.specs.Views.{raw_view};

use pl_atoms::Names;
use pl_terms::{Cell, Term};
use unit_model::{Entry, Facts, Need, OpDecl, Section, What};

// Each of the functions `after_..` counts numbers that come in order: `next` is how many have come, and no more than `limit` may
// come. None: one came too early.

fn after_number(limit: usize, next: usize, number: usize) -> Option<usize>
    ensures { result ≡ counted_within limit next (number ∷ []) }
{
    if number < next {
        return Some(next);
    }
    if number != next {
        return None;
    }
    if next < limit { Some(next + 1) } else { None }
}

fn after_cell_name(limit: usize, next: usize, cell: Cell) -> Option<usize>
    ensures { result ≡ counted_within limit next (cell_names cell) }
{
    match cell {
        Cell::Name(name) => after_number(limit, next, name.0),
        Cell::Comp(name, _) => after_number(limit, next, name.0),
        _ => Some(next),
    }
}

fn after_names(limit: usize, next: usize, cells: &[Cell]) -> Option<usize>
    ensures { result ≡ counted_within limit next (flat_map cell_names cells.now) }
{
    let mut next = next;
    for cell in cells {
        next = after_cell_name(limit, next, *cell)?;
    }
    Some(next)
}

fn after_term(limit: usize, next: usize, term: &Term) -> Option<usize>
    ensures { result ≡ counted_within limit next (tree_names term.now) }
{
    after_names(limit, next, term.cells())
}

fn after_cell_variable(limit: usize, next: usize, cell: Cell) -> Option<usize>
    ensures { result ≡ counted_within limit next (cell_variables cell) }
{
    match cell {
        Cell::Var(number) => after_number(limit, next, number),
        _ => Some(next),
    }
}

fn after_variables(limit: usize, next: usize, cells: &[Cell]) -> Option<usize>
    ensures { result ≡ counted_within limit next (flat_map cell_variables cells.now) }
{
    let mut next = next;
    for cell in cells {
        next = after_cell_variable(limit, next, *cell)?;
    }
    Some(next)
}

fn after_both(limit: usize, head: &Term, body: &Term) -> Option<usize>
    ensures { result ≡ counted_within limit 0 (occurrences head.now ++ occurrences body.now) }
{
    let next = after_variables(limit, 0, head.cells())?;
    after_variables(limit, next, body.cells())
}

/// Whether the variables of a clause are 0, 1, 2 and so on in order of first occurrence in its head, then its body, and so many.
pub fn is_numbered(count: usize, head: &Term, body: &Term) -> bool
    ensures { result ≡ are_same (first_after [] (occurrences head.now ++ occurrences body.now)) (from_to 0 count) }
{
    match after_both(count, head, body) {
        Some(next) => next == count,
        None => false,
    }
}

fn after_ops(limit: usize, next: usize, ops: &[OpDecl]) -> Option<usize>
    ensures { result ≡ counted_within limit next (flat_map op_uses ops.now) }
{
    let mut next = next;
    for op in ops {
        next = after_number(limit, next, op.name.0)?;
    }
    Some(next)
}

fn after_need(limit: usize, next: usize, need: &Need) -> Option<usize>
    ensures { result ≡ counted_within limit next (need_uses need.now) }
{
    let next = after_number(limit, next, need.module.0)?;
    after_ops(limit, next, need.ops.as_slice())
}

fn after_two(limit: usize, next: usize, first: usize, second: usize) -> Option<usize>
    ensures { result ≡ counted_within limit next (first ∷ second ∷ []) }
{
    let next = after_number(limit, next, first)?;
    after_number(limit, next, second)
}

fn after_terms(limit: usize, next: usize, head: &Term, body: &Term) -> Option<usize>
    ensures { result ≡ counted_within limit next (tree_names head.now ++ tree_names body.now) }
{
    let next = after_term(limit, next, head)?;
    after_term(limit, next, body)
}

fn after_what(limit: usize, next: usize, what: &What) -> Option<usize>
    ensures { result ≡ counted_within limit next (what_uses what.now) }
{
    match what {
        What::Export(ind) => after_number(limit, next, ind.name.0),
        What::ReexportAll(module) => after_number(limit, next, module.0),
        What::Reexport(module, ind) => after_two(limit, next, module.0, ind.name.0),
        What::Meta(name, _) => after_number(limit, next, name.0),
        What::Operator(op) => after_number(limit, next, op.name.0),
        What::ImportAll(module) => after_number(limit, next, module.0),
        What::Import(module, ind) => after_two(limit, next, module.0, ind.name.0),
        What::Clause(_, head, body) => after_terms(limit, next, head, body),
    }
}

fn after_entries(limit: usize, next: usize, entries: &[Entry]) -> Option<usize>
    ensures { result ≡ counted_within limit next (flat_map entry_uses entries.now) }
{
    let mut next = next;
    for entry in entries {
        next = after_what(limit, next, &entry.what)?;
    }
    Some(next)
}

fn after_section(limit: usize, next: usize, section: &Section) -> Option<usize>
    ensures { result ≡ counted_within limit next (section_uses section.now) }
{
    let next = after_number(limit, next, section.module.0)?;
    after_entries(limit, next, section.entries.as_slice())
}

fn after_needs(limit: usize, next: usize, needs: &[Need]) -> Option<usize>
    ensures { result ≡ counted_within limit next (flat_map need_uses needs.now) }
{
    let mut next = next;
    for need in needs {
        next = after_need(limit, next, need)?;
    }
    Some(next)
}

fn after_sections(limit: usize, next: usize, sections: &[Section]) -> Option<usize>
    ensures { result ≡ counted_within limit next (flat_map section_uses sections.now) }
{
    let mut next = next;
    for section in sections {
        next = after_section(limit, next, section)?;
    }
    Some(next)
}

fn after_facts(limit: usize, facts: &Facts) -> Option<usize>
    ensures { result ≡ counted_within limit 0 (facts_uses facts.now) }
{
    let next = after_needs(limit, 0, facts.needs.as_slice())?;
    after_sections(limit, next, facts.sections.as_slice())
}

/// Whether the facts use each of the names, in the order of first use.
pub fn is_in_order(names: &Names, facts: &Facts) -> bool
    ensures { result ≡ is_in_order (raw_view (names.now, facts.now)) }
{
    let count = names.len();
    match after_facts(count, facts) {
        Some(used) => used == count,
        None => false,
    }
}
