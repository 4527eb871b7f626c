//! The names of facts, noted in the order of their first use.
ghost use Rattle.std.specs.Prelude.{◌≡◌, ◌∷◌, [], ◌++◌, OnOk};
ghost use Rattle.std.specs.List.{flat_map};
ghost use Rattle.unit_model.specs.Facts.{tree_names};
ghost use Rattle.unit_format.specs.Uses.{cell_names, op_uses, need_uses, what_uses, entry_uses, section_uses, facts_uses};
ghost use Rattle.unit_order.specs.Numbering.{all_noted};

use crate::numbering::Numbering;
use pl_atoms::{NameId, NoMemory};
use pl_terms::{Cell, Term};
use unit_model::{Entry, Facts, Need, OpDecl, Section, What};

// Each of these notes the names of something from the left.

fn note_cell(used: &mut Numbering, cell: Cell) -> Result<(), NoMemory>
    ensures { OnOk result (used.new ≡ all_noted used.old (cell_names cell)) }
{
    match cell {
        Cell::Name(name) => used.note(name),
        Cell::Comp(name, _) => used.note(name),
        _ => Ok(()),
    }
}

fn note_cells(used: &mut Numbering, cells: &[Cell]) -> Result<(), NoMemory>
    ensures { OnOk result (used.new ≡ all_noted used.old (flat_map cell_names cells.now)) }
{
    for cell in cells {
        note_cell(used, *cell)?;
    }
    Ok(())
}

fn note_term(used: &mut Numbering, term: &Term) -> Result<(), NoMemory>
    ensures { OnOk result (used.new ≡ all_noted used.old (tree_names term.now)) }
{
    note_cells(used, term.cells())
}

fn note_both(used: &mut Numbering, first: NameId, second: NameId) -> Result<(), NoMemory>
    ensures { OnOk result (used.new ≡ all_noted used.old (first.0 ∷ second.0 ∷ [])) }
{
    used.note(first)?;
    used.note(second)
}

fn note_terms(used: &mut Numbering, head: &Term, body: &Term) -> Result<(), NoMemory>
    ensures { OnOk result (used.new ≡ all_noted used.old (tree_names head.now ++ tree_names body.now)) }
{
    note_term(used, head)?;
    note_term(used, body)
}

fn note_what(used: &mut Numbering, what: &What) -> Result<(), NoMemory>
    ensures { OnOk result (used.new ≡ all_noted used.old (what_uses what.now)) }
{
    match what {
        What::Export(ind) => used.note(ind.name),
        What::ReexportAll(module) => used.note(*module),
        What::Reexport(module, ind) => note_both(used, *module, ind.name),
        What::Meta(name, _) => used.note(*name),
        What::Operator(op) => used.note(op.name),
        What::ImportAll(module) => used.note(*module),
        What::Import(module, ind) => note_both(used, *module, ind.name),
        What::Clause(_, head, body) => note_terms(used, head, body),
    }
}

fn note_entries(used: &mut Numbering, entries: &[Entry]) -> Result<(), NoMemory>
    ensures { OnOk result (used.new ≡ all_noted used.old (flat_map entry_uses entries.now)) }
{
    for entry in entries {
        note_what(used, &entry.what)?;
    }
    Ok(())
}

fn note_section(used: &mut Numbering, section: &Section) -> Result<(), NoMemory>
    ensures { OnOk result (used.new ≡ all_noted used.old (section_uses section.now)) }
{
    used.note(section.module)?;
    note_entries(used, section.entries.as_slice())
}

fn note_sections(used: &mut Numbering, sections: &[Section]) -> Result<(), NoMemory>
    ensures { OnOk result (used.new ≡ all_noted used.old (flat_map section_uses sections.now)) }
{
    for section in sections {
        note_section(used, section)?;
    }
    Ok(())
}

fn note_ops(used: &mut Numbering, ops: &[OpDecl]) -> Result<(), NoMemory>
    ensures { OnOk result (used.new ≡ all_noted used.old (flat_map op_uses ops.now)) }
{
    for op in ops {
        used.note(op.name)?;
    }
    Ok(())
}

fn note_need(used: &mut Numbering, need: &Need) -> Result<(), NoMemory>
    ensures { OnOk result (used.new ≡ all_noted used.old (need_uses need.now)) }
{
    used.note(need.module)?;
    note_ops(used, need.ops.as_slice())
}

fn note_needs(used: &mut Numbering, needs: &[Need]) -> Result<(), NoMemory>
    ensures { OnOk result (used.new ≡ all_noted used.old (flat_map need_uses needs.now)) }
{
    for need in needs {
        note_need(used, need)?;
    }
    Ok(())
}

/// Notes the names of the facts from the left.
pub fn note_facts(used: &mut Numbering, facts: &Facts) -> Result<(), NoMemory>
    ensures { OnOk result (used.new ≡ all_noted used.old (facts_uses facts.now)) }
{
    note_needs(used, facts.needs.as_slice())?;
    note_sections(used, facts.sections.as_slice())
}
