//! Facts under the new numbers of their names.
ghost use Rattle.std.specs.Prelude.{◌≡◌, map, IfOk};
ghost use Rattle.pl_terms.specs.Trees.{renamed};
ghost use Rattle.unit_model.specs.Facts.{clause, indicator_by, operator_by, need_by, what_by, entry_by, section_by, facts_by};
ghost use Rattle.unit_model.specs.Views.{ind_view, op_view, ops_view, need_view, what_view, entry_view, entries_view, section_view, facts_view};
ghost use Rattle.unit_order.specs.Numbering.{number_in, cell_by_name};

use crate::numbering::Numbering;
use pl_atoms::NoMemory;
use pl_terms::{Cell, Term, TermBuf};
use std::alloc::Global;
use unit_model::{
    Entries, Entry, Facts, Ind, ModeList, Need, Needs, OpDecl, OpDecls, Section, Sections, What,
};

// Each of these is something with the new numbers for the names in it.

fn numbered_cell(used: &Numbering, cell: Cell) -> Cell
    ensures { result ≡ cell_by_name (number_in used.now) cell }
{
    match cell {
        Cell::Name(name) => Cell::Name(used.number(name)),
        Cell::Comp(name, arity) => Cell::Comp(used.number(name), arity),
        other => other,
    }
}

fn numbered_term(alloc: Global, used: &Numbering, term: &Term) -> Result<Term, NoMemory>
    ensures { IfOk result (λ copy. copy ≡ renamed (number_in used.now) term.now) }
{
    let cells = term.cells();
    let mut copy = TermBuf::with_capacity(alloc, cells.len())?;
    for cell in cells {
        copy.push(numbered_cell(used, *cell))?;
    }
    Ok(copy.end_whole())
}

fn numbered_ind(used: &Numbering, ind: Ind) -> Ind
    ensures { ind_view result ≡ indicator_by (number_in used.now) (ind_view ind) }
{
    Ind {
        name: used.number(ind.name),
        arity: ind.arity,
    }
}

fn numbered_op(used: &Numbering, op: OpDecl) -> OpDecl
    ensures { op_view result ≡ operator_by (number_in used.now) (op_view op) }
{
    OpDecl {
        priority: op.priority,
        kind: op.kind,
        name: used.number(op.name),
    }
}

fn numbered_ops(alloc: Global, used: &Numbering, ops: &[OpDecl]) -> Result<OpDecls, NoMemory>
    ensures { IfOk result (λ copy. ops_view copy ≡ map (operator_by (number_in used.now)) (ops_view ops.now)) }
{
    let mut copy = OpDecls::new(alloc);
    for op in ops {
        copy.push(numbered_op(used, *op))?;
    }
    Ok(copy)
}

fn copied_modes(alloc: Global, modes: &[bool]) -> Result<ModeList, NoMemory>
    ensures { IfOk result (λ copy. copy ≡ modes.now) }
{
    let copy = Vec::from_slice(alloc, modes)?;
    Ok(ModeList::from_vec(copy))
}

fn numbered_clause(
    alloc: Global,
    used: &Numbering,
    variables: usize,
    head: &Term,
    body: &Term,
) -> Result<What, NoMemory>
    ensures { IfOk result (λ copy. what_view copy ≡ clause variables (renamed (number_in used.now) head.now) (renamed (number_in used.now) body.now)) }
{
    let head = numbered_term(alloc, used, head)?;
    let body = numbered_term(alloc, used, body)?;
    Ok(What::Clause(variables, head, body))
}

fn numbered_what(alloc: Global, used: &Numbering, what: &What) -> Result<What, NoMemory>
    ensures { IfOk result (λ copy. what_view copy ≡ what_by (number_in used.now) (what_view what.now)) }
{
    match what {
        What::Export(ind) => Ok(What::Export(numbered_ind(used, *ind))),
        What::ReexportAll(module) => Ok(What::ReexportAll(used.number(*module))),
        What::Reexport(module, ind) => {
            let module = used.number(*module);
            Ok(What::Reexport(module, numbered_ind(used, *ind)))
        }
        What::Meta(name, modes) => {
            let name = used.number(*name);
            let modes = copied_modes(alloc, modes.as_slice())?;
            Ok(What::Meta(name, modes))
        }
        What::Operator(op) => Ok(What::Operator(numbered_op(used, *op))),
        What::ImportAll(module) => Ok(What::ImportAll(used.number(*module))),
        What::Import(module, ind) => {
            let module = used.number(*module);
            Ok(What::Import(module, numbered_ind(used, *ind)))
        }
        What::Clause(variables, head, body) => numbered_clause(alloc, used, *variables, head, body),
    }
}

fn numbered_entry(alloc: Global, used: &Numbering, entry: &Entry) -> Result<Entry, NoMemory>
    ensures { IfOk result (λ copy. entry_view copy ≡ entry_by (number_in used.now) (entry_view entry.now)) }
{
    let byte = entry.byte;
    let what = numbered_what(alloc, used, &entry.what)?;
    Ok(Entry { byte, what })
}

fn numbered_entries(alloc: Global, used: &Numbering, entries: &[Entry]) -> Result<Entries, NoMemory>
    ensures { IfOk result (λ copy. entries_view copy ≡ map (entry_by (number_in used.now)) (entries_view entries.now)) }
{
    let mut copy = Entries::new(alloc);
    for entry in entries {
        copy.push(numbered_entry(alloc, used, entry)?)?;
    }
    Ok(copy)
}

fn numbered_section(alloc: Global, used: &Numbering, section: &Section) -> Result<Section, NoMemory>
    ensures { IfOk result (λ copy. section_view copy ≡ section_by (number_in used.now) (section_view section.now)) }
{
    let kind = section.kind;
    let byte = section.byte;
    let module = used.number(section.module);
    let entries = numbered_entries(alloc, used, section.entries.as_slice())?;
    Ok(Section {
        kind,
        byte,
        module,
        entries,
    })
}

fn numbered_sections(
    alloc: Global,
    used: &Numbering,
    sections: &[Section],
) -> Result<Sections, NoMemory>
    ensures { IfOk result (λ copy. map section_view copy ≡ map (section_by (number_in used.now)) (map section_view sections.now)) }
{
    let mut copy = Sections::new(alloc);
    for section in sections {
        copy.push(numbered_section(alloc, used, section)?)?;
    }
    Ok(copy)
}

fn numbered_need(alloc: Global, used: &Numbering, need: &Need) -> Result<Need, NoMemory>
    ensures { IfOk result (λ copy. need_view copy ≡ need_by (number_in used.now) (need_view need.now)) }
{
    let byte = need.byte;
    let module = used.number(need.module);
    let ops = numbered_ops(alloc, used, need.ops.as_slice())?;
    Ok(Need { byte, module, ops })
}

fn numbered_needs(alloc: Global, used: &Numbering, needs: &[Need]) -> Result<Needs, NoMemory>
    ensures { IfOk result (λ copy. map need_view copy ≡ map (need_by (number_in used.now)) (map need_view needs.now)) }
{
    let mut copy = Needs::new(alloc);
    for need in needs {
        copy.push(numbered_need(alloc, used, need)?)?;
    }
    Ok(copy)
}

/// The facts with the new numbers for their names.
pub fn numbered_facts(alloc: Global, used: &Numbering, facts: &Facts) -> Result<Facts, NoMemory>
    ensures { IfOk result (λ copy. facts_view copy ≡ facts_by (number_in used.now) (facts_view facts.now)) }
{
    let needs = numbered_needs(alloc, used, facts.needs.as_slice())?;
    let sections = numbered_sections(alloc, used, facts.sections.as_slice())?;
    Ok(Facts { needs, sections })
}
