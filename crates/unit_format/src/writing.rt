//! Facts as bytes.
ghost use Rattle.std.specs.Prelude.{◌≡◌, ◌<◌, ◌^◌, ◌++◌, ◌∷◌, length, map, OnOk};
ghost use Rattle.std.specs.List.{AllByRecursion, flat_map};
ghost use Rattle.unit_model.specs.Encoding.{u32, tree_bytes, kind_byte, operator_bytes, indicator_bytes, need_bytes, mode_byte, tag, what_bytes, entry_bytes, section_byte, section_bytes, name_bytes, counted};
ghost use Rattle.unit_model.specs.Validity.{FitsTree, FitsIndicator, FitsOperator, FitsWhat, FitsEntry, FitsNeed, FitsSection};
ghost use Rattle.unit_model.specs.Views.{ind_view, op_view, ops_view, need_view, what_view, entry_view, kind_view, section_view};
ghost use Rattle.unit_format.specs.Spelling.{cell_bytes, FitsCell, IsPlace, IsLong};

use pl_atoms::{Bytes, NameId, Names, NoMemory};
use pl_ops::Kind;
use pl_terms::{Cell, Term};
use unit_model::{Entry, Ind, Need, OpDecl, Section, SectionKind, What};

// Each of these puts the bytes of something last.

fn put_u32(out: &mut Bytes, n: usize) -> Result<(), NoMemory>
    requires { n < 2 ^ 32 }
    ensures { OnOk result (out.new ≡ out.old ++ u32 n) }
{
    out.extend_from_slice(&(n as u32).to_be_bytes())?;
    Ok(())
}

fn put_ind(out: &mut Bytes, ind: Ind) -> Result<(), NoMemory>
    requires { FitsIndicator IsPlace (ind_view ind) }
    ensures { OnOk result (out.new ≡ out.old ++ indicator_bytes (ind_view ind)) }
{
    put_u32(out, ind.name.0)?;
    out.push(ind.arity)?;
    Ok(())
}

fn kind_byte(kind: Kind) -> u8
    ensures { result ≡ kind_byte kind }
{
    match kind {
        Kind::Xfx => 1,
        Kind::Xfy => 2,
        Kind::Yfx => 3,
        Kind::Fx => 4,
        Kind::Fy => 5,
        Kind::Xf => 6,
        Kind::Yf => 7,
    }
}

fn put_op(out: &mut Bytes, op: OpDecl) -> Result<(), NoMemory>
    requires { FitsOperator IsPlace (op_view op) }
    ensures { OnOk result (out.new ≡ out.old ++ operator_bytes (op_view op)) }
{
    out.extend_from_slice(&op.priority.to_be_bytes())?;
    out.push(kind_byte(op.kind))?;
    put_u32(out, op.name.0)?;
    Ok(())
}

fn put_cell(out: &mut Bytes, cell: Cell) -> Result<(), NoMemory>
    requires { FitsCell cell }
    ensures { OnOk result (out.new ≡ out.old ++ cell_bytes cell) }
{
    match cell {
        Cell::Var(n) => {
            out.push(0)?;
            put_u32(out, n)?;
        }
        Cell::Int(z) => {
            out.push(1)?;
            out.extend_from_slice(&z.to_be_bytes())?;
        }
        Cell::Name(name) => {
            out.push(2)?;
            put_u32(out, name.0)?;
        }
        Cell::Comp(name, arity) => {
            out.push(3)?;
            put_u32(out, name.0)?;
            out.push(arity)?;
        }
    }
    Ok(())
}

fn put_cells(out: &mut Bytes, cells: &[Cell]) -> Result<(), NoMemory>
    requires { AllByRecursion FitsCell cells.now }
    ensures { OnOk result (out.new ≡ out.old ++ flat_map cell_bytes cells.now) }
{
    for cell in cells {
        put_cell(out, *cell)?;
    }
    Ok(())
}

fn put_tree(out: &mut Bytes, term: &Term) -> Result<(), NoMemory>
    requires { FitsTree IsPlace term.now }
    ensures { OnOk result (out.new ≡ out.old ++ tree_bytes term.now) }
{
    put_cells(out, term.cells())
}

fn put_ops(out: &mut Bytes, ops: &[OpDecl]) -> Result<(), NoMemory>
    requires { AllByRecursion (λ o. FitsOperator IsPlace (op_view o)) ops.now }
    ensures { OnOk result (out.new ≡ out.old ++ flat_map operator_bytes (ops_view ops.now)) }
{
    for op in ops {
        put_op(out, *op)?;
    }
    Ok(())
}

fn put_modes(out: &mut Bytes, modes: &[bool]) -> Result<(), NoMemory>
    ensures { OnOk result (out.new ≡ out.old ++ map mode_byte modes.now) }
{
    for mode in modes {
        out.push(if *mode { 1 } else { 0 })?;
    }
    Ok(())
}

fn put_passed(out: &mut Bytes, owner: NameId, ind: Ind) -> Result<(), NoMemory>
    requires owner { owner.0 < 2 ^ 32 }
    requires ind { FitsIndicator IsPlace (ind_view ind) }
    ensures { OnOk result (out.new ≡ out.old ++ (u32 owner.0 ++ indicator_bytes (ind_view ind))) }
{
    put_u32(out, owner.0)?;
    put_ind(out, ind)?;
    Ok(())
}

fn put_with_modes(out: &mut Bytes, name: NameId, modes: &[bool]) -> Result<(), NoMemory>
    requires name { name.0 < 2 ^ 32 }
    requires modes { length modes.now < 2 ^ 8 }
    ensures { OnOk result (out.new ≡ out.old ++ (u32 name.0 ++ length modes.now ∷ map mode_byte modes.now)) }
{
    put_u32(out, name.0)?;
    out.push(modes.len() as u8)?;
    put_modes(out, modes)?;
    Ok(())
}

fn put_clause(out: &mut Bytes, variables: usize, head: &Term, body: &Term) -> Result<(), NoMemory>
    requires variables { variables < 2 ^ 32 }
    requires head { FitsTree IsPlace head.now }
    requires body { FitsTree IsPlace body.now }
    ensures { OnOk result (out.new ≡ out.old ++ (u32 variables ++ tree_bytes head.now ++ tree_bytes body.now)) }
{
    put_u32(out, variables)?;
    put_tree(out, head)?;
    put_tree(out, body)?;
    Ok(())
}

fn put_what(out: &mut Bytes, what: &What) -> Result<(), NoMemory>
    requires { FitsWhat IsPlace (what_view what.now) }
    ensures { OnOk result (out.new ≡ out.old ++ what_bytes (what_view what.now)) }
{
    match what {
        What::Export(ind) => put_ind(out, *ind),
        What::ReexportAll(module) => put_u32(out, module.0),
        What::Reexport(module, ind) => put_passed(out, *module, *ind),
        What::Meta(name, modes) => put_with_modes(out, *name, modes.as_slice()),
        What::Operator(op) => put_op(out, *op),
        What::ImportAll(module) => put_u32(out, module.0),
        What::Import(module, ind) => put_passed(out, *module, *ind),
        What::Clause(variables, head, body) => put_clause(out, *variables, head, body),
    }
}

fn tag(what: &What) -> u8
    ensures { result ≡ tag (what_view what.now) }
{
    match what {
        What::Export(_) => 1,
        What::ReexportAll(_) => 2,
        What::Reexport(_, _) => 3,
        What::Meta(_, _) => 4,
        What::Operator(_) => 5,
        What::ImportAll(_) => 6,
        What::Import(_, _) => 7,
        What::Clause(_, _, _) => 8,
    }
}

fn put_entry(out: &mut Bytes, entry: &Entry) -> Result<(), NoMemory>
    requires { FitsEntry IsPlace (entry_view entry.now) }
    ensures { OnOk result (out.new ≡ out.old ++ entry_bytes (entry_view entry.now)) }
{
    out.push(tag(&entry.what))?;
    put_u32(out, entry.byte)?;
    put_what(out, &entry.what)?;
    Ok(())
}

fn put_entries(out: &mut Bytes, entries: &[Entry]) -> Result<(), NoMemory>
    requires { AllByRecursion (λ e. FitsEntry IsPlace (entry_view e)) entries.now }
    ensures { OnOk result (out.new ≡ out.old ++ flat_map entry_bytes (map entry_view entries.now)) }
{
    for entry in entries {
        put_entry(out, entry)?;
    }
    Ok(())
}

fn put_place(out: &mut Bytes, byte: usize, owner: NameId) -> Result<(), NoMemory>
    requires byte { byte < 2 ^ 32 }
    requires owner { owner.0 < 2 ^ 32 }
    ensures { OnOk result (out.new ≡ out.old ++ (u32 byte ++ u32 owner.0)) }
{
    put_u32(out, byte)?;
    put_u32(out, owner.0)?;
    Ok(())
}

fn section_byte(kind: SectionKind) -> u8
    ensures { result ≡ section_byte (kind_view kind) }
{
    match kind {
        SectionKind::Interface => 1,
        SectionKind::Body => 2,
    }
}

fn put_section(out: &mut Bytes, section: &Section) -> Result<(), NoMemory>
    requires { FitsSection IsPlace (section_view section.now) }
    ensures { OnOk result (out.new ≡ out.old ++ section_bytes (section_view section.now)) }
{
    let entries = section.entries.as_slice();
    out.push(section_byte(section.kind))?;
    put_place(out, section.byte, section.module)?;
    put_u32(out, entries.len())?;
    put_entries(out, entries)?;
    Ok(())
}

fn put_need(out: &mut Bytes, need: &Need) -> Result<(), NoMemory>
    requires { FitsNeed IsPlace (need_view need.now) }
    ensures { OnOk result (out.new ≡ out.old ++ need_bytes (need_view need.now)) }
{
    let ops = need.ops.as_slice();
    put_place(out, need.byte, need.module)?;
    put_u32(out, ops.len())?;
    put_ops(out, ops)?;
    Ok(())
}

fn put_each_need(out: &mut Bytes, needs: &[Need]) -> Result<(), NoMemory>
    requires { AllByRecursion (λ n. FitsNeed IsPlace (need_view n)) needs.now }
    ensures { OnOk result (out.new ≡ out.old ++ flat_map need_bytes (map need_view needs.now)) }
{
    for need in needs {
        put_need(out, need)?;
    }
    Ok(())
}

fn put_each_section(out: &mut Bytes, sections: &[Section]) -> Result<(), NoMemory>
    requires { AllByRecursion (λ s. FitsSection IsPlace (section_view s)) sections.now }
    ensures { OnOk result (out.new ≡ out.old ++ flat_map section_bytes (map section_view sections.now)) }
{
    for section in sections {
        put_section(out, section)?;
    }
    Ok(())
}

fn put_name(out: &mut Bytes, text: &[u8]) -> Result<(), NoMemory>
    requires { length text.now < 2 ^ 32 }
    ensures { OnOk result (out.new ≡ out.old ++ name_bytes text.now) }
{
    put_u32(out, text.len())?;
    out.extend_from_slice(text)?;
    Ok(())
}

fn put_each_name(out: &mut Bytes, names: &Names) -> Result<(), NoMemory>
    requires { AllByRecursion IsLong names.now }
    ensures { OnOk result (out.new ≡ out.old ++ flat_map name_bytes names.now) }
{
    for place in 0..names.len() {
        put_name(out, names.text(NameId(place)))?;
    }
    Ok(())
}

/// The count of the needs, and the needs.
pub fn put_needs(out: &mut Bytes, needs: &[Need]) -> Result<(), NoMemory>
    requires count { length needs.now < 2 ^ 32 }
    requires needs { AllByRecursion (λ n. FitsNeed IsPlace (need_view n)) needs.now }
    ensures { OnOk result (out.new ≡ out.old ++ counted need_bytes (map need_view needs.now)) }
{
    put_u32(out, needs.len())?;
    put_each_need(out, needs)?;
    Ok(())
}

/// The count of the sections, and the sections.
pub fn put_sections(out: &mut Bytes, sections: &[Section]) -> Result<(), NoMemory>
    requires count { length sections.now < 2 ^ 32 }
    requires sections { AllByRecursion (λ s. FitsSection IsPlace (section_view s)) sections.now }
    ensures { OnOk result (out.new ≡ out.old ++ counted section_bytes (map section_view sections.now)) }
{
    put_u32(out, sections.len())?;
    put_each_section(out, sections)?;
    Ok(())
}

/// The count of the names, and the names.
pub fn put_names(out: &mut Bytes, names: &Names) -> Result<(), NoMemory>
    requires count { length names.now < 2 ^ 32 }
    requires names { AllByRecursion IsLong names.now }
    ensures { OnOk result (out.new ≡ out.old ++ counted name_bytes names.now) }
{
    put_u32(out, names.len())?;
    put_each_name(out, names)?;
    Ok(())
}
