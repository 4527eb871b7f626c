//! The rule on operators: a standard table accepts them in their order.
ghost use Rattle.std.specs.Prelude.{◌≡◌, List, ℕ, [], ◌∷◌, true, false, map, is_some, nat_eq, if◌then◌else◌, Some, None, OnOk, IfOk};
ghost use Rattle.std.specs.Option.{unwrap_or};
ghost use Rattle.std.specs.Map.{lookup};
ghost use Rattle.std.specs.List.{list_all, filter_map, cons_option};
ghost use Rattle.pl_ops.specs.Tables.{class_of, operator, infix_class};
ghost use Rattle.unit_model.specs.Validity.{is_barred};
ghost use Rattle.unit_model.specs.declared.facts.OpDecl.{OpDecl as Op};
ghost use Rattle.unit_format.specs.Rules.{Marks, bits, marks_in, no_marks, standard_infixes, refused_by, clashes_by, infix_after, postfix_after, accepts_by, accepted_by, op_in, interface_accepted, need_accepted, operators_by};

use crate::clauses::text_of;
use crate::sections::is_interface;
use indexmap::IndexMap;
use pl_atoms::{NameId, Names, NoMemory};
use pl_ops::{Kind, OpTable};
use std::alloc::Global;
use unit_model::{Entry, Facts, Need, OpDecl, Section, What};

// Names that were declared, by number, and whether each is an operator now. A name is looked up by its number: its text may be
// long, and is not read at each declaration.
#[derive(Drop)]
struct MarkMap {
    marks: IndexMap<usize, bool>,
}

impl MarkMap {
    fn new(alloc: Global) -> MarkMap
        ensures { result.marks.entries ≡ [] }
    {
        MarkMap {
            marks: IndexMap::new(alloc),
        }
    }

    fn get(&self, name: NameId, other: bool) -> bool
        ensures { result ≡ unwrap_or (lookup (nat_eq name.0) self.now.marks.entries) other }
    {
        match self.marks.get(&name.0) {
            Some(mark) => *mark,
            None => other,
        }
    }

    fn put(&mut self, name: NameId, mark: bool) -> Result<(), NoMemory>
        ensures { OnOk result ((n : ℕ) → lookup (nat_eq n) self.new.marks.entries ≡ (if nat_eq name.0 n then Some mark else lookup (nat_eq n) self.old.marks.entries)) }
    {
        self.marks.insert(name.0, mark)?;
        Ok(())
    }
}

// The infix and postfix operators that were declared.
#[derive(Drop)]
struct Declared {
    infixes: MarkMap,
    postfixes: MarkMap,
}

fn is_barred(text: &[u8]) -> bool
    ensures { result ≡ is_barred text.now }
{
    match text {
        b"," => true,
        b"|" => true,
        b"[]" => true,
        b"{}" => true,
        _ => false,
    }
}

fn bit_at(marks: &[bool], name: NameId) -> bool
    ensures { result ≡ bits marks.now name.0 }
{
    if name.0 < marks.len() {
        marks[name.0]
    } else {
        false
    }
}

fn clashes(standard: &[bool], declared: &Declared, op: OpDecl) -> bool
    ensures { result ≡ clashes_by (marks_in (bits standard.now) declared.now.infixes.marks.entries) (marks_in no_marks declared.now.postfixes.marks.entries) (class_of op.kind) op.name.0 }
{
    match op.kind {
        Kind::Fx => false,
        Kind::Fy => false,
        Kind::Xf => declared.infixes.get(op.name, bit_at(standard, op.name)),
        Kind::Yf => declared.infixes.get(op.name, bit_at(standard, op.name)),
        Kind::Xfx => declared.postfixes.get(op.name, false),
        Kind::Xfy => declared.postfixes.get(op.name, false),
        Kind::Yfx => declared.postfixes.get(op.name, false),
    }
}

fn is_refused(names: &Names, standard: &[bool], declared: &Declared, op: OpDecl) -> bool
    ensures { result ≡ refused_by names.now (marks_in (bits standard.now) declared.now.infixes.marks.entries) (marks_in no_marks declared.now.postfixes.marks.entries) op }
{
    if op.priority > 1200 {
        return true;
    }
    if is_barred(text_of(names, op.name)) {
        return true;
    }
    op.priority > 0 && clashes(standard, declared, op)
}

fn declare(declared: &mut Declared, op: OpDecl) -> Result<(), NoMemory>
    ensures infixes { OnOk result ((others : Marks) (n : ℕ) → marks_in others declared.new.infixes.marks.entries n ≡ infix_after (marks_in others declared.old.infixes.marks.entries) op (class_of op.kind) n) }
    ensures postfixes { OnOk result ((others : Marks) (n : ℕ) → marks_in others declared.new.postfixes.marks.entries n ≡ postfix_after (marks_in others declared.old.postfixes.marks.entries) op (class_of op.kind) n) }
{
    match op.kind {
        Kind::Fx => {}
        Kind::Fy => {}
        Kind::Xf => {
            declared.postfixes.put(op.name, op.priority > 0)?;
        }
        Kind::Yf => {
            declared.postfixes.put(op.name, op.priority > 0)?;
        }
        Kind::Xfx => {
            declared.infixes.put(op.name, op.priority > 0)?;
        }
        Kind::Xfy => {
            declared.infixes.put(op.name, op.priority > 0)?;
        }
        Kind::Yfx => {
            declared.infixes.put(op.name, op.priority > 0)?;
        }
    }
    Ok(())
}

// Declares an operator, unless it is refused.
fn accept(
    names: &Names,
    standard: &[bool],
    declared: &mut Declared,
    op: OpDecl,
) -> Result<bool, NoMemory>
    ensures accepted { IfOk result (λ b. b ≡ true → (os : List Op) → accepts_by names.now (marks_in (bits standard.now) declared.new.infixes.marks.entries) (marks_in no_marks declared.new.postfixes.marks.entries) os ≡ accepts_by names.now (marks_in (bits standard.now) declared.old.infixes.marks.entries) (marks_in no_marks declared.old.postfixes.marks.entries) (op ∷ os)) }
    ensures refused { IfOk result (λ b. b ≡ false → (os : List Op) → accepts_by names.now (marks_in (bits standard.now) declared.old.infixes.marks.entries) (marks_in no_marks declared.old.postfixes.marks.entries) (op ∷ os) ≡ false) }
{
    if is_refused(names, standard, declared, op) {
        return Ok(false);
    }
    declare(declared, op)?;
    Ok(true)
}

fn accept_entry(
    names: &Names,
    standard: &[bool],
    declared: &mut Declared,
    entry: &Entry,
) -> Result<bool, NoMemory>
    ensures accepted { IfOk result (λ b. b ≡ true → (os : List Op) → accepts_by names.now (marks_in (bits standard.now) declared.new.infixes.marks.entries) (marks_in no_marks declared.new.postfixes.marks.entries) os ≡ accepts_by names.now (marks_in (bits standard.now) declared.old.infixes.marks.entries) (marks_in no_marks declared.old.postfixes.marks.entries) (cons_option (op_in entry.now) os)) }
    ensures refused { IfOk result (λ b. b ≡ false → (os : List Op) → accepts_by names.now (marks_in (bits standard.now) declared.old.infixes.marks.entries) (marks_in no_marks declared.old.postfixes.marks.entries) (cons_option (op_in entry.now) os) ≡ false) }
{
    match &entry.what {
        What::Operator(op) => accept(names, standard, declared, *op),
        _ => Ok(true),
    }
}

fn new_declared(alloc: Global) -> Declared
    ensures infixes { (others : Marks) (n : ℕ) → marks_in others result.infixes.marks.entries n ≡ others n }
    ensures postfixes { (others : Marks) (n : ℕ) → marks_in others result.postfixes.marks.entries n ≡ others n }
{
    Declared {
        infixes: MarkMap::new(alloc),
        postfixes: MarkMap::new(alloc),
    }
}

fn accepts(
    alloc: Global,
    names: &Names,
    standard: &[bool],
    ops: &[OpDecl],
) -> Result<bool, NoMemory>
    ensures { IfOk result (λ b. b ≡ accepted_by names.now (bits standard.now) ops.now) }
{
    let mut declared = new_declared(alloc);
    for op in ops {
        if !accept(names, standard, &mut declared, *op)? {
            return Ok(false);
        }
    }
    Ok(true)
}

fn accepts_entries(
    alloc: Global,
    names: &Names,
    standard: &[bool],
    entries: &[Entry],
) -> Result<bool, NoMemory>
    ensures { IfOk result (λ b. b ≡ accepted_by names.now (bits standard.now) (filter_map op_in entries.now)) }
{
    let mut declared = new_declared(alloc);
    for entry in entries {
        if !accept_entry(names, standard, &mut declared, entry)? {
            return Ok(false);
        }
    }
    Ok(true)
}

fn interface_accepted(
    alloc: Global,
    names: &Names,
    standard: &[bool],
    section: &Section,
) -> Result<bool, NoMemory>
    ensures { IfOk result (λ b. b ≡ interface_accepted names.now (bits standard.now) section.now) }
{
    if !is_interface(section.kind) {
        return Ok(true);
    }
    accepts_entries(alloc, names, standard, section.entries.as_slice())
}

fn need_accepted(
    alloc: Global,
    names: &Names,
    standard: &[bool],
    need: &Need,
) -> Result<bool, NoMemory>
    ensures { IfOk result (λ b. b ≡ need_accepted names.now (bits standard.now) need.now) }
{
    accepts(alloc, names, standard, need.ops.as_slice())
}

fn interfaces_accepted(
    alloc: Global,
    names: &Names,
    standard: &[bool],
    sections: &[Section],
) -> Result<bool, NoMemory>
    ensures { IfOk result (λ b. b ≡ list_all (interface_accepted names.now (bits standard.now)) sections.now) }
{
    for section in sections {
        if !interface_accepted(alloc, names, standard, section)? {
            return Ok(false);
        }
    }
    Ok(true)
}

fn needs_accepted(
    alloc: Global,
    names: &Names,
    standard: &[bool],
    needs: &[Need],
) -> Result<bool, NoMemory>
    ensures { IfOk result (λ b. b ≡ list_all (need_accepted names.now (bits standard.now)) needs.now) }
{
    for need in needs {
        if !need_accepted(alloc, names, standard, need)? {
            return Ok(false);
        }
    }
    Ok(true)
}

fn infixes_of(alloc: Global, names: &Names, table: &OpTable) -> Result<Vec<bool>, NoMemory>
    ensures { IfOk result (λ v. v.items ≡ map (λ s. is_some (operator table.now infix_class s)) names.now) }
{
    let mut infixes = Vec::new(alloc);
    for place in 0..names.len() {
        infixes.push(is_infix(table, names.text(NameId(place))))?;
    }
    Ok(infixes)
}

fn is_infix(table: &OpTable, text: &[u8]) -> bool
    ensures { result ≡ is_some (operator table.now infix_class text.now) }
{
    table.infix(text).is_some()
}

// For each name whether it is a standard infix operator.
fn standard_infixes(alloc: Global, names: &Names) -> Result<Vec<bool>, NoMemory>
    ensures { IfOk result (λ v. v.items ≡ standard_infixes names.now) }
{
    let table = OpTable::standard(alloc)?;
    infixes_of(alloc, names, &table)
}

/// Whether a standard table accepts the operators of each interface, and those of each need, in their order.
pub fn are_operators_accepted(alloc: Global, names: &Names, facts: &Facts) -> Result<bool, NoMemory>
    ensures { IfOk result (λ b. b ≡ operators_by names.now (bits (standard_infixes names.now)) facts.now) }
{
    let standard = standard_infixes(alloc, names)?;
    if !interfaces_accepted(alloc, names, standard.as_slice(), facts.sections.as_slice())? {
        return Ok(false);
    }
    needs_accepted(alloc, names, standard.as_slice(), facts.needs.as_slice())
}
