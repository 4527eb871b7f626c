//! Needs that no earlier unit meets.
ghost use Rattle.std.specs.Prelude.{◌≡◌, ◌<◌, [], ◌∷◌, ◌++◌, length, map, slice_index, IfOk, OnOk, fold};
ghost use Rattle.std.specs.List.{AllByRecursion, list_any, filter_map, flat_map};
ghost use Rattle.indexmap.specs.IndexSet.{insert_key};
ghost use Rattle.pl_atoms.specs.Names.{AreDistinct, Remaps};
ghost use Rattle.unit_model.specs.Encoding.{kind_byte};
ghost use Rattle.unit_model.specs.Facts.{operator_by};
ghost use Rattle.unit_model.specs.Directives.{Text};
ghost use Rattle.unit_model.specs.Views.{op_view};
ghost use Rattle.unit_format.specs.Rules.{op_in};
ghost use Rattle.unit_format.specs.Uses.{op_uses, need_uses, section_uses};
ghost use Rattle.unit_format.specs.Views.{unit_facts};
ghost use Rattle.mod_visible.specs.Placing.{AllBelow};
ghost use Rattle.link_model.specs.Faults.{unmet};
ghost use Rattle.mod_faults.specs.Views.{faults_view};
ghost use Rattle.mod_faults.specs.Needing.{mark, same_stamp, stamp_by, marks_by, stamps_in, unmet_by, learned};

use crate::fault::Fault;
use crate::table::Table;
use indexmap::IndexSet;
use pl_atoms::{NameId, NoMemory, Remap};
use pl_ops::Kind;
use std::alloc::Global;
use unit_format::Unit;
use unit_model::{Entry, Need, OpDecl, Section, SectionKind, What};

/// An operator, or a module, whose priority and kind are then 0.
#[derive(Clone, Copy, Debug, PartialEq, Eq, Hash)]
pub struct Mark {
    pub priority: u16,
    pub kind: u8,
    pub name: usize,
}

// A module and then the operators of its interface.
#[derive(Drop)]
struct Stamp {
    marks: Vec<Mark>,
}

impl Stamp {
    // Of a module, without operators.
    fn of(alloc: Global, home: NameId, remap: &Remap) -> Result<Stamp, NoMemory>
        requires { home.0 < length remap.now }
        ensures { IfOk result (λ s. s.marks.items ≡ stamp_by (slice_index remap.now) home.0 []) }
    {
        let mut marks = Vec::new(alloc);
        marks.push(Mark {
            priority: 0,
            kind: 0,
            name: remap.get(home).0,
        })?;
        Ok(Stamp { marks })
    }

    fn add(&mut self, op: &OpDecl, remap: &Remap) -> Result<(), NoMemory>
        requires { op.now.name.0 < length remap.now }
        ensures { OnOk result (self.new.marks.items ≡ self.old.marks.items ++ mark (operator_by (slice_index remap.now) (op_view op.now)) ∷ []) }
    {
        self.marks.push(Mark {
            priority: op.priority,
            kind: kind_byte(op.kind),
            name: remap.get(op.name).0,
        })?;
        Ok(())
    }

    fn of_need(alloc: Global, need: &Need, remap: &Remap) -> Result<Stamp, NoMemory>
        requires { AllBelow (length remap.now) (need_uses need.now) }
        ensures { IfOk result (λ s. s.marks.items ≡ stamp_by (slice_index remap.now) need.now.module.0 need.now.ops) }
    {
        let mut stamp = Stamp::of(alloc, need.module, remap)?;
        for op in need.ops.as_slice() {
            stamp.add(op, remap)?;
        }
        Ok(stamp)
    }

    fn of_section(alloc: Global, section: &Section, remap: &Remap) -> Result<Stamp, NoMemory>
        requires { AllBelow (length remap.now) (section_uses section.now) }
        ensures { IfOk result (λ s. s.marks.items ≡ stamp_by (slice_index remap.now) section.now.module.0 (filter_map op_in section.now.entries)) }
    {
        let mut stamp = Stamp::of(alloc, section.module, remap)?;
        for entry in section.entries.as_slice() {
            stamp.add_entry(entry, remap)?;
        }
        Ok(stamp)
    }

    fn add_entry(&mut self, entry: &Entry, remap: &Remap) -> Result<(), NoMemory>
        requires { AllByRecursion (λ o. o.name.0 < length remap.now) (filter_map op_in (entry.now ∷ [])) }
        ensures { OnOk result (self.new.marks.items ≡ self.old.marks.items ++ marks_by (slice_index remap.now) (filter_map op_in (entry.now ∷ []))) }
    {
        match &entry.what {
            What::Operator(op) => self.add(op, remap),
            _ => Ok(()),
        }
    }
}

// The number of a kind.
fn kind_byte(kind: Kind) -> u8
    ensures { result ≡ kind_byte kind }
{
    match kind {
        Kind::Xfx => 1,
        Kind::Xfy => 2,
        Kind::Yfx => 3,
        Kind::Fx => 4,
        Kind::Fy => 5,
        Kind::Xf => 6,
        Kind::Yf => 7,
    }
}

// The stamps of the interfaces that are known.
#[derive(Drop)]
struct Stamps {
    all: IndexSet<Vec<Mark>>,
}

impl Stamps {
    fn new(alloc: Global) -> Stamps
        ensures { result.all.keys ≡ [] }
    {
        Stamps {
            all: IndexSet::new(alloc),
        }
    }

    fn has(&self, stamp: &Stamp) -> bool
        ensures { result ≡ list_any (same_stamp stamp.now.marks.items) (stamps_in self.now.all.keys) }
    {
        self.all.contains(&stamp.marks)
    }

    fn add(&mut self, stamp: Stamp) -> Result<(), NoMemory>
        ensures { OnOk result (stamps_in self.new.all.keys ≡ insert_key same_stamp (stamps_in self.old.all.keys) stamp.marks.items) }
    {
        self.all.insert(stamp.marks)?;
        Ok(())
    }
}

/// Puts a fault last for each need that no earlier unit meets.
pub fn unmet(alloc: Global, units: &[Unit], out: &mut Vec<Fault>) -> Result<(), NoMemory>
    ensures { OnOk result (faults_view out.new.items ≡ faults_view out.old.items ++ unmet (map unit_facts units.now)) }
{
    let table = Table::of(alloc, units)?;
    let mut stamps = Stamps::new(alloc);
    for (number, unit) in units.iter().enumerate() {
        let remap = &table.remaps[number];
        let needs = unit.facts.needs.as_slice();
        check_needs(alloc, number, needs, remap, &stamps, out)?;
        learn(alloc, unit.facts.sections.as_slice(), remap, &mut stamps)?;
    }
    Ok(())
}

fn check_needs(
    alloc: Global,
    unit: usize,
    needs: &[Need],
    remap: &Remap,
    stamps: &Stamps,
    out: &mut Vec<Fault>,
) -> Result<(), NoMemory>
    requires { AllByRecursion (λ n. AllBelow (length remap.now) (need_uses n)) needs.now }
    ensures { OnOk result (out.new.items ≡ out.old.items ++ flat_map (unmet_by unit (slice_index remap.now) (stamps_in stamps.now.all.keys)) needs.now) }
{
    for need in needs {
        check_need(alloc, unit, need, remap, stamps, out)?;
    }
    Ok(())
}

fn check_need(
    alloc: Global,
    unit: usize,
    need: &Need,
    remap: &Remap,
    stamps: &Stamps,
    out: &mut Vec<Fault>,
) -> Result<(), NoMemory>
    requires { AllBelow (length remap.now) (need_uses need.now) }
    ensures { OnOk result (out.new.items ≡ out.old.items ++ unmet_by unit (slice_index remap.now) (stamps_in stamps.now.all.keys) need.now) }
{
    let stamp = Stamp::of_need(alloc, need, remap)?;
    if !stamps.has(&stamp) {
        out.push(Fault {
            number: 2,
            unit,
            byte: need.byte,
        })?;
    }
    Ok(())
}

// Takes the interfaces among these sections down.
fn learn(
    alloc: Global,
    sections: &[Section],
    remap: &Remap,
    stamps: &mut Stamps,
) -> Result<(), NoMemory>
    requires { AllByRecursion (λ s. AllBelow (length remap.now) (section_uses s)) sections.now }
    ensures { OnOk result (stamps_in stamps.new.all.keys ≡ fold (learned (slice_index remap.now)) (stamps_in stamps.old.all.keys) sections.now) }
{
    for section in sections {
        learn_section(alloc, section, remap, stamps)?;
    }
    Ok(())
}

fn learn_section(
    alloc: Global,
    section: &Section,
    remap: &Remap,
    stamps: &mut Stamps,
) -> Result<(), NoMemory>
    requires { AllBelow (length remap.now) (section_uses section.now) }
    ensures { OnOk result (stamps_in stamps.new.all.keys ≡ learned (slice_index remap.now) (stamps_in stamps.old.all.keys) section.now) }
{
    match section.kind {
        SectionKind::Body => Ok(()),
        SectionKind::Interface => {
            let stamp = Stamp::of_section(alloc, section, remap)?;
            stamps.add(stamp)
        }
    }
}
