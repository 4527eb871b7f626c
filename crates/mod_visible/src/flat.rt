//! The entries of all units over one table of names.
ghost use Rattle.std.specs.Prelude.{◌≡◌, ◌<◌, ◌++◌, length, map, slice_index, IfOk, OnOk};
ghost use Rattle.std.specs.List.{AllByRecursion};
ghost use Rattle.pl_terms.specs.Trees.{renamed};
ghost use Rattle.unit_model.specs.Facts.{tree_names, indicator_by, what_by, entry_by, section_by};
ghost use Rattle.unit_model.specs.Views.{ind_view, what_view, entries_view, section_view};
ghost use Rattle.unit_format.specs.Uses.{what_uses};
ghost use Rattle.unit_format.specs.Views.{unit_facts};
ghost use Rattle.link_model.specs.Places as places;
ghost use Rattle.mod_visible.specs.Placing.{role_view, places_view, begun_by, AllBelow, BeginsBelow, ModesFit, EntryFits, SectionFits, IsFlat};

use crate::placed::{Placed, Role};
use pl_atoms::{NameId, Names, NoMemory, Remap};
use pl_terms::{Cell, Term};
use std::alloc::Global;
use unit_format::Unit;
use unit_model::{Entry, Ind, Section, What};

/// The entries of units in the order of units, sections and entries, over one table of names.
#[derive(Drop)]
pub struct Flat {
    pub names: Names,
    pub entries: Vec<Placed>,
}

/// Takes the entries of all units, whose names may have other numbers in each.
pub fn flattened(alloc: Global, units: &[Unit]) -> Result<Flat, NoMemory>
    ensures { IfOk result (λ f. IsFlat f.names f.entries.items (map unit_facts units.now)) }
{
    let mut names = Names::new(alloc);
    let mut entries = Vec::new(alloc);
    for (number, unit) in units.iter().enumerate() {
        let remap = Remap::of(alloc, &unit.names, &mut names)?;
        push_sections(&mut entries, number, unit.facts.sections.as_slice(), &remap)?;
    }
    Ok(Flat { names, entries })
}

fn push_sections(
    entries: &mut Vec<Placed>,
    unit: usize,
    sections: &[Section],
    remap: &Remap,
) -> Result<(), NoMemory>
    requires { AllByRecursion (SectionFits (length remap.now)) sections.now }
    ensures { OnOk result (places_view entries.new.items ≡ places_view entries.old.items ++ places.places_from unit 0 (map (section_by (slice_index remap.now)) (map section_view sections.now))) }
{
    for (number, section) in sections.iter().enumerate() {
        let home = remap.get(section.module);
        push_entries(
            entries,
            unit,
            number,
            home,
            section.entries.as_slice(),
            remap,
        )?;
    }
    Ok(())
}

fn push_entries(
    out: &mut Vec<Placed>,
    unit: usize,
    section: usize,
    home: NameId,
    entries: &[Entry],
    remap: &Remap,
) -> Result<(), NoMemory>
    requires { AllByRecursion (EntryFits (length remap.now)) entries.now }
    ensures { OnOk result (places_view out.new.items ≡ places_view out.old.items ++ map (places.place_of unit section home.0) (map (entry_by (slice_index remap.now)) (entries_view entries.now))) }
{
    for entry in entries {
        let role = role_of(&entry.what, remap);
        out.push(Placed {
            unit,
            section,
            byte: entry.byte,
            module: home,
            role,
        })?;
    }
    Ok(())
}

fn role_of(what: &What, remap: &Remap) -> Role
    requires names { AllBelow (length remap.now) (what_uses what.now) }
    requires modes { ModesFit what.now }
    ensures { role_view result ≡ places.role_of (what_by (slice_index remap.now) (what_view what.now)) }
{
    match what {
        What::Export(ind) => Role::Exporting(renamed(*ind, remap)),
        What::ReexportAll(module) => Role::ReexportingAll(remap.get(*module)),
        What::Reexport(module, ind) => Role::Reexporting(remap.get(*module), renamed(*ind, remap)),
        What::Meta(name, modes) => Role::Moding(Ind {
            name: remap.get(*name),
            arity: modes.as_slice().len() as u8,
        }),
        What::Operator(_) => Role::Idle,
        What::ImportAll(module) => Role::ImportingAll(remap.get(*module)),
        What::Import(module, ind) => Role::Importing(remap.get(*module), renamed(*ind, remap)),
        What::Clause(_, head, _) => defined_by(head, remap),
    }
}

fn renamed(ind: Ind, remap: &Remap) -> Ind
    requires { ind.name.0 < length remap.now }
    ensures { ind_view result ≡ indicator_by (slice_index remap.now) (ind_view ind) }
{
    Ind {
        name: remap.get(ind.name),
        arity: ind.arity,
    }
}

// The procedure of a head.
fn defined_by(head: &Term, remap: &Remap) -> Role
    requires { AllBelow (length remap.now) (tree_names head.now) }
    ensures { role_view result ≡ places.defined_by (renamed (slice_index remap.now) head.now) }
{
    begun_by(head.cells(), remap)
}

// The procedure of a head that begins with these cells.
fn begun_by(cells: &[Cell], remap: &Remap) -> Role
    requires { BeginsBelow (length remap.now) cells.now }
    ensures { role_view result ≡ begun_by (slice_index remap.now) cells.now }
{
    match cells {
        [Cell::Name(name), ..] => Role::Defining(Ind {
            name: remap.get(*name),
            arity: 0,
        }),
        [Cell::Comp(name, arity), ..] => Role::Defining(Ind {
            name: remap.get(*name),
            arity: *arity,
        }),
        _ => Role::Idle,
    }
}
