//! The entries of units as one list.
ghost use Rattle.std.specs.Prelude.{◌≡◌, ◌<◌, [], ◌∷◌, ◌++◌, List, length, map, IfOk, OnOk};
ghost use Rattle.pl_atoms.specs.Names.{Remaps};
ghost use Rattle.unit_model.specs.Directives.{Text};
ghost use Rattle.unit_model.specs.Encoding.{text_at};
ghost use Rattle.unit_format.specs.Views.{unit_facts};
ghost use Rattle.program_model.specs.Saying.{said_by, said};
ghost use Rattle.mod_faults.specs.Tables.{AreTaken};
ghost use Rattle.std.specs.List.{AllByRecursion};
ghost use Rattle.mod_linker.specs.Items.{items_view, saids_of, IsSectionOf, AreItems};

use mod_faults::Table;
use pl_atoms::{NameId, NoMemory, Remap};
use std::alloc::Global;
use unit_format::Unit;
use unit_model::{Section, What};

/// An entry with its module. The names of the entry are numbers of its unit, which `remap` takes into the table of all.
#[derive(Clone, Copy)]
pub struct Item<'a> {
    pub home: NameId,
    pub remap: &'a Remap,
    pub what: &'a What,
}

/// The entries of units, in the order of units, sections and entries.
pub fn items_of<'a>(
    alloc: Global,
    units: &'a [Unit],
    table: &'a Table,
) -> Result<Vec<Item<'a>>, NoMemory>
    requires { AreTaken (map (λ u. u.names) units.now) table.now.names table.now.remaps.items }
    ensures texts { IfOk result (λ items. map (said_by (text_at table.now.names)) (items_view items.items) ≡ said (map unit_facts units.now)) }
    ensures items { IfOk result (λ items. AreItems table.now.names items.items) }
{
    let mut items = Vec::new(alloc);
    for (number, unit) in units.iter().enumerate() {
        let remap = &table.remaps[number];
        push_sections(&mut items, unit.facts.sections.as_slice(), remap)?;
    }
    Ok(items)
}

fn push_sections<'a>(
    items: &mut Vec<Item<'a>>,
    sections: &'a [Section],
    remap: &'a Remap,
) -> Result<(), NoMemory>
    requires { AllByRecursion (λ s. s.module.0 < length remap.now) sections.now }
    ensures items { OnOk result (items_view items.new.items ≡ items_view items.old.items ++ saids_of remap.now sections.now) }
    ensures good { OnOk result ((from names : List Text) → Remaps from names remap.now → AllByRecursion (IsSectionOf from) sections.now → AreItems names items.old.items → AreItems names items.new.items) }
{
    for section in sections {
        push_section(items, section, remap)?;
    }
    Ok(())
}

fn push_section<'a>(
    items: &mut Vec<Item<'a>>,
    section: &'a Section,
    remap: &'a Remap,
) -> Result<(), NoMemory>
    requires { section.now.module.0 < length remap.now }
    ensures items { OnOk result (items_view items.new.items ≡ items_view items.old.items ++ saids_of remap.now (section.now ∷ [])) }
    ensures good { OnOk result ((from names : List Text) → Remaps from names remap.now → IsSectionOf from section.now → AreItems names items.old.items → AreItems names items.new.items) }
{
    let home = remap.get(section.module);
    for entry in section.entries.as_slice() {
        items.push(Item {
            home,
            remap,
            what: &entry.what,
        })?;
    }
    Ok(())
}
