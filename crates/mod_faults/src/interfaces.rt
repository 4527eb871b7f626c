//! Interfaces of modules that have one earlier.
ghost use Rattle.std.specs.Prelude.{◌≡◌, ◌<◌, [], ◌∷◌, ◌++◌, length, map, OnOk, if◌then◌else◌};
ghost use Rattle.std.specs.List.{AllByRecursion, list_any};
ghost use Rattle.pl_atoms.specs.Names.{with_text};
ghost use Rattle.pl_ops.specs.Tables.{same_text};
ghost use Rattle.unit_format.specs.Views.{unit_facts};
ghost use Rattle.unit_format.specs.Uses.{section_uses};
ghost use Rattle.mod_visible.specs.Placing.{AllBelow};
ghost use Rattle.link_model.specs.Faults.{repeated};
ghost use Rattle.mod_faults.specs.Views.{faults_view};
ghost use Rattle.mod_faults.specs.Repeating.{interfaces_here, Repeats};

use crate::fault::Fault;
use pl_atoms::{Names, NoMemory};
use std::alloc::Global;
use unit_format::Unit;
use unit_model::{Section, SectionKind};

/// Puts a fault last for each interface of a module that has one earlier.
pub fn repeated(alloc: Global, units: &[Unit], out: &mut Vec<Fault>) -> Result<(), NoMemory>
    ensures { OnOk result (faults_view out.new.items ≡ faults_view out.old.items ++ repeated (map unit_facts units.now)) }
{
    let mut seen = Names::new(alloc);
    for (number, unit) in units.iter().enumerate() {
        let sections = unit.facts.sections.as_slice();
        repeated_in(number, &unit.names, sections, &mut seen, out)?;
    }
    Ok(())
}

fn repeated_in(
    unit: usize,
    names: &Names,
    sections: &[Section],
    seen: &mut Names,
    out: &mut Vec<Fault>,
) -> Result<(), NoMemory>
    requires { AllByRecursion (λ s. AllBelow (length names.now) (section_uses s)) sections.now }
    ensures { OnOk result (Repeats (interfaces_here unit names.now sections.now) seen.old seen.new out.old.items out.new.items) }
{
    for section in sections {
        repeated_at(unit, names, section, seen, out)?;
    }
    Ok(())
}

fn repeated_at(
    unit: usize,
    names: &Names,
    section: &Section,
    seen: &mut Names,
    out: &mut Vec<Fault>,
) -> Result<(), NoMemory>
    requires { AllBelow (length names.now) (section_uses section.now) }
    ensures { OnOk result (Repeats (interfaces_here unit names.now (section.now ∷ [])) seen.old seen.new out.old.items out.new.items) }
{
    match section.kind {
        SectionKind::Body => Ok(()),
        SectionKind::Interface => {
            note(unit, section.byte, names.text(section.module), seen, out)
        }
    }
}

// Takes an interface of this module down.
fn note(
    unit: usize,
    byte: usize,
    of: &[u8],
    seen: &mut Names,
    out: &mut Vec<Fault>,
) -> Result<(), NoMemory>
    ensures seen { OnOk result (seen.new ≡ with_text seen.old of.now) }
    ensures faults { OnOk result (out.new.items ≡ out.old.items ++ (if list_any (same_text of.now) seen.old then record { number = 3; unit = unit; byte = byte } ∷ [] else [])) }
{
    if seen.find(of).is_some() {
        let number = 3;
        out.push(Fault { number, unit, byte })?;
    }
    seen.intern(of)?;
    Ok(())
}
