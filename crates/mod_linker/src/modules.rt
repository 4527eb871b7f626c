//! The modules of a linked program.
ghost use Rattle.std.specs.Prelude.{◌≡◌, ◌<◌, ◌∷◌, length, map, true, codes, OnOk};
ghost use Rattle.std.specs.List.{AllByRecursion, list_any, flat_map};
ghost use Rattle.pl_atoms.specs.Names.{same_text};
ghost use Rattle.unit_model.specs.Encoding.{text_at};
ghost use Rattle.unit_format.specs.Views.{unit_facts};
ghost use Rattle.mod_linker.specs.Modules.{module_texts, section_texts, AddsModules};

use pl_atoms::{Names, NoMemory};
use pl_store::Program;
use unit_format::Unit;
use unit_model::{Section, SectionKind};

/// Adds `user` and each module that has an interface.
pub fn add_modules(units: &[Unit], program: &mut Program) -> Result<(), NoMemory>
    requires user { list_any (same_text (codes "user")) program.old.names ≡ true }
    requires named { AllByRecursion (λ u. AllByRecursion (λ t. list_any (same_text t) program.old.names ≡ true) u.names) units.now }
    ensures { OnOk result (AddsModules (codes "user" ∷ flat_map module_texts (map unit_facts units.now)) program.old program.new) }
{
    program.add_module(b"user")?;
    for unit in units {
        add_interfaces(unit, program)?;
    }
    Ok(())
}

fn add_interfaces(unit: &Unit, program: &mut Program) -> Result<(), NoMemory>
    requires { AllByRecursion (λ t. list_any (same_text t) program.old.names ≡ true) unit.now.names }
    ensures { OnOk result (AddsModules (module_texts (unit_facts unit.now)) program.old program.new) }
{
    for section in unit.facts.sections.as_slice() {
        add_interface(&unit.names, section, program)?;
    }
    Ok(())
}

// Adds the module of a section that is an interface.
fn add_interface(names: &Names, section: &Section, program: &mut Program) -> Result<(), NoMemory>
    requires name { section.now.module.0 < length names.now }
    requires known { list_any (same_text (text_at names.now section.now.module.0)) program.old.names ≡ true }
    ensures { OnOk result (AddsModules (section_texts (text_at names.now) section.now) program.old program.new) }
{
    match section.kind {
        SectionKind::Body => Ok(()),
        SectionKind::Interface => {
            program.add_module(names.text(section.module))?;
            Ok(())
        }
    }
}
