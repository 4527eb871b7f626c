//! Which modules exist.
ghost use Rattle.std.specs.Prelude.{◌≡◌, ◌<◌, [], ◌∷◌, length, map, IfOk, OnOk};
ghost use Rattle.std.specs.List.{AllByRecursion};
ghost use Rattle.pl_atoms.specs.Names.{with_texts};
ghost use Rattle.unit_format.specs.Views.{unit_facts};
ghost use Rattle.mod_visible.specs.Placing.{SectionFits};
ghost use Rattle.mod_visible.specs.Existing.{interface_name, interface_names};
ghost use Rattle.mod_visible.specs.Visibility.{AreModules};

use pl_atoms::{Names, NoMemory};
use std::alloc::Global;
use unit_format::Unit;
use unit_model::{Section, SectionKind};

/// The modules that exist: `user`, `system`, and each that has an interface in these units.
pub fn existing(alloc: Global, units: &[Unit]) -> Result<Names, NoMemory>
    ensures { IfOk result (λ ms. AreModules (map unit_facts units.now) ms) }
{
    let mut modules = Names::new(alloc);
    modules.intern(b"user")?;
    modules.intern(b"system")?;
    for unit in units {
        add_interfaces(&unit.names, unit.facts.sections.as_slice(), &mut modules)?;
    }
    Ok(modules)
}

fn add_interfaces(names: &Names, sections: &[Section], modules: &mut Names) -> Result<(), NoMemory>
    requires { AllByRecursion (SectionFits (length names.now)) sections.now }
    ensures { OnOk result (modules.new ≡ with_texts modules.old (interface_names names.now sections.now)) }
{
    for section in sections {
        add_interface(names, section, modules)?;
    }
    Ok(())
}

fn add_interface(names: &Names, section: &Section, modules: &mut Names) -> Result<(), NoMemory>
    requires { section.now.module.0 < length names.now }
    ensures { OnOk result (modules.new ≡ with_texts modules.old (interface_name names.now section.now)) }
{
    match section.kind {
        SectionKind::Interface => {
            modules.intern(names.text(section.module))?;
            Ok(())
        }
        SectionKind::Body => Ok(()),
    }
}
