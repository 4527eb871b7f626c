//! The first link fault.
ghost use Rattle.std.specs.Prelude.{◌≡◌, ◌++◌, List, map, IfOk, OnOk};
ghost use Rattle.std.specs.Option.{option_map};
ghost use Rattle.unit_model.specs.Facts.{Facts};
ghost use Rattle.unit_model.specs.Directives.{Text};
ghost use Rattle.unit_format.specs.Views.{unit_facts};
ghost use Rattle.link_model.specs.Faults.{first_link};
ghost use Rattle.mod_visible.specs.Visibility.{IsVisibility};
ghost use Rattle.mod_faults.specs.Views.{fault_view, faults_view};
ghost use Rattle.mod_faults.specs.Firsts.{first_clash};

use crate::bodies::Defined;
use crate::fault::Fault;
use crate::interfaces::repeated;
use crate::least::least;
use crate::missing::missing;
use crate::needs::unmet;
use crate::split::split;
use mod_visible::{Visibility, flattened};
use pl_atoms::NoMemory;
use std::alloc::Global;
use unit_format::Unit;

/// The least link fault of units, by unit, then byte, then number; their visibility is given. None exactly where they have none.
/// Time and memory are in proportion to the units.
pub fn first_fault(
    alloc: Global,
    units: &[Unit],
    visibility: &Visibility,
) -> Result<Option<Fault>, NoMemory>
    requires { IsVisibility (map unit_facts units.now) visibility.now }
    ensures { IfOk result (λ f. option_map fault_view f ≡ first_link (map unit_facts units.now)) }
{
    let flat = flattened(alloc, units)?;
    let entries = flat.entries.as_slice();
    let defined = Defined::of(alloc, entries)?;
    let mut faults = Vec::new(alloc);
    unmet(alloc, units, &mut faults)?;
    repeated(alloc, units, &mut faults)?;
    missing(&flat, &defined, visibility, &mut faults)?;
    clash(visibility, &mut faults)?;
    split(alloc, entries, &mut faults)?;
    Ok(least(faults.as_slice()))
}

// Puts a fault last at the first place where definers clash, if there is one.
fn clash(visibility: &Visibility, out: &mut Vec<Fault>) -> Result<(), NoMemory>
    ensures { OnOk result ((units : List (Facts Text)) → IsVisibility units visibility.now → faults_view out.new.items ≡ faults_view out.old.items ++ first_clash units) }
{
    if let Some(clash) = visibility.clash(0) {
        out.push(Fault {
            number: 7,
            unit: clash.unit,
            byte: clash.byte,
        })?;
    }
    Ok(())
}
