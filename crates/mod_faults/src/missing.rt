//! What isn't there: exported or with modes but not defined, imported or re-exported but not given.
ghost use Rattle.std.specs.Prelude.{◌≡◌, ◌<◌, ◌++◌, List, Some, None, length, OnOk, if◌then◌else◌};
ghost use Rattle.std.specs.List.{AllByRecursion};
ghost use Rattle.unit_model.specs.Facts.{Facts};
ghost use Rattle.unit_model.specs.Directives.{Text};
ghost use Rattle.unit_model.specs.Encoding.{text_at};
ghost use Rattle.mod_visible.specs.Causing.{ind_text};
ghost use Rattle.mod_visible.specs.Placing.{IsBelow, placed_view, places_view, IsFlat};
ghost use Rattle.mod_visible.specs.Visibility.{IsVisibility};
ghost use Rattle.link_model.specs.Places.{places_of};
ghost use Rattle.link_model.specs.Giving.{gives_some};
ghost use Rattle.mod_faults.specs.Views.{faults_view};
ghost use Rattle.mod_faults.specs.Bodies.{AreDefined};
ghost use Rattle.mod_faults.specs.Missing.{number_of, missings};

use crate::bodies::{Defined, Procedure};
use crate::fault::Fault;
use mod_visible::{Flat, Placed, Role, Visibility};
use pl_atoms::{NameId, Names, NoMemory};
use unit_model::Ind;

/// Puts a fault last for each entry that asks for a procedure that isn't there.
pub fn missing(
    flat: &Flat,
    defined: &Defined,
    visibility: &Visibility,
    out: &mut Vec<Fault>,
) -> Result<(), NoMemory>
    requires { AllByRecursion (IsBelow (length flat.now.names)) (places_view flat.now.entries.items) }
    ensures { OnOk result ((units : List (Facts Text)) → IsFlat flat.now.names flat.now.entries.items units → IsVisibility units visibility.now → AreDefined flat.now.names (places_of 0 units) defined.now.procedures.keys → faults_view out.new.items ≡ faults_view out.old.items ++ missings (places_of 0 units)) }
{
    for entry in flat.entries.as_slice() {
        if let Some(number) = number_of(entry, &flat.names, defined, visibility) {
            out.push(Fault {
                number,
                unit: entry.unit,
                byte: entry.byte,
            })?;
        }
    }
    Ok(())
}

// The number of the fault of an entry.
fn number_of(
    entry: &Placed,
    names: &Names,
    defined: &Defined,
    visibility: &Visibility,
) -> Option<u8>
    requires { IsBelow (length names.now) (placed_view entry.now) }
    ensures { (units : List (Facts Text)) → IsVisibility units visibility.now → result ≡ number_of names.now defined.now.procedures.keys (places_of 0 units) entry.now }
{
    match entry.role {
        Role::Exporting(ind) => unless(defined.has(Procedure::of(entry.module, ind)), 4),
        Role::Moding(ind) => unless(defined.has(Procedure::of(entry.module, ind)), 5),
        Role::Reexporting(from, ind) => unless(is_given(from, ind, names, visibility), 6),
        Role::Importing(from, ind) => unless(is_given(from, ind, names, visibility), 6),
        _ => None,
    }
}

fn unless(is_there: bool, number: u8) -> Option<u8>
    ensures { result ≡ (if is_there then None else Some number) }
{
    if is_there { None } else { Some(number) }
}

fn is_given(from: NameId, ind: Ind, names: &Names, visibility: &Visibility) -> bool
    requires from { from.0 < length names.now }
    requires name { ind.name.0 < length names.now }
    ensures { (units : List (Facts Text)) → IsVisibility units visibility.now → result ≡ gives_some (places_of 0 units) (text_at names.now from.0) (ind_text names.now ind.name.0 ind.arity) }
{
    visibility.gives(names.text(from), names.text(ind.name), ind.arity)
}
