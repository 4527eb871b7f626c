//! Linking.
ghost use Rattle.std.specs.Prelude.{◌≡◌, None, map, codes, true, IfOk, IfErr};
ghost use Rattle.pl_atoms.specs.Names.{AreDistinct};
ghost use Rattle.unit_format.specs.Views.{unit_facts};
ghost use Rattle.link_model.specs.Faults.{first_link};
ghost use Rattle.mod_faults.specs.Tables.{AreTaken};
ghost use Rattle.mod_visible.specs.Visibility.{IsVisibility};
ghost use Rattle.mod_linker.specs.Holding.{HasEntries};
ghost use Rattle.mod_linker.specs.Linking.{is_among, IsFirst, IsLinkOf};

use crate::declared::Declared;
use crate::entering::Linker;
use crate::fault::LinkFault;
use crate::items::items_of;
use crate::known::Known;
use crate::modules::add_modules;
use crate::naming::named;
use crate::seeing::see_all;
use mod_faults::{Table, first_fault};
use mod_visible::Visibility;
use pl_atoms::{NoMemory, Remap};
use pl_store::Program;
use std::alloc::Global;
use unit_format::Unit;

/// Links units (ISO/IEC 13211-2, 6.1 and 6.2). `Fault` exactly where they have a link fault: the first one, by unit, then byte, then
/// number. Time and memory are in proportion to the units and to what is visible.
pub fn link(alloc: Global, units: &[Unit]) -> Result<Program, LinkFault>
    ensures fault { IfErr result (IsFirst (first_link (map unit_facts units.now))) }
    ensures none { IfOk result (λ _. first_link (map unit_facts units.now) ≡ None) }
    ensures program { IfOk result (λ p. IsLinkOf (map unit_facts units.now) p) }
{
    let visibility = Visibility::of(alloc, units)?;
    if let Some(fault) = first_fault(alloc, units, &visibility)? {
        return Err(LinkFault::Fault {
            number: fault.number,
            unit: fault.unit,
            byte: fault.byte,
        });
    }
    let program = linked(alloc, units, &visibility)?;
    Ok(program)
}

// The program of units without link faults.
fn linked(alloc: Global, units: &[Unit], visibility: &Visibility) -> Result<Program, NoMemory>
    requires visibility { IsVisibility (map unit_facts units.now) visibility.now }
    requires none { first_link (map unit_facts units.now) ≡ None }
    ensures { IfOk result (λ p. IsLinkOf (map unit_facts units.now) p) }
{
    let mut table = Table::of(alloc, units)?;
    let remap = Remap::of(alloc, visibility.names(), &mut table.names)?;
    table.names.intern(b"user")?;
    let _ = table.names.len();
    let mut linker = entered(alloc, units, &table)?;
    let rows = visibility.rows(alloc)?;
    see_all(&mut linker.program, &linker.known, rows.as_slice(), &remap)?;
    let _ = linker.program.names();
    Ok(linker.program)
}

// The program of the modules, clauses and modes of units without link faults, where nothing is visible yet.
fn entered(alloc: Global, units: &[Unit], table: &Table) -> Result<Linker, NoMemory>
    requires taken { AreTaken (map (λ u. u.names) units.now) table.now.names table.now.remaps.items }
    requires distinct { AreDistinct table.now.names }
    requires user { is_among table.now.names (codes "user") ≡ true }
    requires none { first_link (map unit_facts units.now) ≡ None }
    ensures { IfOk result (λ l. HasEntries (map unit_facts units.now) table.now.names l.program l.known.numbers.entries) }
{
    let mut program = named(alloc, &table.names)?;
    add_modules(units, &mut program)?;
    let items = items_of(alloc, units, table)?;
    let entries = items.as_slice();
    let declared = Declared::of(alloc, entries)?;
    let mut linker = Linker {
        program,
        known: Known::new(alloc),
    };
    linker.enter_all(alloc, entries, &declared)?;
    Ok(linker)
}
