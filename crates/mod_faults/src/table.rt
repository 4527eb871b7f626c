//! One table for the names of all units.
ghost use Rattle.std.specs.Prelude.{map, IfOk};
ghost use Rattle.pl_atoms.specs.Names.{AreDistinct};
ghost use Rattle.mod_faults.specs.Tables.{AreTaken};

use pl_atoms::{Names, NoMemory, Remap};
use std::alloc::Global;
use unit_format::Unit;

/// The names of units in one table, and what the numbers of each unit are in it.
#[derive(Drop)]
pub struct Table {
    pub names: Names,
    pub remaps: Vec<Remap>,
}

impl Table {
    /// The names of all units.
    pub fn of(alloc: Global, units: &[Unit]) -> Result<Table, NoMemory>
        ensures taken { IfOk result (λ t. AreTaken (map (λ u. u.names) units.now) t.names t.remaps.items) }
        ensures distinct { IfOk result (λ t. AreDistinct t.names) }
    {
        let mut names = Names::new(alloc);
        let mut remaps = Vec::new(alloc);
        for unit in units {
            let remap = Remap::of(alloc, &unit.names, &mut names)?;
            remaps.push(remap)?;
        }
        let _ = names.len();
        Ok(Table { names, remaps })
    }
}
