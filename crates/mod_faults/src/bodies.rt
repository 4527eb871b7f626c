//! Procedures that bodies define.
ghost use Rattle.std.specs.Prelude.{◌≡◌, List, [], OnOk, IfOk};
ghost use Rattle.std.specs.List.{list_any};
ghost use Rattle.indexmap.specs.IndexSet.{insert_key};
ghost use Rattle.unit_model.specs.Directives.{Text};
ghost use Rattle.mod_visible.specs.Causing.{IsTable, entry_texts};
ghost use Rattle.mod_faults.specs.Bodies as bodies;
ghost use Rattle.mod_faults.specs.Bodies.{same_procedure, procedures_after, AreDefined};

use indexmap::IndexSet;
use mod_visible::{Placed, Role};
use pl_atoms::{NameId, NoMemory};
use std::alloc::Global;
use unit_model::Ind;

/// A procedure of a module, by the numbers of their names.
#[derive(Clone, Copy, Debug, PartialEq, Eq, Hash)]
pub struct Procedure {
    pub home: usize,
    pub name: usize,
    pub arity: u8,
}

impl Procedure {
    /// The procedure of this module with this indicator.
    pub fn of(home: NameId, ind: Ind) -> Procedure
        ensures { result ≡ bodies.procedure home ind }
    {
        Procedure {
            home: home.0,
            name: ind.name.0,
            arity: ind.arity,
        }
    }
}

/// Procedures that are defined.
#[derive(Drop)]
pub struct Defined {
    pub procedures: IndexSet<Procedure>,
}

impl Defined {
    /// No procedures.
    pub fn new(alloc: Global) -> Defined
        ensures { result.procedures.keys ≡ [] }
    {
        Defined {
            procedures: IndexSet::new(alloc),
        }
    }

    /// The procedures that these entries define.
    pub fn of(alloc: Global, entries: &[Placed]) -> Result<Defined, NoMemory>
        ensures { IfOk result (λ d. (names : List Text) → IsTable names entries.now → AreDefined names (entry_texts names entries.now) d.procedures.keys) }
    {
        let mut defined = Defined::new(alloc);
        for entry in entries {
            defined.add_entry(entry)?;
        }
        Ok(defined)
    }

    fn add_entry(&mut self, entry: &Placed) -> Result<(), NoMemory>
        ensures { OnOk result (self.new.procedures.keys ≡ procedures_after self.old.procedures.keys entry.now) }
    {
        match entry.role {
            Role::Defining(ind) => self.add(Procedure::of(entry.module, ind)),
            _ => Ok(()),
        }
    }

    /// Adds a procedure, unless it is there.
    pub fn add(&mut self, procedure: Procedure) -> Result<(), NoMemory>
        ensures { OnOk result (self.new.procedures.keys ≡ insert_key same_procedure self.old.procedures.keys procedure) }
    {
        self.procedures.insert(procedure)?;
        Ok(())
    }

    /// Whether a procedure is there.
    pub fn has(&self, procedure: Procedure) -> bool
        ensures { result ≡ list_any (same_procedure procedure) self.now.procedures.keys }
    {
        self.procedures.contains(&procedure)
    }
}
