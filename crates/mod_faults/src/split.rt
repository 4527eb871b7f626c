//! Procedures with clauses in two bodies.
ghost use Rattle.std.specs.Prelude.{◌≡◌, List, [], ◌++◌, ◌∷◌, ◌&&◌, not, OnOk, if◌then◌else◌};
ghost use Rattle.std.specs.List.{list_any};
ghost use Rattle.unit_model.specs.Directives.{Text};
ghost use Rattle.mod_visible.specs.Causing.{IsTable, entry_texts};
ghost use Rattle.mod_visible.specs.declared.placed.Role.TheVariants.{Defining};
ghost use Rattle.mod_faults.specs.Views.{faults_view};
ghost use Rattle.mod_faults.specs.Bodies.{procedures_after, after_role, spots_after, spots_by, split_by, splits};

use crate::bodies::{Defined, Procedure};
use crate::fault::Fault;
use indexmap::IndexSet;
use mod_visible::{Placed, Role};
use pl_atoms::NoMemory;
use std::alloc::Global;
use unit_model::Ind;

/// A procedure with a clause in a section of a unit.
#[derive(Clone, Copy, Debug, PartialEq, Eq, Hash)]
pub struct Spot {
    pub unit: usize,
    pub section: usize,
    pub procedure: Procedure,
}

// The procedures of the clauses so far, and the sections that these stand in.
#[derive(Drop)]
struct Bodies {
    defined: Defined,
    spots: IndexSet<Spot>,
}

/// Puts a fault last for the first clause of a procedure in each body, where an earlier body has one.
pub fn split(alloc: Global, entries: &[Placed], out: &mut Vec<Fault>) -> Result<(), NoMemory>
    ensures { OnOk result ((names : List Text) → IsTable names entries.now → faults_view out.new.items ≡ faults_view out.old.items ++ splits (entry_texts names entries.now)) }
{
    let mut bodies = Bodies::new(alloc);
    for entry in entries {
        bodies.take(entry, out)?;
    }
    Ok(())
}

impl Bodies {
    fn new(alloc: Global) -> Bodies
        ensures procedures { result.defined.procedures.keys ≡ [] }
        ensures spots { result.spots.keys ≡ [] }
    {
        Bodies {
            defined: Defined::new(alloc),
            spots: IndexSet::new(alloc),
        }
    }

    fn take(&mut self, entry: &Placed, out: &mut Vec<Fault>) -> Result<(), NoMemory>
        ensures procedures { OnOk result (self.new.defined.procedures.keys ≡ procedures_after self.old.defined.procedures.keys entry.now) }
        ensures spots { OnOk result (self.new.spots.keys ≡ spots_after self.old.spots.keys entry.now) }
        ensures faults { OnOk result (out.new.items ≡ out.old.items ++ split_by entry.now.role self.old.defined.procedures.keys self.old.spots.keys entry.now) }
    {
        match entry.role {
            Role::Defining(ind) => self.take_clause(entry, ind, out),
            _ => Ok(()),
        }
    }

    fn take_clause(
        &mut self,
        entry: &Placed,
        ind: Ind,
        out: &mut Vec<Fault>,
    ) -> Result<(), NoMemory>
        ensures procedures { OnOk result (self.new.defined.procedures.keys ≡ after_role (Defining ind) self.old.defined.procedures.keys entry.now) }
        ensures spots { OnOk result (self.new.spots.keys ≡ spots_by (Defining ind) self.old.spots.keys entry.now) }
        ensures faults { OnOk result (out.new.items ≡ out.old.items ++ split_by (Defining ind) self.old.defined.procedures.keys self.old.spots.keys entry.now) }
    {
        let procedure = Procedure::of(entry.module, ind);
        let spot = Spot {
            unit: entry.unit,
            section: entry.section,
            procedure,
        };
        if self.defined.has(procedure) && !self.spots.contains(&spot) {
            out.push(Fault {
                number: 8,
                unit: entry.unit,
                byte: entry.byte,
            })?;
        }
        self.defined.add(procedure)?;
        self.spots.insert(spot)?;
        Ok(())
    }
}
