//! The causes of visibility and of giving.
ghost use Rattle.std.specs.Prelude.{◌≡◌, List, [], ◌++◌, length, map, not, IfOk, OnOk};
ghost use Rattle.std.specs.List.{list_any};
ghost use Rattle.indexmap.specs.IndexSet.{insert_key};
ghost use Rattle.unit_model.specs.Directives.{Text};
ghost use Rattle.mod_visible.specs.Keys.{same_procedure};
ghost use Rattle.mod_visible.specs.Kinds.{firsts};
ghost use Rattle.mod_visible.specs.Causing.{own_cause, keys_after, first_of, own_of, found_of, cause_text, entry_texts, IsTable, AreDefined, AreNamed, Exports, AreCauses};
ghost use Rattle.mod_visible.specs.declared.placed.Role.TheVariants.{Defining, Exporting};

use crate::cause::{Cause, Sort};
use crate::closing::Closing;
use crate::keys::{Given, Procedure};
use crate::placed::{Placed, Role};
use crate::takers::Takers;
use indexmap::IndexSet;
use pl_atoms::NoMemory;
use std::alloc::Global;
use unit_model::Ind;

/// The causes of these entries, in no order. They take time and memory in proportion to the entries and the causes.
pub fn causes_of(alloc: Global, entries: &[Placed]) -> Result<Vec<Cause>, NoMemory>
    ensures { IfOk result (λ cs. (names : List Text) → IsTable names entries.now → AreCauses names entries.now cs.items) }
{
    let mut closing = Closing::new(alloc);
    let defined = defined_by(alloc, entries, &mut closing.causes)?;
    export_all(entries, &defined, &mut closing)?;
    let takers = Takers::of(alloc, entries)?;
    closing.close(&takers)?;
    Ok(closing.causes)
}

fn own_cause(entry: &Placed, sort: Sort, ind: Ind) -> Cause
    ensures { result ≡ own_cause entry.now sort ind }
{
    Cause {
        sort,
        module: entry.module,
        ind,
        unit: entry.unit,
        byte: entry.byte,
        definer: entry.module,
    }
}

// Procedures that are defined.
#[derive(Drop)]
struct Defined {
    procedures: IndexSet<Procedure>,
}

impl Defined {
    fn new(alloc: Global) -> Defined
        ensures { result.procedures.keys ≡ [] }
    {
        Defined {
            procedures: IndexSet::new(alloc),
        }
    }

    // Adds a procedure, and tells whether it is new.
    fn add(&mut self, procedure: Procedure) -> Result<bool, NoMemory>
        ensures keys { OnOk result (self.new.procedures.keys ≡ insert_key same_procedure self.old.procedures.keys procedure) }
        ensures is_new { IfOk result (λ is_new. is_new ≡ not (list_any (same_procedure procedure) self.old.procedures.keys)) }
    {
        let (_, is_new) = self.procedures.insert_full(procedure)?;
        Ok(is_new)
    }

    fn has(&self, procedure: Procedure) -> bool
        ensures { result ≡ list_any (same_procedure procedure) self.now.procedures.keys }
    {
        self.procedures.contains(&procedure)
    }
}

// The procedures that the entries define, and the causes at their first clauses.
fn defined_by(
    alloc: Global,
    entries: &[Placed],
    causes: &mut Vec<Cause>,
) -> Result<Defined, NoMemory>
    ensures defined { IfOk result (λ d. (names : List Text) → IsTable names entries.now → AreDefined names entries.now d.procedures.keys) }
    ensures named { OnOk result ((names : List Text) → IsTable names entries.now → AreNamed (length names) causes.old.items → AreNamed (length names) causes.new.items) }
    ensures causes { OnOk result ((names : List Text) → IsTable names entries.now → map (cause_text names) causes.new.items ≡ map (cause_text names) causes.old.items ++ firsts (entry_texts names entries.now)) }
{
    let mut defined = Defined::new(alloc);
    for entry in entries {
        define(entry, &mut defined, causes)?;
    }
    Ok(defined)
}

fn define(entry: &Placed, defined: &mut Defined, causes: &mut Vec<Cause>) -> Result<(), NoMemory>
    ensures keys { OnOk result (defined.new.procedures.keys ≡ keys_after entry.now.role entry.now defined.old.procedures.keys) }
    ensures causes { OnOk result (causes.new.items ≡ causes.old.items ++ first_of entry.now.role entry.now defined.old.procedures.keys) }
{
    match entry.role {
        Role::Defining(ind) => define_procedure(entry, ind, defined, causes),
        _ => Ok(()),
    }
}

fn define_procedure(
    entry: &Placed,
    ind: Ind,
    defined: &mut Defined,
    causes: &mut Vec<Cause>,
) -> Result<(), NoMemory>
    ensures keys { OnOk result (defined.new.procedures.keys ≡ keys_after (Defining ind) entry.now defined.old.procedures.keys) }
    ensures causes { OnOk result (causes.new.items ≡ causes.old.items ++ first_of (Defining ind) entry.now defined.old.procedures.keys) }
{
    if defined.add(Procedure::of(entry.module, ind))? {
        causes.push(own_cause(entry, Sort::Seeing, ind))?;
    }
    Ok(())
}

// What modules give of their own, and the causes of that.
fn export_all(entries: &[Placed], defined: &Defined, closing: &mut Closing) -> Result<(), NoMemory>
    ensures { OnOk result ((names : List Text) → IsTable names entries.now → AreDefined names entries.now defined.now.procedures.keys → closing.old.found.keys ≡ [] → Exports names entries.now closing.old.causes.items closing.new.found.keys closing.new.causes.items) }
{
    for entry in entries {
        export(entry, defined, closing)?;
    }
    Ok(())
}

fn export(entry: &Placed, defined: &Defined, closing: &mut Closing) -> Result<(), NoMemory>
    ensures found { OnOk result (closing.new.found.keys ≡ found_of entry.now.role entry.now defined.now.procedures.keys closing.old.found.keys) }
    ensures causes { OnOk result (closing.new.causes.items ≡ closing.old.causes.items ++ own_of entry.now.role entry.now defined.now.procedures.keys) }
{
    match entry.role {
        Role::Exporting(ind) => export_procedure(entry, ind, defined, closing),
        _ => Ok(()),
    }
}

fn export_procedure(
    entry: &Placed,
    ind: Ind,
    defined: &Defined,
    closing: &mut Closing,
) -> Result<(), NoMemory>
    ensures found { OnOk result (closing.new.found.keys ≡ found_of (Exporting ind) entry.now defined.now.procedures.keys closing.old.found.keys) }
    ensures causes { OnOk result (closing.new.causes.items ≡ closing.old.causes.items ++ own_of (Exporting ind) entry.now defined.now.procedures.keys) }
{
    let procedure = Procedure::of(entry.module, ind);
    if !defined.has(procedure) {
        return Ok(());
    }
    closing.causes.push(own_cause(entry, Sort::Giving, ind))?;
    closing.add(Given {
        procedure,
        definer: entry.module.0,
    })
}
