//! A program gets the clauses of entries.
ghost use Rattle.std.specs.Prelude.{◌≡◌, ◌<◌, [], ◌∷◌, length, IfOk, OnOk};
ghost use Rattle.std.specs.List.{AllByRecursion};
ghost use Rattle.unit_model.specs.Views.{ind_view};
ghost use Rattle.unit_model.specs.declared.facts.What.TheVariants.{Clause};
ghost use Rattle.pl_store.specs.Rules.{IsExisting};
ghost use Rattle.mod_linker.specs.Items.{items_view, IsItem, AreItems};
ghost use Rattle.mod_linker.specs.Keys.{AreKnown};
ghost use Rattle.mod_linker.specs.Entering.{HaveArity, Provides, Takes};

use crate::declared::Declared;
use crate::items::Item;
use crate::key::Key;
use crate::known::Known;
use crate::terms::{indicator, mapped};
use pl_atoms::{NameId, NoMemory};
use pl_store::{ProcId, Program};
use pl_terms::Term;
use std::alloc::Global;
use unit_model::{Ind, What};

/// A program, and the numbers of its procedures.
#[derive(Drop)]
pub struct Linker {
    pub program: Program,
    pub known: Known,
}

impl Linker {
    /// Enters the clauses of these entries, each procedure at its first one with its last modes.
    pub fn enter_all(
        &mut self,
        alloc: Global,
        items: &[Item],
        declared: &Declared,
    ) -> Result<(), NoMemory>
        requires items { AreItems self.old.program.names items.now }
        requires homes { AllByRecursion (λ x. IsExisting self.old.program x.home.0) items.now }
        requires known { AreKnown self.old.program self.old.known.numbers.entries }
        requires arity { HaveArity declared.now.modes.entries }
        ensures { OnOk result (Takes (items_view items.now) declared.now.modes.entries self.old.program self.new.program self.new.known.numbers.entries) }
    {
        for item in items {
            self.enter(alloc, item, declared)?;
        }
        Ok(())
    }

    fn enter(&mut self, alloc: Global, item: &Item, declared: &Declared) -> Result<(), NoMemory>
        requires item { IsItem self.old.program.names item.now }
        requires home { IsExisting self.old.program item.now.home.0 }
        requires known { AreKnown self.old.program self.old.known.numbers.entries }
        requires arity { HaveArity declared.now.modes.entries }
        ensures { OnOk result (Takes (items_view (item.now ∷ [])) declared.now.modes.entries self.old.program self.new.program self.new.known.numbers.entries) }
    {
        match item.what {
            What::Clause(vars, head, body) => {
                self.enter_clause(alloc, item, *vars, head, body, declared)
            }
            _ => Ok(()),
        }
    }

    fn enter_clause(
        &mut self,
        alloc: Global,
        item: &Item,
        vars: usize,
        head: &Term,
        body: &Term,
        declared: &Declared,
    ) -> Result<(), NoMemory>
        requires what { item.now.what.now ≡ Clause vars head.now body.now }
        requires item { IsItem self.old.program.names item.now }
        requires home { IsExisting self.old.program item.now.home.0 }
        requires known { AreKnown self.old.program self.old.known.numbers.entries }
        requires arity { HaveArity declared.now.modes.entries }
        ensures { OnOk result (Takes (items_view (item.now ∷ [])) declared.now.modes.entries self.old.program self.new.program self.new.known.numbers.entries) }
    {
        let head = mapped(alloc, head, item.remap)?;
        let body = mapped(alloc, body, item.remap)?;
        let ind = indicator(&head);
        let proc = self.procedure(alloc, item.home, ind, declared)?;
        let _ = self.program.names();
        self.program.add_clause(proc, vars, head, body)?;
        Ok(())
    }

    // The number of a procedure, which is made with its last modes where there is none.
    fn procedure(
        &mut self,
        alloc: Global,
        home: NameId,
        ind: Ind,
        declared: &Declared,
    ) -> Result<ProcId, NoMemory>
        requires home { IsExisting self.old.program home.0 }
        requires name { ind.name.0 < length self.old.program.names }
        requires known { AreKnown self.old.program self.old.known.numbers.entries }
        requires arity { HaveArity declared.now.modes.entries }
        ensures { IfOk result (λ p. Provides home.0 (ind_view ind) declared.now.modes.entries p.0 self.old.program self.new.program self.new.known.numbers.entries) }
    {
        let key = Key::of(home, ind);
        if let Some(number) = self.known.get(key) {
            return Ok(ProcId(number));
        }
        let _ = self.program.names();
        let modes = declared.get(alloc, key)?;
        let proc = self.program.add_procedure(home, ind, modes)?;
        self.known.put(key, proc.0)?;
        Ok(proc)
    }
}
