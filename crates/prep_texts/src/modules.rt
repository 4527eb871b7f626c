//! What a text takes from other modules.
ghost use Rattle.std.specs.Prelude.{◌≡◌, ◌<◌, ℕ, length, OnOk, Err};
ghost use Rattle.pl_atoms.specs.Names.{IsFront};
ghost use Rattle.pl_ops.specs.Tables.{operator};
ghost use Rattle.unit_model.specs.Encoding.{text_at};
ghost use Rattle.prep_texts.specs.Drafts.{state_of, IsWell, TakesNeed, TakesOperators, Refuses, modules_known};
ghost use Rattle.prep_texts.specs.Seen.{seen};
ghost use Rattle.mod_directives.specs.declared.fault.DirFault.TheVariants.{Fault as FaultOf};

use crate::draft::Draft;
use crate::known::Known;
use crate::operators::add_operators;
use mod_directives::DirFault;
use pl_atoms::NameId;
use std::alloc::Global;
use term_walk::text;

impl Draft {
    /// Notes the need of a module. Fault 11 exactly where no interface of it is known.
    pub fn need_of(
        &mut self,
        alloc: Global,
        known: &Known,
        name: NameId,
        byte: usize,
    ) -> Result<(), DirFault>
        requires well { IsWell self.old }
        requires below { name.0 < length self.old.names }
        ensures well { OnOk result (IsWell self.new) }
        ensures names { OnOk result (IsFront self.old.names self.new.names) }
        ensures needs { OnOk result (TakesNeed known.now (text_at self.old.names name.0) byte self.old self.new) }
        ensures same { OnOk result (self.new ≡ record self.old { names = self.new.names; needed = self.new.needed; needs = self.new.needs }) }
        ensures number { (n : ℕ) → result ≡ Err (FaultOf n) → n ≡ 11 }
        ensures unknown { (n : ℕ) → result ≡ Err (FaultOf n) → modules_known known.now self.old (text_at self.old.names name.0) ≡ None }
    {
        if let Some(operators) = known.operators(text(&self.names, name)) {
            self.need(alloc, operators, name, byte)?;
            return Ok(());
        }
        if self.own.operators(text(&self.names, name)).is_none() {
            return Err(DirFault::Fault(11));
        }
        Ok(())
    }

    /// Declares the operators of a module's interface in the table. Fault 11 where no interface of it is known, and 12 where one of
    /// them is refused.
    pub fn take_operators(&mut self, known: &Known, name: NameId) -> Result<(), DirFault>
        requires { IsWell self.old }
        ensures operators { OnOk result (TakesOperators known.now (text_at self.old.names name.0) self.old self.new.table) }
        ensures same { OnOk result (self.new ≡ record self.old { table = self.new.table }) }
        ensures refused { (n : ℕ) → result ≡ Err (FaultOf n) → Refuses (modules_known known.now self.old (text_at self.old.names name.0)) (operator self.old.table) n }
    {
        if let Some(operators) = known.operators(text(&self.names, name)) {
            return add_operators(&mut self.table, operators);
        }
        match self.own.operators(text(&self.names, name)) {
            Some(operators) => add_operators(&mut self.table, operators),
            None => Err(DirFault::Fault(11)),
        }
    }
}
