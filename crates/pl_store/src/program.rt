//! A linked program.
ghost use Rattle.std.specs.Prelude.{◌≡◌, ◌<◌, length, slice_get, Some, IfOk, OnOk, OnErr};
ghost use Rattle.pl_atoms.specs.Names.{with_text};
ghost use Rattle.unit_model.specs.Views.{ind_view};
ghost use Rattle.pl_store.specs.Facts.{IsLinked};
ghost use Rattle.pl_store.specs.Rules.{IsExisting, IsNewProcedure, HasArity, IsClauseOf, IsUnseen};
ghost use Rattle.pl_store.specs.Linked.{empty, procedure_at, with_module, with_procedure, with_clause, with_row, with_names};

use crate::key::ProcId;
use crate::tables::Tables;
use mod_meta::Modes;
use pl_atoms::{NameId, Names, NoMemory};
use pl_terms::Term;
use std::alloc::Global;
use std::marker::Model;
use unit_model::Ind;

/// A linked program: its names, its modules, its procedures with their clauses, and which procedure is visible from which module
/// (ISO/IEC 13211-2, 6.1 and 6.2). It holds no import and no export. Contracts see a record of these, which is in order.
#[derive(Drop)]
pub struct Program {
    names: Names,
    tables: Tables,
}

impl Model for Program {
    ghost use Rattle.pl_store.specs.Linked.{Linked, linked_code, with_names};

    ghost Value = { Linked };

    ghost coded = { linked_code };

    ghost use Rattle.pl_store.specs.Facts.{IsLinked};

    ghost view = { λ p. with_names p.tables p.names };

    ghost invariant = { λ p. IsLinked (with_names p.tables p.names) };
}

impl Program {
    /// A program without modules. It takes no memory.
    pub fn new(alloc: Global) -> Program
        ensures { result ≡ empty }
    {
        Program {
            names: Names::new(alloc),
            tables: Tables::new(alloc),
        }
    }

    /// The number of this text among the program's names, where it is put last if it is new. NoMemory: all is as before.
    pub fn intern(&mut self, text: &[u8]) -> Result<NameId, NoMemory>
        ensures ok { OnOk result (self.new ≡ with_names self.old (with_text self.old.names text.now)) }
        ensures number { IfOk result (λ id. slice_get self.new.names id.0 ≡ Some text.now) }
        ensures below { IfOk result (λ id. id.0 < length self.new.names) }
        ensures err { OnErr result (self.new ≡ self.old) }
    {
        let id = self.names.intern(text)?;
        Ok(id)
    }

    /// Makes a module of this name, unless there is one. `system` is no module of its own. NoMemory: all is as before.
    pub fn add_module(&mut self, name: &[u8]) -> Result<NameId, NoMemory>
        ensures ok { IfOk result (λ id. self.new ≡ with_module self.old name.now id.0) }
        ensures number { IfOk result (λ id. slice_get self.new.names id.0 ≡ Some name.now) }
        ensures err { OnErr result (self.new ≡ self.old) }
    {
        let id = self.tables.add_module(&mut self.names, name)?;
        Ok(id)
    }

    /// A new procedure of an existing module, without clauses, with the modes of a metapredicate of its number of arguments.
    /// The answer is the number of procedures that there were. NoMemory: all is as before.
    pub fn add_procedure(
        &mut self,
        home: NameId,
        ind: Ind,
        modes: Option<Modes>,
    ) -> Result<ProcId, NoMemory>
        requires module { IsExisting self.old home.0 }
        requires new { IsNewProcedure self.old home.0 (ind_view ind) }
        requires name { ind.name.0 < length self.old.names }
        requires modes { HasArity ind.arity modes }
        ensures ok { OnOk result (self.new ≡ with_procedure self.old (record { home = home.0; indicator = ind_view ind; modes = modes })) }
        ensures number { IfOk result (λ id. id.0 ≡ length self.old.procedures) }
        ensures err { OnErr result (self.new ≡ self.old) }
    {
        let id = self.tables.add_procedure(home, ind, modes)?;
        Ok(id)
    }

    /// Puts a clause last: the number of its variables, which are 0, 1, 2 and so on in order of first occurrence in the head and
    /// then in the body, its head and its converted body. It takes constant time on average. NoMemory: all is as before.
    pub fn add_clause(
        &mut self,
        proc: ProcId,
        vars: usize,
        head: Term,
        body: Term,
    ) -> Result<(), NoMemory>
        requires procedure { proc.0 < length self.old.procedures }
        requires clause { IsClauseOf self.old proc.0 (record { width = vars; head = head; body = body }) }
        ensures ok { OnOk result (self.new ≡ with_clause self.old (record { procedure = proc.0; clause = record { width = vars; head = head; body = body } })) }
        ensures err { OnErr result (self.new ≡ self.old) }
    {
        self.tables.add_clause(proc, vars, head, body)?;
        Ok(())
    }

    /// Makes a procedure visible from an existing module, under its own name and number of arguments. NoMemory: all is as before.
    pub fn see(&mut self, lookup: NameId, ind: Ind, proc: ProcId) -> Result<(), NoMemory>
        requires module { IsExisting self.old lookup.0 }
        requires procedure { proc.0 < length self.old.procedures }
        requires indicator { (procedure_at self.old proc.0).indicator ≡ ind_view ind }
        requires unseen { IsUnseen self.old lookup.0 (ind_view ind) }
        ensures ok { OnOk result (self.new ≡ with_row self.old (record { lookup = lookup.0; indicator = ind_view ind; procedure = proc.0 })) }
        ensures err { OnErr result (self.new ≡ self.old) }
    {
        self.tables.see(lookup, ind, proc)?;
        Ok(())
    }

    /// The program's names.
    pub fn names(&self) -> &Names
        ensures names { result.now ≡ self.now.names }
        ensures linked { IsLinked self.now }
    {
        &self.names
    }

    /// What the program holds beside its names.
    pub fn tables(&self) -> &Tables
        ensures tables { with_names result.now self.now.names ≡ self.now }
        ensures linked { IsLinked self.now }
    {
        &self.tables
    }

    /// A program of names and of what it holds beside them, which is in order.
    pub fn from_parts(names: Names, tables: Tables) -> Program
        requires { IsLinked (with_names tables names) }
        ensures { result ≡ with_names tables names }
    {
        Program { names, tables }
    }

    /// The program's names, and what it holds beside them. Where names are only added to the table, the program stays in order.
    pub fn into_parts(self) -> (Names, Tables)
        ensures whole { with_names result.1 result.0 ≡ self }
        ensures linked { IsLinked self }
    {
        (self.names, self.tables)
    }
}
