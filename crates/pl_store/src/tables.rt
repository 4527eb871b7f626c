//! A linked program without its names.
ghost use Rattle.std.specs.Prelude.{◌≡◌, ◌<◌, ◌+◌, ◌||◌, [], length, slice_get, Some, IfOk, OnOk, OnErr};
ghost use Rattle.std.specs.Option.{option_map};
ghost use Rattle.pl_atoms.specs.Names.{with_text};
ghost use Rattle.unit_model.specs.Views.{ind_view};
ghost use Rattle.pl_store.specs.Places.{next_place};
ghost use Rattle.pl_store.specs.Views.{key_class};
ghost use Rattle.pl_store.specs.Rules.{IsUnseen};
ghost use Rattle.pl_store.specs.Linked.{empty, is_system, is_module, procedure_at, clause_at, visible_in, key_view, may_match, with_module, with_procedure, with_clause, with_row, with_names};

use crate::index::{Class, Index, Tag, class_of};
use crate::key::{ClauseId, Key, ProcId};
use crate::list::{make_room, put};
use indexmap::{IndexMap, IndexSet};
use mod_meta::Modes;
use pl_atoms::{NameId, Names, NoMemory};
use pl_terms::Term;
use std::alloc::Global;
use std::marker::Model;
use unit_model::Ind;

// A procedure, without its clauses.
#[derive(Drop)]
struct Procedure {
    home: NameId,
    ind: Ind,
    modes: Option<Modes>,
}

// A clause.
#[derive(Drop)]
struct Clause {
    proc: ProcId,
    vars: usize,
    head: Term,
    body: Term,
}

// A module and a procedure's name and number of arguments.
#[derive(Clone, Copy, Debug, PartialEq, Eq, Hash)]
struct RowKey {
    lookup: usize,
    name: usize,
    arity: u8,
}

/// What a linked program holds without its names: its modules, its procedures with their clauses, and which procedure is visible from
/// which module (ISO/IEC 13211-2, 6.1 and 6.2). Contracts see the record of a program whose list of names is empty.
#[derive(Drop)]
pub struct Tables {
    modules: IndexSet<usize>,
    procedures: Vec<Procedure>,
    clauses: Vec<Clause>,
    index: Index,
    rows: IndexMap<RowKey, usize>,
}

impl Model for Tables {
    ghost use Rattle.std.specs.Prelude.{[]};
    ghost use Rattle.pl_store.specs.Linked.{Linked, linked_code};

    ghost Value = { Linked };

    ghost coded = { linked_code };

    ghost use Rattle.pl_store.specs.Views.{view_of, IsIndexed};

    ghost view = { λ p. view_of [] p.modules.keys p.procedures.items p.clauses.items p.rows.entries };

    ghost invariant = { λ p. IsIndexed p.procedures.items p.clauses.items p.index };
}

impl Tables {
    // Without modules.
    pub(crate) fn new(alloc: Global) -> Tables
        ensures { result ≡ empty }
    {
        Tables {
            modules: IndexSet::new(alloc),
            procedures: Vec::new(alloc),
            clauses: Vec::new(alloc),
            index: Index::new(alloc),
            rows: IndexMap::new(alloc),
        }
    }

    // Makes a module of this name, unless there is one, over a table of names. NoMemory: all is as before.
    pub(crate) fn add_module(&mut self, names: &mut Names, name: &[u8]) -> Result<NameId, NoMemory>
        ensures ok { IfOk result (λ id. with_names self.new names.new ≡ with_module (with_names self.old names.old) name.now id.0) }
        ensures names { OnOk result (names.new ≡ with_text names.old name.now) }
        ensures number { IfOk result (λ id. slice_get names.new id.0 ≡ Some name.now) }
        ensures names_err { OnErr result (names.new ≡ names.old) }
        ensures err { OnErr result (self.new ≡ self.old) }
    {
        self.modules.reserve(1)?;
        let id = names.intern(name)?;
        if name != b"system".as_slice() && self.modules.insert(id.0).is_err() {
            unreachable!();
        }
        Ok(id)
    }

    // A new procedure, without clauses. The answer is the number of procedures that there were. NoMemory: all is as before.
    pub(crate) fn add_procedure(
        &mut self,
        home: NameId,
        ind: Ind,
        modes: Option<Modes>,
    ) -> Result<ProcId, NoMemory>
        ensures ok { OnOk result (self.new ≡ with_procedure self.old (record { home = home.0; indicator = ind_view ind; modes = modes })) }
        ensures number { IfOk result (λ id. id.0 ≡ length self.old.procedures) }
        ensures err { OnErr result (self.new ≡ self.old) }
    {
        make_room(&mut self.procedures)?;
        self.index.add_owner()?;
        let number = self.procedures.len();
        put(&mut self.procedures, Procedure { home, ind, modes });
        Ok(ProcId(number))
    }

    // Puts a clause last. NoMemory: all is as before.
    pub(crate) fn add_clause(
        &mut self,
        proc: ProcId,
        vars: usize,
        head: Term,
        body: Term,
    ) -> Result<(), NoMemory>
        requires { proc.0 < length self.old.procedures }
        ensures ok { OnOk result (self.new ≡ with_clause self.old (record { procedure = proc.0; clause = record { width = vars; head = head; body = body } })) }
        ensures err { OnErr result (self.new ≡ self.old) }
    {
        make_room(&mut self.clauses)?;
        let tag = Tag {
            owner: proc.0,
            class: class_of(&head),
        };
        self.index.add(tag)?;
        put(
            &mut self.clauses,
            Clause {
                proc,
                vars,
                head,
                body,
            },
        );
        Ok(())
    }

    // Makes a procedure visible from a module. NoMemory: all is as before.
    pub(crate) fn see(&mut self, lookup: NameId, ind: Ind, proc: ProcId) -> Result<(), NoMemory>
        requires { IsUnseen self.old lookup.0 (ind_view ind) }
        ensures ok { OnOk result (self.new ≡ with_row self.old (record { lookup = lookup.0; indicator = ind_view ind; procedure = proc.0 })) }
        ensures err { OnErr result (self.new ≡ self.old) }
    {
        let key = RowKey {
            lookup: lookup.0,
            name: ind.name.0,
            arity: ind.arity,
        };
        self.rows.insert(key, proc.0)?;
        Ok(())
    }

    /// The procedure that is visible from a module under a name and a number of arguments. None exactly where none is. It takes
    /// constant time on average.
    pub fn procedure(&self, lookup: NameId, name: NameId, arity: u8) -> Option<ProcId>
        ensures { option_map (λ p. p.0) result ≡ visible_in self.now.rows lookup.0 (record { name = name.0; arity = arity }) }
    {
        let key = RowKey {
            lookup: lookup.0,
            name: name.0,
            arity,
        };
        let number = self.rows.get(&key)?;
        Some(ProcId(*number))
    }

    /// The module that defines a procedure.
    pub fn home(&self, proc: ProcId) -> NameId
        requires { proc.0 < length self.now.procedures }
        ensures { result.0 ≡ (procedure_at self.now proc.0).home }
    {
        self.procedures[proc.0].home
    }

    /// The modes of a procedure, where it is a metapredicate.
    pub fn modes(&self, proc: ProcId) -> Option<&Modes>
        requires { proc.0 < length self.now.procedures }
        ensures { option_map (λ m. m.now) result ≡ (procedure_at self.now proc.0).modes }
    {
        self.procedures[proc.0].modes.as_ref()
    }

    /// The first clause of a procedure whose first argument can unify with the key, in the order in which clauses were added.
    /// None exactly where there is none. It takes constant time on average.
    pub fn first(&self, proc: ProcId, key: Key) -> Option<ClauseId>
        requires { proc.0 < length self.now.procedures }
        ensures { option_map (λ c. c.0) result ≡ next_place (may_match proc.0 (key_view key)) 0 self.now.clauses }
    {
        let place = match class_of_key(key) {
            None => self.index.first(proc.0),
            Some(class) => self.index.first_fit(proc.0, class),
        };
        clause_id(place)
    }

    /// The next clause of a clause's procedure whose first argument can unify with the key. None exactly where there is none.
    /// It takes time by the logarithm of the number of clauses.
    pub fn next(&self, clause: ClauseId, key: Key) -> Option<ClauseId>
        requires { clause.0 < length self.now.clauses }
        ensures { option_map (λ c. c.0) result ≡ next_place (may_match (clause_at self.now clause.0).procedure (key_view key)) (clause.0 + 1) self.now.clauses }
    {
        let place = match class_of_key(key) {
            None => self.index.next(clause.0),
            Some(class) => self.index.next_fit(clause.0, class),
        };
        clause_id(place)
    }

    /// A clause: the number of its variables, its head, and its converted body.
    pub fn clause(&self, id: ClauseId) -> (usize, &Term, &Term)
        requires { id.0 < length self.now.clauses }
        ensures width { result.0 ≡ (clause_at self.now id.0).clause.width }
        ensures head { result.1.now ≡ (clause_at self.now id.0).clause.head }
        ensures body { result.2.now ≡ (clause_at self.now id.0).clause.body }
    {
        let clause = &self.clauses[id.0];
        (clause.vars, &clause.head, &clause.body)
    }

    /// The procedure of a clause.
    pub fn owner(&self, clause: ClauseId) -> ProcId
        requires { clause.0 < length self.now.clauses }
        ensures { result.0 ≡ (clause_at self.now clause.0).procedure }
    {
        self.clauses[clause.0].proc
    }

    /// Whether there is a module of this name. `system` always exists.
    pub fn exists(&self, names: &Names, name: NameId) -> bool
        requires { name.0 < length names.now }
        ensures { result ≡ (is_system names.now name.0 || is_module self.now name.0) }
    {
        names.text(name) == b"system".as_slice() || self.modules.contains(&name.0)
    }

    /// How many clauses there are.
    pub fn clauses(&self) -> usize
        ensures { result ≡ length self.now.clauses }
    {
        self.clauses.len()
    }

    /// How many modules there are, without `system`.
    pub fn modules(&self) -> usize
        ensures { result ≡ length self.now.modules }
    {
        self.modules.len()
    }

    /// How many procedures there are.
    pub fn procedures(&self) -> usize
        ensures { result ≡ length self.now.procedures }
    {
        self.procedures.len()
    }
}

// The clause at a place, where there is one.
fn clause_id(place: Option<usize>) -> Option<ClauseId>
    ensures { option_map (λ c. c.0) result ≡ place }
{
    match place {
        Some(number) => Some(ClauseId(number)),
        None => None,
    }
}

// The class of the clauses that a key asks for, where it asks for some alone.
fn class_of_key(key: Key) -> Option<Class>
    ensures { result ≡ key_class key }
{
    match key {
        Key::Any => None,
        Key::Int(value) => Some(Class::Int(value)),
        Key::Name(name) => Some(Class::Name(name.0)),
        Key::Comp(name, arity) => Some(Class::Comp(name.0, arity)),
    }
}
