//! The terms of errors that running goals throws (ISO/IEC 13211-1, 7.12.2). No name is put into a table for them.
ghost use Rattle.std.specs.Prelude.{◌≡◌, ℕ, IfOk, IfSome};
ghost use Rattle.pl_terms.specs.Trees.{atom};
ghost use Rattle.pl_unify.specs.State.{IsRef, tree_at, Grows};
ghost use Rattle.builtin_model.specs.Naming.{Naming};
ghost use Rattle.builtin_model.specs.Faults.{instantiation, type_fault, max_arity, fault_tree};
ghost use Rattle.builtin_model.specs.declared.error.Expected.{Expected};
ghost use Rattle.builtin_model.specs.Lists.{listing};
ghost use Rattle.goal_model.specs.Bodies.{not_callable};
ghost use Rattle.goal_model.specs.Table.{no_module, no_procedure, list_fault};
ghost use Rattle.goal_constructs.specs.Constructs.{AreConstructs};
ghost use Rattle.goal_constructs.specs.Balls.{indicator_by, error_by, two, IsFault, IsRest, ends_list, after_cells};

use crate::constructs::Constructs;
use pl_atoms::{NameId, NoMemory};
use pl_unify::{Ref, Store, View};

impl Constructs {
    /// The ball of a module that does not exist, where the lookup module is this one: `error(existence_error(module, M), Lookup)`.
    pub fn no_module(
        &self,
        store: &mut Store,
        missing: NameId,
        lookup: NameId,
    ) -> Result<Ref, NoMemory>
        ensures grows { Grows store.old.state store.new.state }
        ensures next { store.new.state.next ≡ store.old.state.next }
        ensures place { IfOk result (λ at. IsRef store.new.state at) }
        ensures tree { IfOk result (λ at. (n : Naming ℕ) → AreConstructs n self.now → tree_at store.new.state at ≡ no_module n missing.0 lookup.0) }
    {
        let names = self.names();
        let word = store.place_of_name(names.module_word)?;
        let culprit = store.place_of_name(missing)?;
        let formal = store.compound(names.existence_error, &[word, culprit])?;
        self.error_within(store, formal, lookup)
    }

    /// The ball of a procedure that is not visible in the lookup module: `error(existence_error(procedure, Name/Arity), Lookup)`.
    pub fn no_procedure(
        &self,
        store: &mut Store,
        name: NameId,
        arity: u8,
        lookup: NameId,
    ) -> Result<Ref, NoMemory>
        ensures grows { Grows store.old.state store.new.state }
        ensures next { store.new.state.next ≡ store.old.state.next }
        ensures place { IfOk result (λ at. IsRef store.new.state at) }
        ensures tree { IfOk result (λ at. (n : Naming ℕ) → AreConstructs n self.now → tree_at store.new.state at ≡ no_procedure n name.0 arity lookup.0) }
    {
        let names = self.names();
        let word = store.place_of_name(names.procedure_word)?;
        let culprit = self.indicator(store, name, arity)?;
        let formal = store.compound(names.existence_error, &[word, culprit])?;
        self.error_within(store, formal, lookup)
    }

    /// The ball of a variable where the construct with this name and number of arguments needs something else.
    pub fn uninstantiated(
        &self,
        store: &mut Store,
        name: NameId,
        arity: u8,
    ) -> Result<Ref, NoMemory>
        ensures grows { Grows store.old.state store.new.state }
        ensures next { store.new.state.next ≡ store.old.state.next }
        ensures place { IfOk result (λ at. IsRef store.new.state at) }
        ensures tree { IfOk result (λ at. (n : Naming ℕ) → AreConstructs n self.now → tree_at store.new.state at ≡ fault_tree n instantiation name.0 arity) }
    {
        let formal = store.place_of_name(self.names().instantiation_error)?;
        self.error(store, formal, name, arity)
    }

    /// The ball of a goal that would have too many arguments.
    pub fn too_many_arguments(
        &self,
        store: &mut Store,
        name: NameId,
        arity: u8,
    ) -> Result<Ref, NoMemory>
        ensures grows { Grows store.old.state store.new.state }
        ensures next { store.new.state.next ≡ store.old.state.next }
        ensures place { IfOk result (λ at. IsRef store.new.state at) }
        ensures tree { IfOk result (λ at. (n : Naming ℕ) → AreConstructs n self.now → tree_at store.new.state at ≡ fault_tree n max_arity name.0 arity) }
    {
        let names = self.names();
        let word = store.place_of_name(names.max_arity)?;
        let formal = store.compound(names.representation_error, &[word])?;
        self.error(store, formal, name, arity)
    }

    /// The ball of a term that is no atom, where the construct needs one.
    pub fn not_an_atom(
        &self,
        store: &mut Store,
        term: Ref,
        name: NameId,
        arity: u8,
    ) -> Result<Ref, NoMemory>
        requires { IsRef store.old.state term }
        ensures grows { Grows store.old.state store.new.state }
        ensures next { store.new.state.next ≡ store.old.state.next }
        ensures place { IfOk result (λ at. IsRef store.new.state at) }
        ensures tree { IfOk result (λ at. (n : Naming ℕ) → AreConstructs n self.now → tree_at store.new.state at ≡ fault_tree n (type_fault Expected.Atom (tree_at store.old.state term)) name.0 arity) }
    {
        self.wrong_type(store, self.names().atom_word, term, name, arity)
    }

    /// The ball of a term that is no goal, where the construct needs one.
    pub fn not_callable(
        &self,
        store: &mut Store,
        term: Ref,
        name: NameId,
        arity: u8,
    ) -> Result<Ref, NoMemory>
        requires { IsRef store.old.state term }
        ensures grows { Grows store.old.state store.new.state }
        ensures next { store.new.state.next ≡ store.old.state.next }
        ensures place { IfOk result (λ at. IsRef store.new.state at) }
        ensures tree { IfOk result (λ at. (n : Naming ℕ) → AreConstructs n self.now → tree_at store.new.state at ≡ not_callable n (tree_at store.old.state term) name.0 arity) }
    {
        self.wrong_type(store, self.names().callable_word, term, name, arity)
    }

    /// The ball of a term that is neither a list nor a partial list, where the construct needs one of them; none where it is.
    /// It takes time by the length of the list.
    pub fn list_ball(
        &self,
        store: &mut Store,
        term: Ref,
        name: NameId,
        arity: u8,
    ) -> Result<Option<Ref>, NoMemory>
        requires { IsRef store.old.state term }
        ensures grows { Grows store.old.state store.new.state }
        ensures next { store.new.state.next ≡ store.old.state.next }
        ensures place { IfOk result (λ r. IfSome r (λ at. IsRef store.new.state at)) }
        ensures ball { IfOk result (λ r. (n : Naming ℕ) → AreConstructs n self.now → IsFault store.new.state (list_fault n (listing n (tree_at store.old.state term)) (tree_at store.old.state term) name.0 arity) (tree_at store.old.state term) r) }
    {
        if self.may_be_list(store, term) {
            return Ok(None);
        }
        let ball = self.wrong_type(store, self.names().list_word, term, name, arity)?;
        Ok(Some(ball))
    }

    // Whether a term is a list or a partial list.
    fn may_be_list(&self, store: &Store, term: Ref) -> bool
        requires { IsRef store.now.state term }
        ensures { result ≡ ends_list self.now.names (after_cells self.now.names (tree_at store.now.state term)) }
    {
        let mut rest = term;
        while let Some(next) = self.rest_of_cell(store, rest) {
            rest = next;
        }
        match store.view(rest) {
            View::Var(_) => true,
            View::Name(name) => name.0 == self.names().nil.0,
            _ => false,
        }
    }

    // What follows the item of a list.
    fn rest_of_cell(&self, store: &Store, at: Ref) -> Option<Ref>
        requires { IsRef store.now.state at }
        ensures { IsRest self.now.names store.now.state (tree_at store.now.state at) result }
    {
        if let View::Comp(name, 2) = store.view(at) {
            if name.0 == self.names().dot.0 {
                return Some(store.arg(at, 1));
            }
        }
        None
    }

    // The ball of a term that is not of the type of this name.
    fn wrong_type(
        &self,
        store: &mut Store,
        word: NameId,
        term: Ref,
        name: NameId,
        arity: u8,
    ) -> Result<Ref, NoMemory>
        requires { IsRef store.old.state term }
        ensures grows { Grows store.old.state store.new.state }
        ensures next { store.new.state.next ≡ store.old.state.next }
        ensures place { IfOk result (λ at. IsRef store.new.state at) }
        ensures tree { IfOk result (λ at. tree_at store.new.state at ≡ error_by self.now.names (two self.now.names.type_error.0 (atom word.0) (tree_at store.old.state term)) name.0 arity) }
    {
        let expected = store.place_of_name(word)?;
        let formal = store.compound(self.names().type_error, &[expected, term])?;
        self.error(store, formal, name, arity)
    }

    // The ball of an error in a lookup module.
    fn error_within(&self, store: &mut Store, formal: Ref, lookup: NameId) -> Result<Ref, NoMemory>
        requires { IsRef store.old.state formal }
        ensures grows { Grows store.old.state store.new.state }
        ensures next { store.new.state.next ≡ store.old.state.next }
        ensures place { IfOk result (λ at. IsRef store.new.state at) }
        ensures tree { IfOk result (λ at. tree_at store.new.state at ≡ two self.now.names.error.0 (tree_at store.old.state formal) (atom lookup.0)) }
    {
        let within = store.place_of_name(lookup)?;
        store.compound(self.names().error, &[formal, within])
    }

    // The ball of an error of the construct with this name and number of arguments.
    fn error(
        &self,
        store: &mut Store,
        formal: Ref,
        name: NameId,
        arity: u8,
    ) -> Result<Ref, NoMemory>
        requires { IsRef store.old.state formal }
        ensures grows { Grows store.old.state store.new.state }
        ensures next { store.new.state.next ≡ store.old.state.next }
        ensures place { IfOk result (λ at. IsRef store.new.state at) }
        ensures tree { IfOk result (λ at. tree_at store.new.state at ≡ error_by self.now.names (tree_at store.old.state formal) name.0 arity) }
    {
        let indicator = self.indicator(store, name, arity)?;
        store.compound(self.names().error, &[formal, indicator])
    }

    // A name and a number of arguments, `Name/Arity`.
    fn indicator(&self, store: &mut Store, name: NameId, arity: u8) -> Result<Ref, NoMemory>
        ensures grows { Grows store.old.state store.new.state }
        ensures next { store.new.state.next ≡ store.old.state.next }
        ensures place { IfOk result (λ at. IsRef store.new.state at) }
        ensures tree { IfOk result (λ at. tree_at store.new.state at ≡ indicator_by self.now.names name.0 arity) }
    {
        let left = store.place_of_name(name)?;
        let right = store.place_of_int(i64::from(arity))?;
        store.compound(self.names().slash, &[left, right])
    }
}
