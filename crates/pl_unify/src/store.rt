//! The store: places, variables, bindings and marks.
ghost use Rattle.std.specs.Prelude.{◌≡◌, ℕ, ◌+◌, ◌-◌, ◌<◌, ◌≤◌, ◌^◌, ◌∷◌, ◌++◌, [], max, take, length, false, IfOk, OnOk, OnErr, vec_capacity};
ghost use Rattle.unifier_model.specs.Substitution.{occurs};
ghost use Rattle.pl_terms.specs.Trees.{var};
ghost use Rattle.pl_terms.specs.Cells.{cells};
ghost use Rattle.pl_unify.specs.Words.{IsFree, WordIn, link};
ghost use Rattle.pl_unify.specs.State.{IsStore, IsRef, IsMark, Grows, tree_at, tree_of_word, state_at, Binds, IsUnbindable, links_of};
ghost use Rattle.pl_unify.specs.Shape.{IsVariable, number_of};

mod build;
mod compound;
mod goal;
mod head;
mod load;
mod notes;
mod read;
mod scratch;
mod unify;

use self::head::Span;
use self::notes::{Step, forget};
use crate::list::{make_room, put};
use crate::word::{Ref, Word};
use pl_atoms::NoMemory;
use std::alloc::Global;
use std::marker::Model;

/// What a store was when `Store::mark` was called.
#[derive(Clone, Copy, Debug)]
pub struct Mark {
    cells: usize,
    trail: usize,
    vars: usize,
}

/// A store of terms. Contracts see the words of its places, its bindings, and the number of its variables.
#[derive(Drop)]
pub struct Store {
    cells: Vec<Word>,
    // The word of each variable; that of an unbound one is itself.
    vars: Vec<Word>,
    // The bound variables, in the order of their binding.
    trail: Vec<usize>,
    // At the last place of a block that is known to hold no unbound variable, how many places it has.
    ground: Vec<u8>,
    // The places of these notes in the order of their making, with the number of bindings then.
    noted: Vec<(usize, usize)>,
    // Lists that calls use and keep for the next call: words of a term, equations of places, spans of equations of places with
    // code, and steps of a walk.
    words: Vec<Word>,
    equations: Vec<(usize, usize)>,
    spans: Vec<Span>,
    steps: Vec<Step>,
    alloc: Global,
}

impl Model for Store {
    ghost use Rattle.pl_unify.specs.State.{Stored, links_of};
    ghost use Rattle.pl_unify.specs.Notes.{IsStoreFields};
    ghost use Rattle.std.specs.Prelude.{◌-◌, length};
    ghost use Rattle.std.specs.Vec.{vec_len, vec_capacity};

    ghost Value = { Stored };

    ghost view = { λ s. record {
      state = record { cells = s.cells.items; links = links_of s.vars.items s.trail.items; next = length s.vars.items };
      cell_room = vec_capacity s.cells - vec_len s.cells;
      var_room = vec_capacity s.vars - vec_len s.vars;
      trail_room = vec_capacity s.trail - vec_len s.trail;
    } };

    ghost invariant = { λ s. IsStoreFields s.cells.items s.vars.items s.trail.items s.ground.items s.noted.items };
}

impl Store {
    /// A store without places and variables.
    pub fn new(alloc: Global) -> Store
        ensures empty { (result.state.cells ≡ []) × (result.state.links ≡ []) × (result.state.next ≡ 0) }
    {
        Store {
            cells: Vec::new(alloc),
            vars: Vec::new(alloc),
            trail: Vec::new(alloc),
            ground: Vec::new(alloc),
            noted: Vec::new(alloc),
            words: Vec::new(alloc),
            equations: Vec::new(alloc),
            spans: Vec::new(alloc),
            steps: Vec::new(alloc),
            alloc,
        }
    }

    /// The number that the next new variable gets.
    pub fn next_var(&self) -> usize
        ensures next { result ≡ self.now.state.next }
        ensures small { result < 2 ^ 63 }
        ensures few { length self.now.state.cells < 2 ^ 63 }
        ensures store { IsStore self.now.state }
    {
        self.vars.len()
    }

    /// Makes room for so many further places, variables and bindings. NoMemory: the terms are as before.
    pub fn reserve(&mut self, cells: usize, vars: usize, trail: usize) -> Result<(), NoMemory>
        ensures room { OnOk result (cells ≤ self.new.cell_room × vars ≤ self.new.var_room × trail ≤ self.new.trail_room) }
        ensures state { self.new.state ≡ self.old.state }
    {
        make_room(&mut self.cells, cells)?;
        make_room(&mut self.vars, vars)?;
        make_room(&mut self.trail, trail)?;
        Ok(())
    }

    // Makes room for one more binding. NoMemory: the terms are as before.
    fn reserve_binding(&mut self) -> Result<(), NoMemory>
        ensures room { OnOk result (1 ≤ self.new.trail_room) }
        ensures state { self.new.state ≡ self.old.state }
    {
        make_room(&mut self.trail, 1)
    }

    /// Makes a new unbound variable, and a place for it. NoMemory: all is as before.
    pub fn fresh(&mut self) -> Result<Ref, NoMemory>
        ensures grows { IfOk result (λ r. Grows self.old.state self.new.state) }
        ensures next { IfOk result (λ r. self.new.state.next ≡ self.old.state.next + 1) }
        ensures variable { IfOk result (λ r. IsRef self.new.state r × (tree_at self.new.state r ≡ var self.old.state.next)) }
        ensures err { OnErr result (self.new.state ≡ self.old.state) }
    {
        let place = self.cells.len();
        let n = self.vars.len();
        make_room(&mut self.cells, 1)?;
        make_room(&mut self.vars, 1)?;
        put(&mut self.cells, Word::Var(n));
        put(&mut self.vars, Word::Var(n));
        Ok(Ref(place))
    }

    /// A new variable, as a word.
    pub fn new_word(&mut self) -> Result<Word, NoMemory>
        ensures grows { Grows self.old.state self.new.state }
        ensures word { IfOk result (λ word. word ≡ Word.Var self.old.state.next) }
        ensures within { IfOk result (λ word. WordIn (length self.new.state.cells) self.new.state.next word) }
    {
        let n = self.next_var();
        self.add_variable()?;
        Ok(Word::Var(n))
    }

    // Makes the next variable.
    fn add_variable(&mut self) -> Result<(), NoMemory>
        ensures grows { Grows self.old.state self.new.state }
        ensures cells { self.new.state.cells ≡ self.old.state.cells }
        ensures next { OnOk result (self.new.state.next ≡ self.old.state.next + 1) }
        ensures err { OnErr result (self.new.state ≡ self.old.state) }
    {
        let next = self.vars.len();
        make_room(&mut self.vars, 1)?;
        put(&mut self.vars, Word::Var(next));
        Ok(())
    }

    /// Makes the variables below a number that are not there yet. NoMemory: some of them may have been made.
    pub fn make_below(&mut self, n: usize) -> Result<(), NoMemory>
        ensures grows { Grows self.old.state self.new.state }
        ensures cells { self.new.state.cells ≡ self.old.state.cells }
        ensures next { OnOk result (self.new.state.next ≡ max n self.old.state.next) }
        ensures store { OnOk result (IsStore self.new.state) }
        ensures few { self.new.state.next ≤ max n self.old.state.next }
    {
        while self.next_var() < n {
            self.add_variable()?;
        }
        Ok(())
    }

    /// Remembers what the store is now.
    pub fn mark(&self) -> Mark
        ensures valid { IsMark result self.now.state }
        ensures state { state_at result self.now.state ≡ self.now.state }
    {
        Mark {
            cells: self.cells.len(),
            trail: self.trail.len(),
            vars: self.vars.len(),
        }
    }

    /// Takes off all bindings, variables and places that were added since the mark.
    pub fn undo(&mut self, mark: &Mark)
        requires { IsMark mark.now self.old.state }
        ensures state { self.new.state ≡ state_at mark.now self.old.state }
        ensures cell_room { self.old.cell_room ≤ self.new.cell_room }
        ensures var_room { self.old.var_room ≤ self.new.var_room }
        ensures trail_room { self.old.trail_room ≤ self.new.trail_room }
    {
        forget(&mut self.ground, &mut self.noted, mark.trail, mark.cells);
        self.ground.truncate(mark.cells);
        unbind(&mut self.vars, &mut self.trail, mark.trail);
        self.vars.truncate(mark.vars);
        self.cells.truncate(mark.cells);
    }

    /// Binds the unbound variable of a place to the term of another, which it is not in. There is room for one
    /// binding. ISO/IEC 13211-1, 7.3.3.
    pub fn bind(&mut self, var: Ref, to: Ref)
        requires variable { IsRef self.old.state var × IsVariable (tree_at self.old.state var) }
        requires place { IsRef self.old.state to }
        requires absent { occurs (number_of (tree_at self.old.state var)) (tree_at self.old.state to) ≡ false }
        requires room { 1 ≤ self.old.trail_room }
        ensures binds { Binds self.old.state self.new.state (number_of (tree_at self.old.state var)) (tree_at self.old.state to) }
        ensures cell_room { self.old.cell_room ≤ self.new.cell_room }
        ensures var_room { self.old.var_room ≤ self.new.var_room }
        ensures trail_room { self.old.trail_room ≤ self.new.trail_room + 1 }
    {
        let Word::Var(n) = self.word_at(var) else {
            unreachable!();
        };
        let word = self.word_at(to);
        self.attach(n, word);
    }

    // Binds an unbound variable to a word that is not it and does not have it.
    fn attach(&mut self, n: usize, word: Word)
        requires number { n < self.old.state.next }
        requires free { IsFree n self.old.state.links }
        requires within { WordIn (length self.old.state.cells) self.old.state.next word }
        requires ahead { (m : ℕ) → word ≡ Word.Var m → IsFree m self.old.state.links }
        requires absent { occurs n (tree_of_word self.old.state word) ≡ false }
        requires room { 1 ≤ self.old.trail_room }
        ensures binds { Binds self.old.state self.new.state n (tree_of_word self.old.state word) }
        ensures links { self.new.state.links ≡ self.old.state.links ++ link n word ∷ [] }
        ensures cell_room { self.old.cell_room ≤ self.new.cell_room }
        ensures var_room { self.old.var_room ≤ self.new.var_room }
        ensures trail_room { self.old.trail_room ≤ self.new.trail_room + 1 }
    {
        self.vars[n] = word;
        put(&mut self.trail, n);
    }
}

// Takes the newest bindings off until `keep` are left.
fn unbind(vars: &mut Vec<Word>, trail: &mut Vec<usize>, keep: usize)
    requires order { IsUnbindable vars.old.items trail.old.items }
    requires some { keep ≤ length trail.old.items }
    ensures order { IsUnbindable vars.new.items trail.new.items }
    ensures links { links_of vars.new.items trail.new.items ≡ take keep (links_of vars.old.items trail.old.items) }
    ensures same { length vars.new.items ≡ length vars.old.items }
    ensures fewer { length trail.new.items ≡ keep }
    ensures capacity { vec_capacity vars.new ≡ vec_capacity vars.old }
    ensures trail_capacity { vec_capacity trail.new ≡ vec_capacity trail.old }
{
    while trail.len() > keep {
        if let Some(n) = trail.pop() {
            vars[n] = Word::Var(n);
        }
    }
}
