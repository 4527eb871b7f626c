//! Putting terms into a store.
ghost use Rattle.std.specs.Prelude.{◌≡◌, ◌+◌, ◌<◌, ◌≤◌, ◌∷◌, ◌++◌, [], max, take, drop, length, reverse, IfOk, OnOk, OnErr, vec_len, vec_capacity};
ghost use Rattle.unifier_model.specs.Substitution.{apply, raise};
ghost use Rattle.pl_terms.specs.Cells.{cells};
ghost use Rattle.pl_unify.specs.Words.{WordIn, word_tree};
ghost use Rattle.pl_unify.specs.State.{IsStore, IsRef, Extends, Grows, tree_at, bound, base as bases_of};
ghost use Rattle.pl_unify.specs.Shape.{arity};
ghost use Rattle.pl_unify.specs.Prefix.{with_cell, first_tree};
ghost use Rattle.pl_unify.specs.Load.{NewInOrder, next_after, WordsIn, word_trees, CellAllowed, raise_cell};

use super::Store;
use crate::list::{make_room, push, put};
use crate::word::{Ref, Word};
use pl_atoms::{NameId, NoMemory};
use pl_terms::{Cell, Term};

impl Store {
    /// Puts a term into the store. Its variables are numbered from `base` on: a number below `next_var` is that variable
    /// of the store, bindings followed. The others are made; in order of first occurrence they are `next_var` and so on.
    /// NoMemory: all is as before.
    pub fn load(&mut self, term: &Term, base: usize) -> Result<Ref, NoMemory>
        requires { NewInOrder base self.old.state.next (cells term.now) }
        ensures grows { IfOk result (λ at. Grows self.old.state self.new.state) }
        ensures place { IfOk result (λ at. IsRef self.new.state at) }
        ensures tree { IfOk result (λ at. tree_at self.new.state at ≡ apply (bound self.old.state) (raise base term.now)) }
        ensures next { IfOk result (λ at. self.new.state.next ≡ next_after base self.old.state.next (cells term.now)) }
        ensures err { OnErr result (self.new.state ≡ self.old.state) }
        ensures extends { Extends self.old.state self.new.state }
    {
        let mark = self.mark();
        match self.load_cells(term, base) {
            Ok(at) => Ok(at),
            Err(_) => {
                self.undo(&mark);
                Err(NoMemory)
            }
        }
    }

    // As `load`, but after an `Err` there may be further places and variables.
    fn load_cells(&mut self, term: &Term, base: usize) -> Result<Ref, NoMemory>
        requires { NewInOrder base self.old.state.next (cells term.now) }
        ensures grows { Grows self.old.state self.new.state }
        ensures place { IfOk result (λ at. IsRef self.new.state at) }
        ensures tree { IfOk result (λ at. tree_at self.new.state at ≡ apply (bound self.old.state) (raise base term.now)) }
        ensures next { IfOk result (λ at. self.new.state.next ≡ next_after base self.old.state.next (cells term.now)) }
    {
        let mut words = self.take_words();
        let at = self.load_words(term, base, &mut words);
        self.keep_words(words);
        at
    }

    // As `load_cells`, with a list to work on.
    fn load_words(
        &mut self,
        term: &Term,
        base: usize,
        words: &mut Vec<Word>,
    ) -> Result<Ref, NoMemory>
        requires empty { words.old.items ≡ [] }
        requires order { NewInOrder base self.old.state.next (cells term.now) }
        ensures grows { Grows self.old.state self.new.state }
        ensures place { IfOk result (λ at. IsRef self.new.state at) }
        ensures tree { IfOk result (λ at. tree_at self.new.state at ≡ apply (bound self.old.state) (raise base term.now)) }
        ensures next { IfOk result (λ at. self.new.state.next ≡ next_after base self.old.state.next (cells term.now)) }
    {
        let _next = self.next_var();
        let cells = term.cells();
        let mut left = cells.len();
        while left > 0 {
            left -= 1;
            self.add_cell(cells[left], base, words)?;
        }
        self.place_of_last(words)
    }

    // Makes the word of a cell from the words of the cells behind it.
    fn add_cell(&mut self, cell: Cell, base: usize, words: &mut Vec<Word>) -> Result<(), NoMemory>
        requires allowed { CellAllowed base (length words.old.items) cell }
        requires words { WordsIn (length self.old.state.cells) self.old.state.next (reverse words.old.items) }
        ensures grows { Grows self.old.state self.new.state }
        ensures next { OnOk result (self.new.state.next ≡ next_after base self.old.state.next (cell ∷ [])) }
        ensures words { OnOk result (WordsIn (length self.new.state.cells) self.new.state.next (reverse words.new.items)) }
        ensures trees { OnOk result (word_trees self.new.state words.new.items ≡ with_cell (raise_cell base cell) (word_trees self.old.state words.old.items)) }
    {
        match cell {
            Cell::Var(n) => {
                self.make_variable(n + base)?;
                push(words, Word::Var(n + base))
            }
            Cell::Int(value) => push(words, Word::Int(value)),
            Cell::Name(name) => push(words, Word::Name(name)),
            Cell::Comp(name, arity) => {
                let word = self.compound_word(name, arity, words)?;
                push(words, word)
            }
        }
    }

    // Makes the variables up to this number that are not there yet.
    fn make_variable(&mut self, n: usize) -> Result<(), NoMemory>
        ensures grows { Grows self.old.state self.new.state }
        ensures cells { self.new.state.cells ≡ self.old.state.cells }
        ensures next { OnOk result (self.new.state.next ≡ max (n + 1) self.old.state.next) }
    {
        while self.next_var() <= n {
            self.add_variable()?;
        }
        Ok(())
    }

    // The word of a compound whose arguments are the last words.
    fn compound_word(
        &mut self,
        name: NameId,
        arity: u8,
        words: &mut Vec<Word>,
    ) -> Result<Word, NoMemory>
        requires some { 0 < arity }
        requires enough { arity ≤ length words.old.items }
        requires words { WordsIn (length self.old.state.cells) self.old.state.next (reverse words.old.items) }
        ensures grows { Grows self.old.state self.new.state }
        ensures next { self.new.state.next ≡ self.old.state.next }
        ensures words { OnOk result (WordsIn (length self.new.state.cells) self.new.state.next (reverse words.new.items)) }
        ensures word { IfOk result (λ word. WordIn (length self.new.state.cells) self.new.state.next word) }
        ensures trees { IfOk result (λ word. word_tree (bases_of self.new.state) word ∷ word_trees self.new.state words.new.items
            ≡ with_cell (Cell.Comp name arity) (word_trees self.old.state words.old.items)) }
        ensures store { IsStore self.new.state }
    {
        let first = self.cells.len();
        make_room(&mut self.cells, arity as usize)?;
        move_words(&mut self.cells, words, arity);
        Ok(Word::Comp(arity, name, first))
    }

    // Puts the last word at a place of its own.
    fn place_of_last(&mut self, words: &mut Vec<Word>) -> Result<Ref, NoMemory>
        requires words { WordsIn (length self.old.state.cells) self.old.state.next (reverse words.old.items) }
        requires some { 0 < length words.old.items }
        ensures grows { Grows self.old.state self.new.state }
        ensures next { self.new.state.next ≡ self.old.state.next }
        ensures place { IfOk result (λ at. IsRef self.new.state at) }
        ensures tree { IfOk result (λ at. tree_at self.new.state at ≡ apply (bound self.old.state) (first_tree (word_trees self.old.state words.old.items))) }
    {
        let at = self.cells.len();
        make_room(&mut self.cells, 1)?;
        move_words(&mut self.cells, words, 1);
        Ok(Ref(at))
    }
}

// Puts the last `count` words behind the cells, the very last one first.
fn move_words(cells: &mut Vec<Word>, words: &mut Vec<Word>, count: u8)
    requires room { vec_len cells.old + count ≤ vec_capacity cells.old }
    requires enough { count ≤ length words.old.items }
    ensures cells { cells.new.items ≡ cells.old.items ++ take count (reverse words.old.items) }
    ensures words { reverse words.new.items ≡ drop count (reverse words.old.items) }
{
    let mut left = count;
    while left > 0 {
        left -= 1;
        if let Some(word) = words.pop() {
            put(cells, word);
        }
    }
}
