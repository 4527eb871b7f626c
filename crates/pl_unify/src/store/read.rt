//! Reading terms of a store.
ghost use Rattle.std.specs.Prelude.{◌≡◌, ℕ, ◌+◌, ◌<◌, ◌^◌, ◌++◌, length, reverse, IfOk, OnOk};
ghost use Rattle.pl_unify.specs.Words.{IsFree, WordIn};
ghost use Rattle.pl_unify.specs.State.{IsStore, IsRef, tree_at, tree_of_word, shape};
ghost use Rattle.pl_unify.specs.Shape.{root, arity, argument};
ghost use Rattle.pl_unify.specs.Stack.{span};

use super::Store;
use crate::list::{make_room, push, put};
use crate::word::{Ref, View, Word};
use pl_atoms::NoMemory;
use pl_terms::{Cell, Term, TermBuf};
use std::alloc::Global;

impl Store {
    /// Follows the bindings of a word to an unbound variable or to no variable.
    pub fn resolve(&self, word: Word) -> Word
        requires { WordIn (length self.now.state.cells) self.now.state.next word }
        ensures same { tree_of_word self.now.state result ≡ tree_of_word self.now.state word }
        ensures within { WordIn (length self.now.state.cells) self.now.state.next result }
        ensures free { (n : ℕ) → result ≡ Word.Var n → IsFree n self.now.state.links }
    {
        let mut word = word;
        while let Word::Var(n) = word {
            match self.vars[n] {
                Word::Var(m) => {
                    if m == n {
                        break;
                    }
                    word = Word::Var(m);
                }
                other => return other,
            }
        }
        word
    }

    // The word of a place, bindings followed.
    pub(super) fn word_at(&self, at: Ref) -> Word
        requires { IsRef self.now.state at }
        ensures shape { tree_at self.now.state at ≡ shape self.now.state result }
        ensures within { WordIn (length self.now.state.cells) self.now.state.next result }
        ensures free { (n : ℕ) → result ≡ Word.Var n → IsFree n self.now.state.links }
        ensures store { IsStore self.now.state }
        ensures small { length self.now.state.cells < 2 ^ 63 }
    {
        self.resolve(self.cells[at.0])
    }

    // The word that stands at a place.
    pub(super) fn cell(&self, place: usize) -> Word
        requires { place < length self.now.state.cells }
        ensures tree { tree_of_word self.now.state result ≡ tree_at self.now.state (record { 0 = place }) }
        ensures within { WordIn (length self.now.state.cells) self.now.state.next result }
        ensures small { length self.now.state.cells < 2 ^ 63 }
    {
        self.cells[place]
    }

    /// What stands at the root of the term of a place, bindings followed.
    pub fn view(&self, at: Ref) -> View
        requires { IsRef self.now.state at }
        ensures { result ≡ root (tree_at self.now.state at) }
    {
        match self.word_at(at) {
            Word::Var(n) => View::Var(n),
            Word::Int(value) => View::Int(value),
            Word::Name(name) => View::Name(name),
            Word::Comp(arity, name, _) => View::Comp(name, arity),
        }
    }

    /// The place of an argument of the compound at a place, counted from 0.
    pub fn arg(&self, at: Ref, k: u8) -> Ref
        requires place { IsRef self.now.state at }
        requires argument { k < arity (tree_at self.now.state at) }
        ensures place { IsRef self.now.state result }
        ensures tree { tree_at self.now.state result ≡ argument (tree_at self.now.state at) k }
    {
        match self.word_at(at) {
            Word::Comp(_, _, first) => Ref(first + k as usize),
            _ => unreachable!(),
        }
    }

    /// The term of a place, bindings followed, with the numbers that its variables have here.
    pub fn copy_out(&self, alloc: Global, at: Ref) -> Result<Term, NoMemory>
        requires { IsRef self.now.state at }
        ensures { IfOk result (λ term. term ≡ tree_at self.now.state at) }
    {
        let mut cells = TermBuf::new(alloc);
        let mut work = Vec::new(alloc);
        push(&mut work, at.0)?;
        while let Some(place) = work.pop() {
            match self.word_at(Ref(place)) {
                Word::Var(n) => cells.push(Cell::Var(n))?,
                Word::Int(value) => cells.push(Cell::Int(value))?,
                Word::Name(name) => cells.push(Cell::Name(name))?,
                Word::Comp(arity, name, first) => {
                    cells.push(Cell::Comp(name, arity))?;
                    push_span(&mut work, first, arity)?;
                }
            }
        }
        Ok(cells.end_whole())
    }
}

// Puts `count` places from `first` on last, so that the first of them is the next one.
fn push_span(work: &mut Vec<usize>, first: usize, count: u8) -> Result<(), NoMemory>
    requires { first + count < 2 ^ 64 }
    ensures { OnOk result (reverse work.new.items ≡ span first count ++ reverse work.old.items) }
{
    let mut left = count as usize;
    make_room(work, left)?;
    while left > 0 {
        left -= 1;
        put(work, first + left);
    }
    Ok(())
}
