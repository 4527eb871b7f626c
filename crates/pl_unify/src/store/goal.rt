//! A goal's arguments against the code of a head, and terms of code at places of their own.
ghost use Rattle.std.specs.Prelude.{◌≡◌, ◌+◌, ◌<◌, ◌≤◌, ◌^◌, max, length, None, MatchBool, IfOk};
ghost use Rattle.unifier_model.specs.Unifier.{Solved};
ghost use Rattle.pl_unify.specs.Words.{WordIn};
ghost use Rattle.pl_unify.specs.State.{IsRef, Extends, Grows, tree_at, tree_of_word};
ghost use Rattle.pl_unify.specs.Shape.{arity};
ghost use Rattle.pl_unify.specs.Code.{code_tree_in};
ghost use Rattle.pl_unify.specs.Match.{SolvedBy};
ghost use Rattle.pl_unify.specs.Arguments.{arguments_of, argument_equations};

use super::Store;
use super::head::Span;
use crate::code::Code;
use crate::word::{Ref, Word};
use pl_atoms::NoMemory;

impl Code {
    /// A number that the numbers of all variables in the code are below.
    pub fn vars(&self) -> usize
        ensures vars { result ≡ self.now.vars }
        ensures small { self.now.vars < 2 ^ 63 }
    {
        self.vars
    }
}

impl Store {
    /// Makes the term that the code has at a place, at a place of the store's own, with the variables numbered from
    /// `base` on. NoMemory: places and variables may have been added.
    pub fn build_place(&mut self, code: &Code, p: usize, base: usize) -> Result<Ref, NoMemory>
        requires place { p < length code.now.words }
        requires base { base ≤ self.old.state.next }
        ensures grows { Grows self.old.state self.new.state }
        ensures next { self.new.state.next ≤ max self.old.state.next (code.now.vars + base) }
        ensures place { IfOk result (λ at. IsRef self.new.state at) }
        ensures tree { IfOk result (λ at. tree_at self.new.state at ≡ code_tree_in self.old.state base code.now.words p) }
    {
        let word = self.build(code, p, base)?;
        self.place_of_word(word)
    }

    // Puts a word at a place of its own.
    fn place_of_word(&mut self, word: Word) -> Result<Ref, NoMemory>
        requires { WordIn (length self.old.state.cells) self.old.state.next word }
        ensures grows { Grows self.old.state self.new.state }
        ensures next { self.new.state.next ≡ self.old.state.next }
        ensures place { IfOk result (λ at. IsRef self.new.state at) }
        ensures tree { IfOk result (λ at. tree_at self.new.state at ≡ tree_of_word self.old.state word) }
    {
        let place = self.cells.len();
        self.reserve(1, 0, 0)?;
        self.put_word(word);
        Ok(Ref(place))
    }

    /// Solves the equations of the goal's arguments and the places of the code from `at` on, with the code's variables
    /// numbered from `base` on (ISO/IEC 13211-1, 7.7.10). Where it is not `Ok(true)`, bindings, places and variables may
    /// have been added: the caller goes back to a mark.
    pub fn head_of(
        &mut self,
        goal: Ref,
        code: &Code,
        at: usize,
        base: usize,
    ) -> Result<bool, NoMemory>
        requires goal { IsRef self.old.state goal }
        requires places { at + arity (tree_at self.old.state goal) ≤ length code.now.words }
        requires base { base ≤ self.old.state.next }
        ensures extends { Extends self.old.state self.new.state }
        ensures next { self.new.state.next ≤ max self.old.state.next (code.now.vars + base) }
        ensures answer { IfOk result (λ yes. MatchBool yes
            (SolvedBy self.old.state self.new.state (argument_equations self.old.state base code.now.words at (arguments_of (tree_at self.old.state goal))))
            (Solved (argument_equations self.old.state base code.now.words at (arguments_of (tree_at self.old.state goal))) None)) }
    {
        match self.word_at(goal) {
            Word::Comp(count, _, first) => {
                let span = Span {
                    place: first,
                    code: at,
                    left: count as usize,
                };
                self.match_span(span, code, base)
            }
            _ => Ok(true),
        }
    }
}
