//! Building terms from code.
ghost use Rattle.std.specs.Prelude.{◌≡◌, ◌≢◌, ℕ, ◌+◌, ◌-◌, ◌<◌, ◌≤◌, ◌^◌, ◌++◌, max, map, take, drop, length, slice_index_or, IfOk, OnOk, OnErr, vec_len, vec_capacity};
ghost use Rattle.unifier_model.specs.Substitution.{raise};
ghost use Rattle.pl_terms.specs.Trees.{var};
ghost use Rattle.pl_terms.specs.Cells.{cells};
ghost use Rattle.pl_unify.specs.Words.{WordIn};
ghost use Rattle.pl_unify.specs.State.{Grows, tree_of_word, base as bases_of};
ghost use Rattle.pl_unify.specs.Code.{IsCode, IsCompound, Closed, no_code, code_tree, code_tree_in, placed, RaisedBelow, own_words, From};

use super::Store;
use crate::code::{Code, CodeWord};
use crate::list::{make_room, put};
use crate::word::{Word, int_word};
use pl_atoms::NoMemory;

impl Store {
    /// Builds what the code has at a place, with the variables numbered from `base` on.
    pub fn build(&mut self, code: &Code, p: usize, base: usize) -> Result<Word, NoMemory>
        requires place { p < length code.now.words }
        requires base { base ≤ self.old.state.next }
        ensures grows { Grows self.old.state self.new.state }
        ensures next { self.new.state.next ≤ max self.old.state.next (code.now.vars + base) }
        ensures within { IfOk result (λ word. WordIn (length self.new.state.cells) self.new.state.next word) }
        ensures tree { IfOk result (λ word. tree_of_word self.new.state word ≡ code_tree_in self.old.state base code.now.words p) }
    {
        self.build_word(code, p, base)
    }

    // As `build`; what it builds of a compound is no variable.
    pub(super) fn build_word(
        &mut self,
        code: &Code,
        p: usize,
        base: usize,
    ) -> Result<Word, NoMemory>
        requires place { p < length code.now.words }
        requires base { base ≤ self.old.state.next }
        ensures grows { Grows self.old.state self.new.state }
        ensures next { self.new.state.next ≤ max self.old.state.next (code.now.vars + base) }
        ensures within { IfOk result (λ word. WordIn (length self.new.state.cells) self.new.state.next word) }
        ensures tree { IfOk result (λ word. tree_of_word self.new.state word ≡ code_tree_in self.old.state base code.now.words p) }
        ensures compound { IfOk result (λ word. IsCompound (slice_index_or code.now.words p no_code) → (n : ℕ) → word ≢ Word.Var n) }
    {
        match code.word(p) {
            CodeWord::Var(n) => {
                let _next = self.next_var();
                self.make_below(n + base + 1)?;
                Ok(Word::Var(n + base))
            }
            CodeWord::Int(value) => Ok(int_word(value)),
            CodeWord::Name(name) => Ok(Word::Name(name)),
            CodeWord::Comp(arity, name, first, from) => {
                let at = self.build_range(code, from, first + arity as usize, base)?;
                Ok(Word::Comp(arity, name, first - from + at))
            }
        }
    }

    // Puts a range of code behind the places, and makes the variables in it that are not there yet.
    fn build_range(
        &mut self,
        code: &Code,
        from: usize,
        to: usize,
        base: usize,
    ) -> Result<usize, NoMemory>
        requires range { from ≤ to × to ≤ length code.now.words }
        requires closed { Closed code.now.words from to }
        requires base { base ≤ self.old.state.next }
        ensures grows { Grows self.old.state self.new.state }
        ensures next { self.new.state.next ≤ max self.old.state.next (code.now.vars + base) }
        ensures at { IfOk result (λ at. (at ≡ length self.old.state.cells) × ((to - from) + at ≤ length self.new.state.cells) × (at < 2 ^ 63)) }
        ensures trees { IfOk result (λ at. (q : ℕ) → from ≤ q → q < to → slice_index_or (bases_of self.new.state) ((q - from) + at) (var 0) ≡ raise base (code_tree code.now.words q)) }
    {
        let at = self.cells.len();
        let next = self.vars.len();
        make_room(&mut self.cells, to - from)?;
        let top = copy_code(
            &mut self.cells,
            &code.words,
            from,
            to,
            base,
            next,
            code.vars,
        );
        match make_up_to(&mut self.vars, top) {
            Ok(()) => Ok(at),
            Err(_) => {
                self.cells.truncate(at);
                Err(NoMemory)
            }
        }
    }
}

// Copies a range of code behind the places. The answer is a number that the numbers of its variables are below,
// `next` or higher.
fn copy_code(
    cells: &mut Vec<Word>,
    words: &Vec<CodeWord>,
    from: usize,
    to: usize,
    base: usize,
    next: usize,
    vars: usize,
) -> usize
    requires range { from ≤ to × to ≤ length words.now.items }
    requires code { IsCode words.now.items vars }
    requires closed { Closed words.now.items from to }
    requires base { base < 2 ^ 63 }
    requires room { vec_len cells.old + (to - from) ≤ vec_capacity cells.old }
    ensures cells { cells.new.items ≡ cells.old.items ++ map (placed base from (length cells.old.items)) (take (to - from) (drop from words.now.items)) }
    ensures up { next ≤ result }
    ensures few { result ≤ max next (vars + base) }
    ensures below { (i : ℕ) → from ≤ i → i < to → RaisedBelow result base (slice_index_or words.now.items i no_code) }
{
    let at = cells.len();
    let mut top = next;
    for i in from..to {
        let (word, raised) = place_word(words, i, from, at, base, top, vars);
        top = raised;
        put(cells, word);
    }
    top
}

// The word of a store for one of a range of code, and the number with it.
fn place_word(
    words: &Vec<CodeWord>,
    i: usize,
    from: usize,
    at: usize,
    base: usize,
    top: usize,
    vars: usize,
) -> (Word, usize)
    requires place { i < length words.now.items }
    requires code { IsCode words.now.items vars }
    requires from { From from (slice_index_or words.now.items i no_code) }
    requires base { base < 2 ^ 63 }
    requires at { at < 2 ^ 63 }
    ensures word { result.0 ≡ placed base from at (slice_index_or words.now.items i no_code) }
    ensures up { top ≤ result.1 }
    ensures few { result.1 ≤ max top (vars + base) }
    ensures below { RaisedBelow result.1 base (slice_index_or words.now.items i no_code) }
{
    match words[i] {
        CodeWord::Var(n) => {
            let n = n + base;
            let raised = if n < top { top } else { n + 1 };
            (Word::Var(n), raised)
        }
        CodeWord::Int(value) => (Word::Int(value), top),
        CodeWord::Name(name) => (Word::Name(name), top),
        CodeWord::Comp(arity, name, first, _) => {
            (Word::Comp(arity, name, first - from + at), top)
        }
    }
}

// Makes unbound variables up to a number.
fn make_up_to(vars: &mut Vec<Word>, top: usize) -> Result<(), NoMemory>
    requires { length vars.old.items ≤ top }
    ensures ok { OnOk result (vars.new.items ≡ vars.old.items ++ own_words (length vars.old.items) (top - length vars.old.items)) }
    ensures err { OnErr result (vars.new.items ≡ vars.old.items) }
{
    make_room(vars, top - vars.len())?;
    while vars.len() < top {
        let n = vars.len();
        put(vars, Word::Var(n));
    }
    Ok(())
}
