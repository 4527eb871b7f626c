//! The code of terms: the form of a clause's terms that a store matches and builds.
ghost use Rattle.std.specs.Prelude.{◌≡◌, ℕ, ◌+◌, ◌<◌, ◌≤◌, ◌^◌, ◌∷◌, ◌++◌, [], length, slice_index_or, IfOk, OnOk, take, drop, reverse};
ghost use Rattle.pl_terms.specs.Cells.{cells};
ghost use Rattle.pl_unify.specs.Prefix.{with_cell, Has};
ghost use Rattle.pl_unify.specs.Shape.{root, arity, argument};
ghost use Rattle.pl_unify.specs.Coding.{Coded, piece_trees};
ghost use Rattle.pl_unify.specs.Code.{VarsBelow, start_of, piece_words, last_tree, IsCode, no_code, code_tree};

use crate::list::push;
use crate::word::{View, int_view};
use pl_atoms::{NameId, NoMemory};
use pl_terms::{Cell, Term};
use std::alloc::Global;
use std::marker::Model;

/// What stands at a place of the code of terms.
#[derive(Clone, Copy, Debug)]
pub enum CodeWord {
    /// A variable by its number in the clause.
    Var(usize),
    /// An integer.
    Int(i64),
    /// An atom.
    Name(NameId),
    /// A compound's number of arguments, at least 1, its name, the place of its first argument, and the place from which
    /// on all that it consists of stands.
    Comp(u8, NameId, usize, usize),
}

/// Terms in the form that is matched and built. A compound's arguments stand in a block before it, and what they
/// consist of before that block.
#[derive(Drop)]
pub struct Code {
    pub(crate) words: Vec<CodeWord>,
    // All variables are below.
    pub(crate) vars: usize,
}

impl Model for Code {
    ghost use Rattle.pl_unify.specs.Code.{Layout, IsCode};

    ghost Value = { Layout };

    ghost view = { λ c. record { words = c.words.items; vars = c.vars } };

    ghost invariant = { λ c. IsCode c.words.items c.vars };
}

impl Code {
    /// How many places the code has.
    pub fn len(&self) -> usize
        ensures len { result ≡ length self.now.words }
        ensures small { length self.now.words < 2 ^ 63 }
    {
        self.words.len()
    }

    /// The code of a term, whose last place is the term's.
    pub fn of(alloc: Global, term: &Term, vars: usize) -> Result<Code, NoMemory>
        requires vars { VarsBelow vars (cells term.now) }
        requires small { vars < 2 ^ 63 }
        ensures tree { IfOk result (λ code. last_tree code.words ≡ term.now) }
        ensures some { IfOk result (λ code. 0 < length code.words) }
        ensures vars { IfOk result (λ code. code.vars ≡ vars) }
    {
        let cells = term.cells();
        let mut words: Vec<CodeWord> = Vec::new(alloc);
        let mut pieces: Vec<(CodeWord, usize)> = Vec::new(alloc);
        let mut left = cells.len();
        while left > 0 {
            left -= 1;
            add_code(cells[left], &mut words, &mut pieces, vars)?;
        }
        match pieces.pop() {
            Some((word, _)) => {
                push(&mut words, word)?;
                Ok(Code { words, vars })
            }
            None => unreachable!(),
        }
    }

    /// What stands at the root of the term of a place.
    pub fn view(&self, p: usize) -> View
        requires { p < length self.now.words }
        ensures { result ≡ root (code_tree self.now.words p) }
    {
        match self.word(p) {
            CodeWord::Var(n) => View::Var(n),
            CodeWord::Int(value) => int_view(value),
            CodeWord::Name(name) => View::Name(name),
            CodeWord::Comp(arity, name, _, _) => View::Comp(name, arity),
        }
    }

    /// How many arguments stand at a place.
    pub fn arity(&self, p: usize) -> u8
        requires { p < length self.now.words }
        ensures { result ≡ arity (code_tree self.now.words p) }
    {
        match self.word(p) {
            CodeWord::Comp(arity, _, _, _) => arity,
            _ => 0,
        }
    }

    /// The place of a compound's first argument.
    pub fn arguments(&self, p: usize) -> usize
        requires place { p < length self.now.words }
        requires some { 0 < arity (code_tree self.now.words p) }
        ensures places { result + arity (code_tree self.now.words p) ≤ length self.now.words }
        ensures trees { (i : ℕ) → i < arity (code_tree self.now.words p) → code_tree self.now.words (result + i) ≡ argument (code_tree self.now.words p) i }
    {
        match self.word(p) {
            CodeWord::Comp(_, _, first, _) => first,
            _ => unreachable!(),
        }
    }

    // The word at a place.
    pub(crate) fn word(&self, p: usize) -> CodeWord
        requires { p < length self.now.words }
        ensures word { result ≡ slice_index_or self.now.words p no_code }
        ensures code { IsCode self.now.words self.now.vars }
        ensures small { length self.now.words < 2 ^ 63 }
    {
        self.words[p]
    }
}

// Makes the piece of a cell from the pieces of the cells behind it.
fn add_code(
    cell: Cell,
    words: &mut Vec<CodeWord>,
    pieces: &mut Vec<(CodeWord, usize)>,
    vars: usize,
) -> Result<(), NoMemory>
    requires vars { VarsBelow vars (cell ∷ []) }
    requires enough { Has cell (length pieces.old.items) }
    requires coded { Coded words.old.items vars (reverse pieces.old.items) }
    ensures coded { OnOk result (Coded words.new.items vars (reverse pieces.new.items)) }
    ensures trees { OnOk result (piece_trees words.new.items (reverse pieces.new.items) ≡ with_cell cell (piece_trees words.old.items (reverse pieces.old.items))) }
{
    match cell {
        Cell::Var(n) => push(pieces, (CodeWord::Var(n), words.len())),
        Cell::Int(value) => push(pieces, (CodeWord::Int(value), words.len())),
        Cell::Name(name) => push(pieces, (CodeWord::Name(name), words.len())),
        Cell::Comp(name, arity) => {
            let first = words.len();
            let from = move_pieces(words, pieces, arity)?;
            push(pieces, (CodeWord::Comp(arity, name, first, from), from))
        }
    }
}

// Puts the words of the last `count` pieces behind the code, the very last one first, and says where they start.
fn move_pieces(
    words: &mut Vec<CodeWord>,
    pieces: &mut Vec<(CodeWord, usize)>,
    count: u8,
) -> Result<usize, NoMemory>
    requires enough { count ≤ length pieces.old.items }
    ensures words { OnOk result (words.new.items ≡ words.old.items ++ piece_words (take count (reverse pieces.old.items))) }
    ensures pieces { OnOk result (reverse pieces.new.items ≡ drop count (reverse pieces.old.items)) }
    ensures from { IfOk result (λ from. from ≡ start_of count (length words.old.items) (reverse pieces.old.items)) }
{
    let mut from = words.len();
    let mut left = count;
    while left > 0 {
        left -= 1;
        if let Some((word, start)) = pieces.pop() {
            from = start;
            push(words, word)?;
        }
    }
    Ok(from)
}
