//! Unification (ISO/IEC 13211-1, 7.3).
ghost use Rattle.std.specs.Prelude.{◌≡◌, ◌≢◌, ℕ, ◌+◌, ◌<◌, ◌^◌, ◌∷◌, ◌++◌, [], not, length, reverse, true, None, IfOk, OnOk, IsTrue, MatchBool};
ghost use Rattle.unifier_model.specs.Substitution.{occurs};
ghost use Rattle.unifier_model.specs.Unifier.{Solved};
ghost use Rattle.pl_unify.specs.Words.{IsFree, WordIn};
ghost use Rattle.pl_unify.specs.State.{IsRef, tree_of_word, bound};
ghost use Rattle.pl_unify.specs.Steps.{pair_span, PairsBelow, IsStep, IsTurn, OnlyBinds, Unified, NotUnified, equations};
ghost use Rattle.pl_unify.specs.Match.{SolvedBy};

use super::Store;
use crate::list::{make_room, push, put};
use crate::word::{Ref, Word};
use pl_atoms::NoMemory;

// What the words of the two sides of an equation call for.
#[derive(Drop)]
enum Turn {
    // Both sides are one tree.
    Same,
    // No unifier exists.
    Clash,
    // The left side is a variable, to be bound to the right side.
    Left(usize),
    // The right side is a variable, to be bound to the left side.
    Right(usize),
    // The arguments are equal where the sides are, from these places on.
    Parts(usize, usize, u8),
}

// How a list of equations goes on.
#[derive(Drop)]
enum Next {
    Done,
    Clash,
    Bind(usize, Word),
}

impl Store {
    /// Unifies the terms of two places (ISO/IEC 13211-1, 7.3.2): true where a unifier exists, and then their most general
    /// unifier is applied to all terms; of two variables the one with the higher number is bound. Where it is not
    /// Ok(true), all is as before.
    pub fn unify(&mut self, a: Ref, b: Ref) -> Result<bool, NoMemory>
        requires { IsRef self.old.state a × IsRef self.old.state b }
        ensures answer { IfOk result (λ yes. MatchBool yes (Unified self.old.state self.new.state a b) (NotUnified self.old.state a b)) }
        ensures unchanged { (result ≢ Ok true) → self.new.state ≡ self.old.state }
        ensures only { OnlyBinds self.old.state self.new.state }
    {
        let mark = self.mark();
        match self.solve_pair(a, b) {
            Ok(true) => Ok(true),
            other => {
                self.undo(&mark);
                other
            }
        }
    }

    fn solve_pair(&mut self, a: Ref, b: Ref) -> Result<bool, NoMemory>
        requires { IsRef self.old.state a × IsRef self.old.state b }
        ensures only { OnlyBinds self.old.state self.new.state }
        ensures answer { IfOk result (λ yes. MatchBool yes (Unified self.old.state self.new.state a b) (NotUnified self.old.state a b)) }
    {
        let mut work = self.take_equations();
        push(&mut work, (a.0, b.0))?;
        let solved = self.solve(&mut work);
        self.keep_equations(work);
        solved
    }

    /// Solves the equation of two words (ISO/IEC 13211-1, 7.3.2): true where a unifier exists, and then their most general
    /// unifier is applied to all terms. Where it is not `Ok(true)`, bindings may have been added: the caller goes back to a mark.
    pub fn solve_words(&mut self, left: Word, right: Word) -> Result<bool, NoMemory>
        requires left { WordIn (length self.old.state.cells) self.old.state.next left }
        requires right { WordIn (length self.old.state.cells) self.old.state.next right }
        ensures only { OnlyBinds self.old.state self.new.state }
        ensures answer { IfOk result (λ yes. MatchBool yes
            (SolvedBy self.old.state self.new.state ((tree_of_word self.old.state left, tree_of_word self.old.state right) ∷ []))
            (Solved ((tree_of_word self.old.state left, tree_of_word self.old.state right) ∷ []) None)) }
    {
        let _next = self.next_var();
        let left = self.resolve(left);
        let right = self.resolve(right);
        match turn_of(left, right) {
            Turn::Same => Ok(true),
            Turn::Clash => Ok(false),
            Turn::Left(n) => self.bind_word(n, right),
            Turn::Right(n) => self.bind_word(n, left),
            Turn::Parts(first, second, count) => {
                let mut work = self.take_equations();
                push_pairs(&mut work, first, second, count)?;
                let solved = self.solve(&mut work);
                self.keep_equations(work);
                solved
            }
        }
    }

    // Binds an unbound variable to a word that is followed to its end, unless it occurs there.
    pub(super) fn bind_word(&mut self, n: usize, word: Word) -> Result<bool, NoMemory>
        requires number { n < self.old.state.next }
        requires free { IsFree n self.old.state.links }
        requires within { WordIn (length self.old.state.cells) self.old.state.next word }
        requires ahead { (m : ℕ) → word ≡ Word.Var m → IsFree m self.old.state.links }
        ensures only { OnlyBinds self.old.state self.new.state }
        ensures bound { IfOk result (λ yes. IsTrue yes → bound self.new.state ≡ bound self.old.state ++ (n, tree_of_word self.old.state word) ∷ []) }
        ensures inside { IfOk result (λ yes. occurs n (tree_of_word self.old.state word) ≡ not yes) }
    {
        if self.occurs(n, word)? {
            return Ok(false);
        }
        self.reserve_binding()?;
        self.attach(n, word);
        Ok(true)
    }

    // Solves the equations of pairs of places.
    fn solve(&mut self, work: &mut Vec<(usize, usize)>) -> Result<bool, NoMemory>
        requires { PairsBelow (length self.old.state.cells) (reverse work.old.items) }
        ensures only { OnlyBinds self.old.state self.new.state }
        ensures answer { IfOk result (λ yes. MatchBool yes (SolvedBy self.old.state self.new.state (equations self.old.state work.old.items))
            (Solved (equations self.old.state work.old.items) None)) }
    {
        'turns: loop {
            match self.next_binding(work)? {
                Next::Done => return Ok(true),
                Next::Clash => return Ok(false),
                Next::Bind(n, word) => {
                    if self.occurs(n, word)? {
                        return Ok(false);
                    }
                    self.reserve_binding()?;
                    self.attach(n, word);
                }
            }
        }
    }

    // Takes equations off up to the first that binds a variable.
    fn next_binding(&self, work: &mut Vec<(usize, usize)>) -> Result<Next, NoMemory>
        requires { PairsBelow (length self.now.state.cells) (reverse work.old.items) }
        ensures { IfOk result (λ next. IsStep self.now.state work.old.items work.new.items next) }
    {
        while let Some((p, q)) = work.pop() {
            let left = self.word_at(Ref(p));
            let right = self.word_at(Ref(q));
            match turn_of(left, right) {
                Turn::Same => {}
                Turn::Clash => return Ok(Next::Clash),
                Turn::Left(n) => return Ok(Next::Bind(n, right)),
                Turn::Right(n) => return Ok(Next::Bind(n, left)),
                Turn::Parts(first, second, count) => {
                    push_pairs(work, first, second, count)?;
                }
            }
        }
        Ok(Next::Done)
    }
}

// What two unbound variables call for: the higher one is bound to the lower one.
fn turn_of_variables(n: usize, m: usize) -> Turn
    ensures { IsTurn (Word.Var n) (Word.Var m) result }
{
    if m < n {
        Turn::Left(n)
    } else if n < m {
        Turn::Right(m)
    } else {
        Turn::Same
    }
}

// What two words call for that are followed to their ends.
fn turn_of(left: Word, right: Word) -> Turn
    ensures { IsTurn left right result }
{
    match left {
        Word::Var(n) => match right {
            Word::Var(m) => turn_of_variables(n, m),
            _ => Turn::Left(n),
        },
        Word::Int(x) => match right {
            Word::Var(m) => Turn::Right(m),
            Word::Int(y) => { if x == y { Turn::Same } else { Turn::Clash } }
            _ => Turn::Clash,
        },
        Word::Name(a) => match right {
            Word::Var(m) => Turn::Right(m),
            Word::Name(b) => { if a == b { Turn::Same } else { Turn::Clash } }
            _ => Turn::Clash,
        },
        Word::Comp(j, f, first) => match right {
            Word::Var(m) => Turn::Right(m),
            Word::Comp(k, g, second) => {
                if f != g {
                    Turn::Clash
                } else if j != k {
                    Turn::Clash
                } else if first == second {
                    Turn::Same
                } else {
                    Turn::Parts(first, second, k)
                }
            }
            _ => Turn::Clash,
        },
    }
}

// Puts `count` pairs of places on last, so that the first of them is the next one.
pub(super) fn push_pairs(
    work: &mut Vec<(usize, usize)>,
    first: usize,
    second: usize,
    count: u8,
) -> Result<(), NoMemory>
    requires first { first + count < 2 ^ 64 }
    requires second { second + count < 2 ^ 64 }
    ensures { OnOk result (reverse work.new.items ≡ pair_span first second count ++ reverse work.old.items) }
{
    let mut left = count as usize;
    make_room(work, left)?;
    while left > 0 {
        left -= 1;
        put(work, (first + left, second + left));
    }
    Ok(())
}
