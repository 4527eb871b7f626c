//! The occurs check, and notes of blocks without unbound variables.
ghost use Rattle.std.specs.Prelude.{◌≡◌, ℕ, ◌+◌, ◌-◌, ◌<◌, ◌≤◌, ◌^◌, ◌++◌, length, reverse, slice_index_or, IfOk, IfSome, OnOk, IsTrue};
ghost use Rattle.unifier_model.specs.Substitution.{occurs, occurs_any};
ghost use Rattle.pl_unify.specs.Words.{IsFree, WordIn};
ghost use Rattle.pl_unify.specs.State.{tree_of_word};
ghost use Rattle.pl_unify.specs.Prefix.{trees};
ghost use Rattle.pl_unify.specs.Notes.{GroundBlock, block, InOrder, Forgotten, visits, visit_trees, StepsIn, Honest, Clears, ClearBlock, IsPassed, Entered};

use super::Store;
use crate::list::{make_room, push, put};
use crate::word::{Ref, Word};
use pl_atoms::NoMemory;

// A step of a walk over trees.
#[derive(Clone, Copy)]
pub(super) enum Step {
    // A place is to be visited.
    Visit(usize),
    // A block was visited, before which so many unbound variables had been met.
    Done(usize, u8, usize),
}

impl Store {
    // Whether the variable is in the tree of a word that is followed to its end. Blocks without unbound variables are noted.
    pub(super) fn occurs(&mut self, n: usize, word: Word) -> Result<bool, NoMemory>
        requires within { WordIn (length self.old.state.cells) self.old.state.next word }
        requires free { (m : ℕ) → word ≡ Word.Var m → IsFree m self.old.state.links }
        ensures state { self.new.state ≡ self.old.state }
        ensures answer { IfOk result (λ yes. yes ≡ occurs n (tree_of_word self.old.state word)) }
    {
        let _next = self.next_var();
        let (count, start) = match word {
            Word::Var(m) => return Ok(n == m),
            Word::Comp(arity, _, first) => (arity, first),
            _ => return Ok(false),
        };
        if let Some(found) = self.look(n, start, count) {
            return Ok(found);
        }
        let mut steps = self.take_steps();
        push_visits(&mut steps, start, count)?;
        let found = self.walk(n, &mut steps);
        self.keep_steps(steps);
        found
    }

    // Whether the variable is in a block, unless there are compounds in it.
    fn look(&self, n: usize, first: usize, count: u8) -> Option<bool>
        requires { first + count ≤ length self.now.state.cells }
        ensures { IfSome result (λ yes. yes ≡ occurs_any n (block self.now.state first count)) }
    {
        let _next = self.next_var();
        for k in 0..count as usize {
            match self.word_at(Ref(first + k)) {
                Word::Var(m) => {
                    if n == m {
                        return Some(true);
                    }
                }
                Word::Comp(_, _, _) => return None,
                _ => {}
            }
        }
        Some(false)
    }

    // Whether a walk meets the variable. Blocks that the walk went through are passed where it has met many variables, so that terms
    // whose parts are shared are not gone through path by path.
    fn walk(&mut self, n: usize, work: &mut Vec<Step>) -> Result<bool, NoMemory>
        requires below { StepsIn (length self.old.state.cells) (reverse work.old.items) }
        requires honest { Honest self.old.state 0 (Unit {0}) (reverse work.old.items) }
        requires clears { Clears self.old.state n (Unit {0}) (reverse work.old.items) }
        ensures state { self.new.state ≡ self.old.state }
        ensures answer { IfOk result (λ yes. yes ≡ occurs_any n (trees (visit_trees self.old.state (reverse work.old.items)))) }
    {
        // How many unbound variables were met, or passed.
        let mut met: usize = 0;
        let mut passed: Vec<u8> = Vec::new(self.alloc);
        'steps: while let Some(step) = work.pop() {
            match step {
                Step::Visit(place) => match self.word_at(Ref(place)) {
                    Word::Var(m) if n == m => return Ok(true),
                    Word::Var(_) => met = one_more(met)?,
                    Word::Comp(arity, _, first) => {
                        if self.is_passed(&passed, first, arity) {
                            met = one_more(met)?;
                        } else {
                            self.enter(first, arity, met, work)?;
                        }
                    }
                    _ => {}
                },
                Step::Done(first, arity, before) if before == met => self.note(first, arity),
                Step::Done(first, arity, _) => self.pass(&mut passed, first, arity, met),
            }
        }
        Ok(false)
    }

    // Keeps that a walk went through a block and has not met the variable. The list of these is begun where as many variables were
    // met as there are places, so that making it takes no longer than the walk has taken.
    fn pass(&self, passed: &mut Vec<u8>, first: usize, count: u8, met: usize)
        requires { first + count ≤ length self.now.state.cells }
        ensures { (n : ℕ) → ClearBlock self.now.state n first count → IsPassed self.now.state n passed.old.items → IsPassed self.now.state n passed.new.items }
    {
        let _next = self.next_var();
        if count == 0 || met < self.cells.len() {
            return;
        }
        let last = first + (count - 1) as usize;
        if fill(passed, last) {
            passed[last] = count;
        }
    }

    // Whether a walk went through a block.
    fn is_passed(&self, passed: &Vec<u8>, first: usize, count: u8) -> bool
        requires { first + count ≤ length self.now.state.cells }
        ensures { IsTrue result → (n : ℕ) → IsPassed self.now.state n passed.now.items → ClearBlock self.now.state n first count }
    {
        let _next = self.next_var();
        if count == 0 {
            return false;
        }
        let last = first + (count - 1) as usize;
        last < passed.len() && count <= passed[last]
    }

    // Goes into a block, unless it is noted.
    fn enter(
        &self,
        first: usize,
        count: u8,
        met: usize,
        work: &mut Vec<Step>,
    ) -> Result<(), NoMemory>
        requires { first + count ≤ length self.now.state.cells }
        ensures { OnOk result (Entered self.now.state first count met work.old.items work.new.items) }
    {
        if self.is_noted(first, count) {
            return Ok(());
        }
        let _next = self.next_var();
        push(work, Step::Done(first, count, met))?;
        push_visits(work, first, count)
    }

    // Whether a block is noted as one without unbound variables.
    fn is_noted(&self, first: usize, count: u8) -> bool
        requires { first + count ≤ length self.now.state.cells }
        ensures { IsTrue result → GroundBlock self.now.state first count }
    {
        let _next = self.next_var();
        if count == 0 {
            return true;
        }
        let last = first + (count - 1) as usize;
        if last < self.ground.len() {
            if count <= self.ground[last] {
                return true;
            }
        }
        false
    }

    // Notes a block, unless there is no memory for it.
    fn note(&mut self, first: usize, count: u8)
        requires block { first + count ≤ length self.old.state.cells }
        requires ground { GroundBlock self.old.state first count }
        ensures { self.new.state ≡ self.old.state }
    {
        let _next = self.next_var();
        if count == 0 {
            return;
        }
        let last = first + (count - 1) as usize;
        let bindings = self.trail.len();
        if !fill(&mut self.ground, last) {
            return;
        }
        if self.noted.push((last, bindings)).is_err() {
            return;
        }
        self.ground[last] = count;
    }
}

// Takes off the notes that were made with more bindings, or of later places at the end.
pub(super) fn forget(
    ground: &mut Vec<u8>,
    noted: &mut Vec<(usize, usize)>,
    bindings: usize,
    cells: usize,
)
    requires { InOrder noted.old.items }
    ensures { Forgotten ground.old.items ground.new.items noted.old.items noted.new.items bindings }
{
    'notes: while noted.len() > 0 {
        let (place, then) = noted[noted.len() - 1];
        if then <= bindings {
            if place < cells {
                break;
            }
        }
        let _last = noted.pop();
        if place < ground.len() {
            ground[place] = 0;
        }
    }
}

// Makes room for a note at a place.
fn fill(ground: &mut Vec<u8>, place: usize) -> bool
    ensures same { (p : ℕ) → slice_index_or ground.new.items p 0 ≡ slice_index_or ground.old.items p 0 }
    ensures room { IsTrue result → place < length ground.new.items }
{
    while ground.len() <= place {
        if ground.push(0).is_err() {
            return false;
        }
    }
    true
}

// Puts the visits of `count` places from `first` on last, so that the first of them is the next one.
fn push_visits(work: &mut Vec<Step>, first: usize, count: u8) -> Result<(), NoMemory>
    requires { first + count < 2 ^ 64 }
    ensures { OnOk result (reverse work.new.items ≡ visits first count ++ reverse work.old.items) }
{
    let mut left = count as usize;
    make_room(work, left)?;
    while left > 0 {
        left -= 1;
        put(work, Step::Visit(first + left));
    }
    Ok(())
}

// The next number. A machine has no memory for a walk that long.
fn one_more(met: usize) -> Result<usize, NoMemory>
    ensures { IfOk result (λ more. more ≡ met + 1) }
{
    if met == usize::MAX {
        return Err(NoMemory);
    }
    Ok(met + 1)
}
