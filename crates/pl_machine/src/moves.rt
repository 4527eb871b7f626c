//! The moves of a machine.
ghost use Rattle.std.specs.Prelude.{◌≡◌, ◌+◌, ◌<◌, ℕ, nat_lt, List, length, true, false, Some, MatchOption, IfOk, IfSome, OnErr};
ghost use Rattle.goal_state.specs.Frames.{IsLinked};
ghost use Rattle.goal_moves.specs.declared.going.Going.TheVariants as G;
ghost use Rattle.pl_machine.specs.declared.front.Front.TheVariants as F;
ghost use Rattle.pl_machine.specs.declared.moves.Part.TheVariants as P;
ghost use Rattle.pl_machine.specs.declared.moves.Progress.TheVariants as Progress;
ghost use Rattle.goal_moves.specs.Untried.{has_more};
ghost use Rattle.pl_machine.specs.Fronts.{IsFirst, HasFront, first_at};
ghost use Rattle.pl_machine.specs.Machine.{IsMachine, GoalFirst, IsWaiting};
ghost use Rattle.pl_machine.specs.Moving.{Stepped, Peaked, Stopped, noted, leaves_at, first_leaves};
ghost use Rattle.pl_machine.specs.Running.{Outcomes, Remains, Gives, with_left};
ghost use Rattle.pl_machine.specs.Further.{Does, GoesFurther};
ghost use Rattle.pl_machine.specs.Parts.{Failing, Searching, Answering, Awaits, Did, Acted};

use crate::front::{Front, front_of};
use crate::line::line_of;
use crate::machine::Machine;
use goal_moves::{Active, Going, Rest, Stand, activate_code, activate_term, back, keep_answer};
use pl_atoms::{Bytes, NoMemory};
use prep_report::End2 as End;
use std::alloc::Global;
use std::mem;

/// What stands after a move.
#[derive(Drop)]
pub enum Progress {
    /// Nothing was shown, and a goal stands first, for which a step is left.
    Goal,
    /// Bytes were shown.
    Shown,
    /// The run has ended.
    Ended(End),
}

/// What a part of a move gives.
#[derive(Drop)]
pub enum Part {
    /// An answer was shown.
    Shown,
    /// The search goes on.
    Quiet,
    /// A goal stands first, and is not activated yet.
    Waits(Stand),
    /// The run has ended.
    Ended(End),
}

impl Machine {
    /// Takes one move: activates the goal that stands first, if one does and a step is left, and goes on without a further goal until bytes
    /// are shown, or a goal stands first for which a step is left, or the run has ended. What it shows is put onto `text`.
    ///
    /// The only error is want of memory: `text` is as before.
    pub fn advance(&mut self, alloc: Global, text: &mut Bytes) -> Result<Progress, NoMemory>
        requires machine { IsMachine self.old }
        requires over { self.old.over ≡ false }
        ensures machine { IfOk result (λ p. IsMachine self.new) }
        ensures gives { IfOk result (Gives self.old self.new text.old text.new) }
        ensures step { IfOk result (λ p. Stepped self.old self.new) }
        ensures peak { IfOk result (λ p. Peaked self.old self.new) }
        ensures stops { IfOk result (Stopped self.new text.old text.new) }
        ensures err { OnErr result (text.new ≡ text.old) }
    {
        let mut shown = Bytes::new(alloc);
        let progress = self.step(alloc, &mut shown)?;
        text.extend_from_slice(shown.as_slice())?;
        Ok(progress)
    }

    /// Whether a move or a run has come to the end.
    pub fn has_ended(&self) -> bool
        ensures { result ≡ self.now.over }
    {
        self.over
    }

    // One move. NoMemory: what was shown is open.
    fn step(&mut self, alloc: Global, text: &mut Bytes) -> Result<Progress, NoMemory>
        requires machine { IsMachine self.old }
        requires over { self.old.over ≡ false }
        ensures machine { IfOk result (λ p. IsMachine self.new) }
        ensures gives { IfOk result (Gives self.old self.new text.old text.new) }
        ensures step { IfOk result (λ p. Stepped self.old self.new) }
        ensures peak { IfOk result (λ p. Peaked self.old self.new) }
        ensures stops { IfOk result (Stopped self.new text.old text.new) }
    {
        if let Some(stand) = self.goal_first() {
            self.act(alloc, stand, text)
        } else {
            self.go_on_quietly(alloc, text)
        }
    }

    // The goal that stands first, if one does.
    fn goal_first(&mut self) -> Option<Stand>
        requires { IsMachine self.old }
        ensures machine { IsMachine self.new }
        ensures others { self.new ≡ record self.old { path = record self.old.path { f = self.new.path.f; pc = self.new.path.pc } } }
        ensures remains { (r : Outcomes) → Remains self.old r → Remains self.new r }
        ensures waits { IfSome result (λ stand. IsWaiting self.new (P.Waits stand)) }
        ensures some { IfSome result (λ stand. GoalFirst self.old) }
        ensures none { MatchOption result (GoalFirst self.old → ⊥) (λ _. Unit {0}) }
        ensures leaves { first_leaves self.new ≡ first_leaves self.old }
    {
        let Going::On = &self.going else {
            return None;
        };
        match front_of(&self.compiled, &mut self.path) {
            Front::Goal(stand) => Some(stand),
            _ => None,
        }
    }

    // Whether no step is left.
    fn is_spent(&self) -> bool
        ensures spent { result ≡ true → self.now.left ≡ 0 }
        ensures left { result ≡ false → 0 < self.now.left }
        ensures linked { IsLinked self.now.path.frames }
    {
        let _frame = self.path.frames.get(self.path.f);
        self.left == 0
    }

    // A move that begins with the goal that stands first.
    fn act(&mut self, alloc: Global, stand: Stand, text: &mut Bytes) -> Result<Progress, NoMemory>
        requires machine { IsMachine self.old }
        requires over { self.old.over ≡ false }
        requires waits { IsWaiting self.old (P.Waits stand) }
        ensures machine { IfOk result (λ p. IsMachine self.new) }
        ensures gives { IfOk result (Gives self.old self.new text.old text.new) }
        ensures step { IfOk result (λ p. Stepped self.old self.new) }
        ensures peak { IfOk result (λ p. Peaked self.old self.new) }
        ensures stops { IfOk result (Stopped self.new text.old text.new) }
    {
        if self.is_spent() {
            self.over = true;
            return Ok(Progress::Ended(End::Spent));
        }
        if self.activate(alloc, stand, text)? {
            return Ok(Progress::Shown);
        }
        self.go_on_quietly(alloc, text)
    }

    // Goes on without a step, until bytes are shown, a goal stands first for which a step is left, or the run has ended.
    fn go_on_quietly(&mut self, alloc: Global, text: &mut Bytes) -> Result<Progress, NoMemory>
        requires machine { IsMachine self.old }
        requires over { self.old.over ≡ false }
        ensures machine { IfOk result (λ p. IsMachine self.new) }
        ensures gives { IfOk result (Gives self.old self.new text.old text.new) }
        ensures others { IfOk result (λ p. self.new ≡ record self.old { path = self.new.path; going = self.new.going; answers = self.new.answers; over = self.new.over }) }
        ensures stops { IfOk result (Stopped self.new text.old text.new) }
    {
        match self.settle(alloc, text)? {
            Part::Shown => Ok(Progress::Shown),
            Part::Quiet => unreachable!(),
            Part::Ended(end) => {
                self.over = true;
                Ok(Progress::Ended(end))
            }
            Part::Waits(_) => {
                if self.is_spent() {
                    self.over = true;
                    return Ok(Progress::Ended(End::Spent));
                }
                Ok(Progress::Goal)
            }
        }
    }

    // To the next goal, which is activated, or to the next answer or the end. NoMemory: what was shown is open.
    pub(crate) fn proceed(&mut self, alloc: Global, text: &mut Bytes) -> Result<Progress, NoMemory>
        requires { IsMachine self.old }
        ensures machine { IfOk result (λ p. IsMachine self.new) }
        ensures gives { IfOk result (Gives self.old self.new text.old text.new) }
        ensures over { IfOk result (λ p. self.new.over ≡ self.old.over) }
        ensures further { IfOk result (GoesFurther self.old self.new text.old text.new) }
        ensures grew { IfOk result (λ p. p ≡ Progress.Shown → length text.old < length text.new) }
    {
        match self.settle(alloc, text)? {
            Part::Shown => Ok(Progress::Shown),
            Part::Quiet => Ok(Progress::Goal),
            Part::Ended(end) => Ok(Progress::Ended(end)),
            Part::Waits(stand) => {
                if self.is_spent() {
                    return Ok(Progress::Ended(End::Spent));
                }
                if self.activate(alloc, stand, text)? {
                    Ok(Progress::Shown)
                } else {
                    Ok(Progress::Goal)
                }
            }
        }
    }

    // To the next goal or answer, or to the end. NoMemory: a growth was refused, or there are more parts on the way than a u64 counts: no
    // search comes to that.
    fn settle(&mut self, alloc: Global, text: &mut Bytes) -> Result<Part, NoMemory>
        requires { IsMachine self.old }
        ensures machine { IfOk result (λ part. IsMachine self.new) }
        ensures waits { IfOk result (λ part. IsWaiting self.new part) }
        ensures did { IfOk result (Did (Remains self.old) self.old self.new text.old text.new) }
        ensures further { IfOk result (λ part. (left : ℕ) → Does (Remains (with_left self.old left)) (with_left self.old left) (with_left self.new left) text.old text.new part) }
        ensures settled { IfOk result (λ part. part ≡ P.Quiet → ⊥) }
        ensures others { IfOk result (λ part. self.new ≡ record self.old { path = self.new.path; going = self.new.going; answers = self.new.answers }) }
        ensures grew { IfOk result (λ part. part ≡ P.Shown → length text.old < length text.new) }
    {
        'parts: for _ in 0..u64::MAX {
            match self.part(alloc, text)? {
                Part::Quiet => {}
                other => return Ok(other),
            }
        }
        Err(NoMemory)
    }

    // From where the search stands to its next goal, failure or answer.
    fn part(&mut self, alloc: Global, text: &mut Bytes) -> Result<Part, NoMemory>
        requires { IsMachine self.old }
        ensures machine { IfOk result (λ part. IsMachine self.new) }
        ensures waits { IfOk result (λ part. IsWaiting self.new part) }
        ensures did { IfOk result (Did (Remains self.old) self.old self.new text.old text.new) }
        ensures further { IfOk result (λ part. (left : ℕ) → Does (Remains (with_left self.old left)) (with_left self.old left) (with_left self.new left) text.old text.new part) }
        ensures others { IfOk result (λ part. self.new ≡ record self.old { path = self.new.path; going = self.new.going; answers = self.new.answers }) }
        ensures grew { IfOk result (λ part. part ≡ P.Shown → length text.old < length text.new) }
    {
        match mem::replace(&mut self.going, Going::Fails) {
            Going::Halts(status) => Ok(Part::Ended(End::Halted(status))),
            Going::Uncaught(ball) => Ok(Part::Ended(End::Uncaught(Box::into_inner(ball)))),
            Going::Fails => self.go_back(alloc),
            Going::On => self.go_on(alloc, text),
        }
    }

    // Hands failure outward.
    fn go_back(&mut self, alloc: Global) -> Result<Part, NoMemory>
        requires { IsMachine self.old }
        ensures machine { IfOk result (λ part. IsMachine self.new) }
        ensures waits { IfOk result (λ part. IsWaiting self.new part) }
        ensures did { IfOk result (λ part. (text : List ℕ) → Did (Failing self.old) self.old self.new text text part) }
        ensures further { IfOk result (λ part. (left : ℕ) (text : List ℕ) → Does (Failing (with_left self.old left)) (with_left self.old left) (with_left self.new left) text text part) }
        ensures others { IfOk result (λ part. self.new ≡ record self.old { path = self.new.path; going = self.new.going; answers = self.new.answers }) }
        ensures quiet { IfOk result (λ part. part ≡ P.Shown → ⊥) }
    {
        match back(alloc, &self.compiled, &mut self.path)? {
            Going::Fails => Ok(Part::Ended(End::Exhausted)),
            going => {
                self.going = going;
                Ok(Part::Quiet)
            }
        }
    }

    // Goes on to what stands first. Where that fails, the machine has failed.
    fn go_on(&mut self, alloc: Global, text: &mut Bytes) -> Result<Part, NoMemory>
        requires machine { IsMachine self.old }
        requires going { self.old.going ≡ G.Fails }
        ensures machine { IfOk result (λ part. IsMachine self.new) }
        ensures waits { IfOk result (λ part. IsWaiting self.new part) }
        ensures did { IfOk result (Did (Searching self.old) self.old self.new text.old text.new) }
        ensures further { IfOk result (λ part. (left : ℕ) → Does (Searching (with_left self.old left)) (with_left self.old left) (with_left self.new left) text.old text.new part) }
        ensures others { IfOk result (λ part. self.new ≡ record self.old { path = self.new.path; going = self.new.going; answers = self.new.answers }) }
        ensures grew { IfOk result (λ part. part ≡ P.Shown → length text.old < length text.new) }
    {
        match front_of(&self.compiled, &mut self.path) {
            Front::Goal(stand) => {
                self.going = Going::On;
                Ok(Part::Waits(stand))
            }
            Front::Cut(depth, rest) => {
                self.path.cut(depth);
                self.stand_at(rest);
                Ok(Part::Quiet)
            }
            Front::Exit(_, rest) => {
                self.stand_at(rest);
                Ok(Part::Quiet)
            }
            Front::Fail => Ok(Part::Quiet),
            Front::Nothing => self.answer(alloc, text),
        }
    }

    // Goes on at a place.
    fn stand_at(&mut self, rest: Rest)
        ensures { self.new ≡ record self.old { path = record self.old.path { f = rest.f; pc = rest.pc }; going = G.On } }
    {
        self.path.f = rest.f;
        self.path.pc = rest.pc;
        self.going = Going::On;
    }

    // An answer, of a nested search or of the run.
    fn answer(&mut self, alloc: Global, text: &mut Bytes) -> Result<Part, NoMemory>
        requires machine { IsMachine self.old }
        requires going { self.old.going ≡ G.Fails }
        ensures machine { IfOk result (λ part. IsMachine self.new) }
        ensures waits { IfOk result (λ part. IsWaiting self.new part) }
        ensures did { IfOk result (Did (Answering self.old) self.old self.new text.old text.new) }
        ensures further { IfOk result (λ part. (left : ℕ) → Does (Answering (with_left self.old left)) (with_left self.old left) (with_left self.new left) text.old text.new part) }
        ensures others { IfOk result (λ part. self.new ≡ record self.old { path = self.new.path; going = self.new.going; answers = self.new.answers }) }
        ensures grew { IfOk result (λ part. part ≡ P.Shown → length text.old < length text.new) }
    {
        if let Some(template) = self.path.template {
            keep_answer(alloc, &self.compiled, &mut self.path, template)?;
            return Ok(Part::Quiet);
        }
        let line = line_of(
            alloc,
            self.variables.as_slice(),
            &mut self.path.store,
            &self.compiled.names,
            &self.table,
        )?;
        let _store = self.path.store.next_var();
        text.extend_from_slice(line.as_slice())?;
        self.answers = self.answers.saturating_add(1);
        Ok(Part::Shown)
    }

    // Activates the goal that stands first. Whether bytes were put onto the text.
    fn activate(&mut self, alloc: Global, stand: Stand, text: &mut Bytes) -> Result<bool, NoMemory>
        requires machine { IsMachine self.old }
        requires first { IsFirst self.old.compiled self.old.path stand }
        requires left { 0 < self.old.left }
        ensures machine { IfOk result (λ shown. IsMachine self.new) }
        ensures acted { IfOk result (λ shown. Acted self.old stand self.new text.old text.new) }
        ensures further { IfOk result (λ shown. (left : ℕ) → Acted (with_left self.old (left + 1)) stand (with_left self.new left) text.old text.new) }
        ensures quiet { IfOk result (λ shown. shown ≡ false → text.new ≡ text.old) }
        ensures grew { IfOk result (λ shown. shown ≡ true → length text.old < length text.new) }
        ensures step { IfOk result (λ shown. self.new.left + 1 ≡ self.old.left) }
        ensures peak { IfOk result (λ shown. self.new.peak ≡ noted self.old.peak (length self.old.path.choices.items) (leaves_at self.old (first_at self.old.compiled self.old.path stand))) }
        ensures over { IfOk result (λ shown. self.new.over ≡ self.old.over) }
    {
        let before = text.as_slice().len();
        let records = self.path.choices.len();
        let going = self.enter(alloc, stand, text)?;
        self.going = going;
        self.note(records);
        Ok(text.as_slice().len() > before)
    }

    // Takes a step, which activates a goal.
    fn enter(&mut self, alloc: Global, stand: Stand, text: &mut Bytes) -> Result<Going, NoMemory>
        requires machine { IsMachine self.old }
        requires first { IsFirst self.old.compiled self.old.path stand }
        requires left { 0 < self.old.left }
        ensures machine { IfOk result (λ g. IsMachine self.new) }
        ensures acted { IfOk result (λ g. Acted self.old stand (record self.new { going = g }) text.old text.new) }
        ensures further { IfOk result (λ g. (left : ℕ) → Acted (with_left self.old (left + 1)) stand (record self.new { going = g; left = left }) text.old text.new) }
        ensures step { IfOk result (λ g. self.new.left + 1 ≡ self.old.left) }
        ensures peak { IfOk result (λ g. self.new.peak ≡ self.old.peak) }
        ensures untried { IfOk result (λ g. has_more self.old.path self.new.path ≡ leaves_at self.old (first_at self.old.compiled self.old.path stand)) }
        ensures over { IfOk result (λ g. self.new.over ≡ self.old.over) }
    {
        let node = self.path.depth;
        self.left -= 1;
        self.path.depth = node + 1;
        match stand {
            Stand::Code(instruction, setting) => {
                let going = activate_code(
                    alloc,
                    &mut self.compiled,
                    &self.table,
                    &mut self.path,
                    instruction,
                    setting,
                    node,
                    text,
                )?;
                Ok(going)
            }
            Stand::Term(goal, setting, rest) => {
                let active = Active {
                    goal,
                    setting,
                    rest,
                    node,
                };
                let going = activate_term(
                    alloc,
                    &mut self.compiled,
                    &self.table,
                    &mut self.path,
                    active,
                    text,
                )?;
                Ok(going)
            }
        }
    }

    // Notes the records that an activation left, where they are more than the records before it.
    fn note(&mut self, before: usize)
        ensures others { self.new ≡ record self.old { peak = self.new.peak } }
        ensures peak { self.new.peak ≡ noted self.old.peak before (nat_lt before (length self.old.path.choices.items)) }
    {
        if before < self.path.choices.len() && self.peak <= before {
            self.peak = before + 1;
        }
    }
}
