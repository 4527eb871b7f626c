//! The conversion of terms to bodies.
ghost use Rattle.std.specs.Prelude.{◌≡◌, ◌∷◌, ℕ, IfOk, IfSome, reverse};
ghost use Rattle.pl_terms.specs.Trees.{comp, cons, nil};
ghost use Rattle.pl_unify.specs.State.{IsRef, tree_at, Grows};
ghost use Rattle.pl_unify.specs.Shape.{root};
ghost use Rattle.builtin_model.specs.Naming.{Naming};
ghost use Rattle.goal_model.specs.Bodies.{converted};
ghost use Rattle.goal_code.specs.Settled.{is_control};
ghost use Rattle.goal_constructs.specs.Constructs.{AreConstructs};
ghost use Rattle.goal_constructs.specs.declared.constructs.Constructs.{Constructs};
ghost use Rattle.goal_constructs.specs.Conversion.{IsConverted, IsPiece, Sound, IsStep};

use crate::constructs::Constructs;
use crate::list::push;
use pl_atoms::{NameId, NoMemory};
use pl_unify::{Ref, Store, View};
use std::alloc::Global;

/// What is to be done.
#[derive(Clone, Copy, Debug)]
pub(crate) enum Task {
    /// To convert a term.
    Convert(Ref),
    /// To make the control construct of this name, which stands at a place, of the last two bodies.
    Join(NameId, Ref),
}

/// What a term is to its conversion.
#[derive(Clone, Copy, Debug)]
pub(crate) enum Piece {
    Variable,
    Integer,
    /// A control construct with its name and the places of its sides.
    Control(NameId, Ref, Ref),
    Other,
}

impl Constructs {
    /// The place of a term as a body, in which each variable in a goal place is the goal that calls it; none where an integer
    /// stands in such a place (ISO/IEC 13211-1, 7.6.2). Only the control constructs around such variables are made anew.
    /// NoMemory: parts of the body may be there.
    pub fn converted(
        &self,
        alloc: Global,
        store: &mut Store,
        term: Ref,
    ) -> Result<Option<Ref>, NoMemory>
        requires { IsRef store.old.state term }
        ensures grows { Grows store.old.state store.new.state }
        ensures next { store.new.state.next ≡ store.old.state.next }
        ensures place { IfOk result (λ r. IfSome r (λ at. IsRef store.new.state at)) }
        ensures converted { IfOk result (λ r. (n : Naming ℕ) → AreConstructs n self.now → IsConverted store.new.state (converted n (tree_at store.old.state term)) r) }
    {
        match self.piece(store, term) {
            Piece::Variable => {
                let made = store.compound(self.names().call, &[term])?;
                Ok(Some(made))
            }
            Piece::Integer => Ok(None),
            Piece::Control(_, _, _) => self.convert_parts(alloc, store, term),
            Piece::Other => Ok(Some(term)),
        }
    }

    // As `converted`, for any term.
    fn convert_parts(
        &self,
        alloc: Global,
        store: &mut Store,
        term: Ref,
    ) -> Result<Option<Ref>, NoMemory>
        requires { IsRef store.old.state term }
        ensures grows { Grows store.old.state store.new.state }
        ensures next { store.new.state.next ≡ store.old.state.next }
        ensures place { IfOk result (λ r. IfSome r (λ at. IsRef store.new.state at)) }
        ensures converted { IfOk result (λ r. (n : Naming ℕ) → AreConstructs n self.now → IsConverted store.new.state (converted n (tree_at store.old.state term)) r) }
    {
        let mut tasks = Vec::new(alloc);
        let mut done = Vec::new(alloc);
        push(&mut tasks, Task::Convert(term))?;
        while let Some(task) = tasks.pop() {
            if !self.carry_out(store, task, &mut tasks, &mut done)? {
                return Ok(None);
            }
        }
        let Some(made) = done.pop() else {
            unreachable!();
        };
        Ok(Some(made))
    }

    // Does a task, which was the next one. The answer is whether there may be a body.
    fn carry_out(
        &self,
        store: &mut Store,
        task: Task,
        tasks: &mut Vec<Task>,
        done: &mut Vec<Ref>,
    ) -> Result<bool, NoMemory>
        requires { Sound store.old.state (task ∷ reverse tasks.old.items) (reverse done.old.items) }
        ensures grows { Grows store.old.state store.new.state }
        ensures next { store.new.state.next ≡ store.old.state.next }
        ensures step { IfOk result (λ go. IsStep self.now store.old.state store.new.state (task ∷ reverse tasks.old.items) (reverse done.old.items) (reverse tasks.new.items) (reverse done.new.items) go) }
    {
        match task {
            Task::Convert(at) => self.convert(store, at, tasks, done),
            Task::Join(name, at) => join(store, name, at, tasks, done),
        }
    }

    // Converts a term, or leaves its sides to be converted.
    fn convert(
        &self,
        store: &mut Store,
        at: Ref,
        tasks: &mut Vec<Task>,
        done: &mut Vec<Ref>,
    ) -> Result<bool, NoMemory>
        requires { Sound store.old.state (Task.Convert at ∷ reverse tasks.old.items) (reverse done.old.items) }
        ensures grows { Grows store.old.state store.new.state }
        ensures next { store.new.state.next ≡ store.old.state.next }
        ensures step { IfOk result (λ go. IsStep self.now store.old.state store.new.state (Task.Convert at ∷ reverse tasks.old.items) (reverse done.old.items) (reverse tasks.new.items) (reverse done.new.items) go) }
    {
        match self.piece(store, at) {
            Piece::Variable => {
                let made = store.compound(self.names().call, &[at])?;
                push(done, made)?;
                Ok(true)
            }
            Piece::Integer => Ok(false),
            Piece::Control(name, left, right) => {
                push(tasks, Task::Join(name, at))?;
                push(tasks, Task::Convert(right))?;
                push(tasks, Task::Convert(left))?;
                Ok(true)
            }
            Piece::Other => {
                push(done, at)?;
                Ok(true)
            }
        }
    }

    // What a term is to its conversion.
    fn piece(&self, store: &Store, at: Ref) -> Piece
        requires { IsRef store.now.state at }
        ensures { IsPiece self.now store.now.state (tree_at store.now.state at) result }
    {
        match store.view(at) {
            View::Var(_) => Piece::Variable,
            View::Int(_) => Piece::Integer,
            View::Comp(name, 2) => {
                if self.is_control(name) {
                    return Piece::Control(name, store.arg(at, 0), store.arg(at, 1));
                }
                Piece::Other
            }
            _ => Piece::Other,
        }
    }

    // Whether a name is `,`, `;` or `->`.
    fn is_control(&self, name: NameId) -> bool
        ensures { result ≡ is_control self.now.names.control name.0 }
    {
        let control = self.names().control;
        name.0 == control.conjunction.0
            || name.0 == control.disjunction.0
            || name.0 == control.implication.0
    }
}

// Makes a control construct of the last two bodies.
fn join(
    store: &mut Store,
    name: NameId,
    at: Ref,
    tasks: &Vec<Task>,
    done: &mut Vec<Ref>,
) -> Result<bool, NoMemory>
    requires { Sound store.old.state (Task.Join name at ∷ reverse tasks.now.items) (reverse done.old.items) }
    ensures grows { Grows store.old.state store.new.state }
    ensures next { store.new.state.next ≡ store.old.state.next }
    ensures step { IfOk result (λ go. (c : Constructs) → IsStep c store.old.state store.new.state (Task.Join name at ∷ reverse tasks.now.items) (reverse done.old.items) (reverse tasks.now.items) (reverse done.new.items) go) }
{
    let Some(right) = done.pop() else {
        unreachable!();
    };
    let Some(left) = done.pop() else {
        unreachable!();
    };
    let made = joined(store, name, at, left, right)?;
    push(done, made)?;
    Ok(true)
}

// The place of a construct of this name with these sides; the construct at a place, where they are its sides.
fn joined(store: &mut Store, name: NameId, at: Ref, left: Ref, right: Ref) -> Result<Ref, NoMemory>
    requires places { IsRef store.old.state at × IsRef store.old.state left × IsRef store.old.state right }
    requires root { root (tree_at store.old.state at) ≡ View.Comp name 2 }
    ensures grows { Grows store.old.state store.new.state }
    ensures next { store.new.state.next ≡ store.old.state.next }
    ensures place { IfOk result (λ made. IsRef store.new.state made) }
    ensures tree { IfOk result (λ made. tree_at store.new.state made ≡ comp name.0 (cons (tree_at store.old.state left) (cons (tree_at store.old.state right) nil))) }
{
    let old_left = store.arg(at, 0);
    let old_right = store.arg(at, 1);
    if old_left.0 == left.0 && old_right.0 == right.0 {
        return Ok(at);
    }
    store.compound(name, &[left, right])
}
