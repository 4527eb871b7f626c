//! Terms as the goals that constructs run.
ghost use Rattle.std.specs.Prelude.{◌≡◌, ℕ, IfOk};
ghost use Rattle.pl_terms.specs.Trees.{count};
ghost use Rattle.pl_unify.specs.State.{IsRef, tree_at, Grows};
ghost use Rattle.pl_unify.specs.Shape.{arity};
ghost use Rattle.builtin_model.specs.Naming.{Naming};
ghost use Rattle.goal_model.specs.Bodies.{goal_of, called};
ghost use Rattle.goal_constructs.specs.Constructs.{AreConstructs};
ghost use Rattle.goal_constructs.specs.Goals.{arguments_of, called_term, more_arguments};
ghost use Rattle.goal_constructs.specs.Calling.{IsCalled, IsPlace};

use crate::constructs::Constructs;
use pl_atoms::{NameId, NoMemory};
use pl_unify::{Ref, Store, View};
use std::alloc::Global;

/// What a term is where a construct runs it.
#[derive(Clone, Copy, Debug)]
pub enum Called {
    /// A goal, by the place of its body.
    Goal(Ref),
    /// No goal: the place of the ball that is thrown.
    Ball(Ref),
}

impl Constructs {
    /// The body of a term that the construct of this name and number of arguments takes for a goal, or the ball of its error
    /// (ISO/IEC 13211-1, 7.6.2 and 7.8.3.3).
    pub fn goal_of(
        &self,
        alloc: Global,
        store: &mut Store,
        term: Ref,
        name: NameId,
        arity: u8,
    ) -> Result<Called, NoMemory>
        requires { IsRef store.old.state term }
        ensures grows { Grows store.old.state store.new.state }
        ensures next { store.new.state.next ≡ store.old.state.next }
        ensures place { IfOk result (λ r. IsPlace store.new.state r) }
        ensures goal { IfOk result (λ r. (n : Naming ℕ) → AreConstructs n self.now → IsCalled store.new.state (goal_of n (tree_at store.old.state term) name.0 arity) r) }
    {
        if let View::Var(_) = store.view(term) {
            let ball = self.uninstantiated(store, name, arity)?;
            return Ok(Called::Ball(ball));
        }
        match self.converted(alloc, store, term)? {
            Some(body) => Ok(Called::Goal(body)),
            None => {
                let ball = self.not_callable(store, term, name, arity)?;
                Ok(Called::Ball(ball))
            }
        }
    }

    /// The body of what a goal of `call` calls, with the arguments that it adds, or the ball of its error; a variable or an integer is
    /// its own term. Arguments are added to the innermost term of `M:T` (ISO/IEC 13211-1, 7.8.3, and Cor.2, 8.15.4).
    pub fn called(
        &self,
        alloc: Global,
        store: &mut Store,
        goal: Ref,
        name: NameId,
        arity: u8,
    ) -> Result<Called, NoMemory>
        requires { IsRef store.old.state goal }
        ensures grows { Grows store.old.state store.new.state }
        ensures next { store.new.state.next ≡ store.old.state.next }
        ensures place { IfOk result (λ r. IsPlace store.new.state r) }
        ensures goal { IfOk result (λ r. (n : Naming ℕ) → AreConstructs n self.now → IsCalled store.new.state (called n (called_term (tree_at store.old.state goal)) (more_arguments (tree_at store.old.state goal)) name.0 arity) r) }
    {
        let count = arity_of(store, goal);
        if count == 0 {
            return self.goal_of(alloc, store, goal, name, arity);
        }
        let term = store.arg(goal, 0);
        if count == 1 {
            return self.goal_of(alloc, store, term, name, arity);
        }
        match self.add_arguments(alloc, store, goal, term, name, arity)? {
            Called::Goal(made) => self.goal_of(alloc, store, made, name, arity),
            Called::Ball(ball) => Ok(Called::Ball(ball)),
        }
    }
}

/// How many arguments a term has.
pub(crate) fn arity_of(store: &Store, at: Ref) -> u8
    requires { IsRef store.now.state at }
    ensures arity { result ≡ arity (tree_at store.now.state at) }
    ensures count { result ≡ count (arguments_of (tree_at store.now.state at)) }
{
    match store.view(at) {
        View::Comp(_, count) => count,
        _ => 0,
    }
}
