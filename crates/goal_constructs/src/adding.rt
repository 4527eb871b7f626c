//! Adding arguments to goals.
ghost use Rattle.std.specs.Prelude.{◌≡◌, ◌≤◌, ℕ, map, reverse, IfOk, OnOk, Ok};
ghost use Rattle.pl_terms.specs.Trees.{append, back, count};
ghost use Rattle.pl_unify.specs.State.{IsRef, tree_at, Grows};
ghost use Rattle.pl_unify.specs.Making.{AreRefs};
ghost use Rattle.builtin_model.specs.Naming.{Naming};
ghost use Rattle.builtin_model.specs.Lists.{listed};
ghost use Rattle.goal_model.specs.Bodies.{added, with_arguments};
ghost use Rattle.goal_constructs.specs.Constructs.{AreConstructs};
ghost use Rattle.goal_constructs.specs.Conjuncts.{Appends};
ghost use Rattle.goal_constructs.specs.Goals.{arguments_of, more_arguments};
ghost use Rattle.goal_constructs.specs.Calling.{IsCalled, IsPlace, IsSplitModule, added_here, wrapped};

use crate::calling::{Called, arity_of};
use crate::constructs::Constructs;
use crate::list::push;
use pl_atoms::{NameId, NoMemory};
use pl_unify::{Ref, Store, View};
use std::alloc::Global;

impl Constructs {
    // A term with the arguments of a goal behind its first one added, or the ball of the error.
    pub(crate) fn add_arguments(
        &self,
        alloc: Global,
        store: &mut Store,
        goal: Ref,
        term: Ref,
        name: NameId,
        arity: u8,
    ) -> Result<Called, NoMemory>
        requires places { IsRef store.old.state goal × IsRef store.old.state term }
        requires more { 2 ≤ count (arguments_of (tree_at store.old.state goal)) }
        ensures grows { Grows store.old.state store.new.state }
        ensures next { store.new.state.next ≡ store.old.state.next }
        ensures place { IfOk result (λ r. IsPlace store.new.state r) }
        ensures added { IfOk result (λ r. (n : Naming ℕ) → AreConstructs n self.now → IsCalled store.new.state (added n (tree_at store.old.state term) (more_arguments (tree_at store.old.state goal)) (tree_at store.old.state term) name.0 arity) r) }
    {
        let mut modules = Vec::new(alloc);
        let mut inner = term;
        while let Some((front, next)) = self.split_module(store, inner) {
            push(&mut modules, front)?;
            inner = next;
        }
        match self.add_here(alloc, store, goal, term, inner, name, arity)? {
            Called::Goal(made) => {
                let whole = self.wrap(store, &mut modules, made)?;
                Ok(Called::Goal(whole))
            }
            Called::Ball(ball) => Ok(Called::Ball(ball)),
        }
    }

    // The module and the term of `M:T`.
    fn split_module(&self, store: &Store, at: Ref) -> Option<(Ref, Ref)>
        requires { IsRef store.now.state at }
        ensures { IsSplitModule self.now store.now.state (tree_at store.now.state at) result }
    {
        if let View::Comp(name, 2) = store.view(at) {
            if name.0 == self.names().colon.0 {
                return Some((store.arg(at, 0), store.arg(at, 1)));
            }
        }
        None
    }

    // A term in front of which modules stand, the last one next to it.
    fn wrap(&self, store: &mut Store, modules: &mut Vec<Ref>, at: Ref) -> Result<Ref, NoMemory>
        requires place { IsRef store.old.state at }
        requires modules { AreRefs store.old.state (reverse modules.old.items) }
        ensures grows { Grows store.old.state store.new.state }
        ensures next { store.new.state.next ≡ store.old.state.next }
        ensures place { IfOk result (λ made. IsRef store.new.state made) }
        ensures tree { IfOk result (λ made. wrapped self.now.names.colon.0 (map (tree_at store.old.state) (reverse modules.old.items)) (Ok (tree_at store.old.state at)) ≡ Ok (tree_at store.new.state made)) }
    {
        let mut made = at;
        while let Some(front) = modules.pop() {
            made = store.compound(self.names().colon, &[front, made])?;
        }
        Ok(made)
    }

    // A term that is not `M:T` with the arguments of a goal behind its first one added, or the ball of the error.
    fn add_here(
        &self,
        alloc: Global,
        store: &mut Store,
        goal: Ref,
        whole: Ref,
        inner: Ref,
        name: NameId,
        arity: u8,
    ) -> Result<Called, NoMemory>
        requires places { IsRef store.old.state goal × IsRef store.old.state whole × IsRef store.old.state inner }
        requires more { 2 ≤ count (arguments_of (tree_at store.old.state goal)) }
        ensures grows { Grows store.old.state store.new.state }
        ensures next { store.new.state.next ≡ store.old.state.next }
        ensures place { IfOk result (λ r. IsPlace store.new.state r) }
        ensures added { IfOk result (λ r. (n : Naming ℕ) → AreConstructs n self.now → IsCalled store.new.state (added_here n (tree_at store.old.state whole) (more_arguments (tree_at store.old.state goal)) (tree_at store.old.state inner) name.0 arity) r) }
    {
        match store.view(inner) {
            View::Var(_) => {
                let ball = self.uninstantiated(store, name, arity)?;
                Ok(Called::Ball(ball))
            }
            View::Int(_) => {
                let ball = self.not_callable(store, whole, name, arity)?;
                Ok(Called::Ball(ball))
            }
            View::Name(functor) => self.longer(alloc, store, goal, inner, functor, name, arity),
            View::Comp(functor, _) => {
                self.longer(alloc, store, goal, inner, functor, name, arity)
            }
        }
    }

    // The compound of a name with the arguments of a term, and behind them those of a goal behind its first one, or the ball of the
    // error where they are too many.
    fn longer(
        &self,
        alloc: Global,
        store: &mut Store,
        goal: Ref,
        inner: Ref,
        functor: NameId,
        name: NameId,
        arity: u8,
    ) -> Result<Called, NoMemory>
        requires places { IsRef store.old.state goal × IsRef store.old.state inner }
        requires more { 2 ≤ count (arguments_of (tree_at store.old.state goal)) }
        ensures grows { Grows store.old.state store.new.state }
        ensures next { store.new.state.next ≡ store.old.state.next }
        ensures place { IfOk result (λ r. IsPlace store.new.state r) }
        ensures made { IfOk result (λ r. (n : Naming ℕ) → AreConstructs n self.now → IsCalled store.new.state (with_arguments n functor.0 (append (arguments_of (tree_at store.old.state inner)) (more_arguments (tree_at store.old.state goal))) name.0 arity) r) }
    {
        let mut parts = Vec::new(alloc);
        push_arguments(store, inner, 0, &mut parts)?;
        push_arguments(store, goal, 1, &mut parts)?;
        if parts.len() > 255 {
            let ball = self.too_many_arguments(store, name, arity)?;
            return Ok(Called::Ball(ball));
        }
        let made = store.compound(functor, parts.as_slice())?;
        Ok(Called::Goal(made))
    }
}

// Puts the places of the arguments of a term last, from a number on, counted from 0.
fn push_arguments(store: &Store, at: Ref, start: u8, parts: &mut Vec<Ref>) -> Result<(), NoMemory>
    requires { IsRef store.now.state at }
    ensures { OnOk result (Appends store.now.state parts.old.items parts.new.items (listed (back start (arguments_of (tree_at store.now.state at))))) }
{
    let count = arity_of(store, at);
    let mut k = start;
    while k < count {
        push(parts, store.arg(at, k))?;
        k += 1;
    }
    Ok(())
}
