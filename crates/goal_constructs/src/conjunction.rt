//! The goals of a conjunction.
ghost use Rattle.std.specs.Prelude.{OnOk};
ghost use Rattle.pl_unify.specs.State.{IsRef, tree_at};
ghost use Rattle.goal_code.specs.Shapes.{conjuncts};
ghost use Rattle.goal_constructs.specs.Conjuncts.{Appends, IsSplit};

use crate::constructs::Constructs;
use crate::list::push;
use pl_atoms::NoMemory;
use pl_unify::{Ref, Store, View};
use std::alloc::Global;

impl Constructs {
    /// Puts the places of the goals of a conjunction last, in their order; a term that is no conjunction is its own goal
    /// (ISO/IEC 13211-1, 7.8.5). It takes linear time. NoMemory: some of the goals may have been put there.
    pub fn conjuncts(
        &self,
        alloc: Global,
        store: &Store,
        term: Ref,
        out: &mut Vec<Ref>,
    ) -> Result<(), NoMemory>
        requires { IsRef store.now.state term }
        ensures { OnOk result (Appends store.now.state out.old.items out.new.items (conjuncts self.now.names.control (tree_at store.now.state term))) }
    {
        let mut stack = Vec::new(alloc);
        let mut at = term;
        'goals: loop {
            if let Some((left, right)) = self.sides(store, at) {
                push(&mut stack, right)?;
                at = left;
                continue;
            }
            push(out, at)?;
            let Some(next) = stack.pop() else {
                return Ok(());
            };
            at = next;
        }
    }

    // The sides of a conjunction.
    fn sides(&self, store: &Store, at: Ref) -> Option<(Ref, Ref)>
        requires { IsRef store.now.state at }
        ensures { IsSplit self.now.names.control store.now.state (tree_at store.now.state at) result }
    {
        if let View::Comp(name, 2) = store.view(at) {
            if name.0 == self.names().control.conjunction.0 {
                return Some((store.arg(at, 0), store.arg(at, 1)));
            }
        }
        None
    }
}
