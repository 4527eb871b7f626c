//! What a goal is.
ghost use Rattle.std.specs.Prelude.{◌≡◌, ◌≢◌, ℕ, nat_eq};
ghost use Rattle.pl_terms.specs.Trees.{atom};
ghost use Rattle.pl_unify.specs.State.{State, IsRef, tree_at};
ghost use Rattle.pl_unify.specs.Shape.{root};
ghost use Rattle.builtin_model.specs.Naming.{Naming};
ghost use Rattle.goal_model.specs.Rows.{row_of, either_row};
ghost use Rattle.goal_constructs.specs.Constructs.{AreConstructs};
ghost use Rattle.goal_constructs.specs.Goals.{IsRow, HasPlaces, IsPlaceOf, IsNoCall, is_call};

use crate::constructs::Constructs;
use pl_atoms::NameId;
use pl_unify::{Ref, Store, View};

/// What a goal is, with the places of its parts (ISO/IEC 13211-1, 7.8 and 8).
#[derive(Clone, Copy, Debug, PartialEq)]
pub enum GoalRow {
    /// `!`
    Commit,
    /// `C -> T ; E`
    IfThenElse(Ref, Ref, Ref),
    /// `C -> T`
    IfThen(Ref, Ref),
    /// `P ; Q`
    Either(Ref, Ref),
    /// `\+ G`
    Negation(Ref),
    /// `once(G)`
    Once(Ref),
    /// `call(G, ..)`, with up to seven arguments more, or a variable or an integer, which is called as it is.
    Calling,
    /// `M:G`
    InModule(Ref, Ref),
    /// `G @ M`
    FromContext(Ref, Ref),
    /// `repeat`
    Repeat,
    /// `throw(B)`
    Throwing(Ref),
    /// `catch(G, C, R)`
    Catching(Ref, Ref, Ref),
    /// `findall(X, G, Z)`
    Collecting(Ref, Ref, Ref),
    /// Another built-in predicate, by its place in the table of built-in procedures.
    Plain(usize),
    /// A procedure of the program.
    User,
}

impl Constructs {
    /// What the goal at a place is, with its parts as they stand there. It takes constant time on average.
    pub fn row(&self, store: &Store, goal: Ref) -> GoalRow
        requires { IsRef store.now.state goal }
        ensures row { (n : Naming ℕ) → AreConstructs n self.now → IsRow n store.now.state goal result }
        ensures places { HasPlaces store.now.state result }
    {
        match store.view(goal) {
            View::Var(_) => GoalRow::Calling,
            View::Int(_) => GoalRow::Calling,
            View::Name(name) => atom_row(self.place(name, 0)),
            View::Comp(name, arity) => self.compound_row(store, goal, name, arity),
        }
    }

    // What a compound is.
    fn compound_row(&self, store: &Store, goal: Ref, name: NameId, arity: u8) -> GoalRow
        requires place { IsRef store.now.state goal }
        requires root { root (tree_at store.now.state goal) ≡ View.Comp name arity }
        ensures row { (n : Naming ℕ) → AreConstructs n self.now → IsRow n store.now.state goal result }
        ensures places { HasPlaces store.now.state result }
    {
        if self.is_call(name, arity) {
            return GoalRow::Calling;
        }
        let place = self.place(name, arity);
        match arity {
            1 => unary_row(store, goal, name, place),
            2 => self.binary_row(store, goal, name, place),
            3 => ternary_row(store, goal, name, place),
            _ => other_row(place),
        }
    }

    // Whether a name with so many arguments is `call` with a goal and up to seven arguments more.
    pub(crate) fn is_call(&self, name: NameId, arity: u8) -> bool
        ensures { result ≡ is_call (nat_eq name.0 self.now.names.call.0) arity }
    {
        let named = name.0 == self.names().call.0;
        let some = 0 < arity;
        let few = arity < 9;
        named && some && few
    }

    // What a compound of two arguments is that is no call.
    fn binary_row(&self, store: &Store, goal: Ref, name: NameId, place: Option<usize>) -> GoalRow
        requires place { IsRef store.now.state goal }
        requires root { root (tree_at store.now.state goal) ≡ View.Comp name 2 }
        ensures row { (n : Naming ℕ) → AreConstructs n self.now → IsPlaceOf n name.0 2 place → IsNoCall n name.0 2 → IsRow n store.now.state goal result }
        ensures places { HasPlaces store.now.state result }
    {
        let left = store.arg(goal, 0);
        let right = store.arg(goal, 1);
        match place {
            Some(1) => GoalRow::User,
            Some(2) => GoalRow::IfThen(left, right),
            Some(3) => GoalRow::InModule(left, right),
            Some(4) => self.disjunction_row(store, left, right),
            Some(14) => GoalRow::FromContext(left, right),
            Some(plain) => GoalRow::Plain(plain),
            None => GoalRow::User,
        }
    }

    // What a disjunction is whose sides are the terms at these places.
    fn disjunction_row(&self, store: &Store, left: Ref, right: Ref) -> GoalRow
        requires places { IsRef store.now.state left × IsRef store.now.state right }
        ensures row { (n : Naming ℕ) → AreConstructs n self.now → (at : Ref) → row_of n (tree_at store.now.state at) ≡ either_row n (tree_at store.now.state left) (tree_at store.now.state right) → IsRow n store.now.state at result }
        ensures places { HasPlaces store.now.state result }
    {
        if let View::Comp(name, 2) = store.view(left) {
            if name.0 == self.names().control.implication.0 {
                let condition = store.arg(left, 0);
                let then = store.arg(left, 1);
                return GoalRow::IfThenElse(condition, then, right);
            }
        }
        GoalRow::Either(left, right)
    }
}

// What an atom is.
pub(crate) fn atom_row(place: Option<usize>) -> GoalRow
    ensures row { (n : Naming ℕ) (s : State) (at : Ref) (f : ℕ) → tree_at s at ≡ atom f → IsPlaceOf n f 0 place → IsRow n s at result }
    ensures places { (s : State) → HasPlaces s result }
{
    match place {
        Some(0) => GoalRow::Commit,
        Some(54) => GoalRow::Repeat,
        Some(plain) => GoalRow::Plain(plain),
        None => GoalRow::User,
    }
}

// What a compound of one argument is that is no call.
fn unary_row(store: &Store, goal: Ref, name: NameId, place: Option<usize>) -> GoalRow
    requires place { IsRef store.now.state goal }
    requires root { root (tree_at store.now.state goal) ≡ View.Comp name 1 }
    ensures row { (n : Naming ℕ) → IsPlaceOf n name.0 1 place → IsNoCall n name.0 1 → IsRow n store.now.state goal result }
    ensures places { HasPlaces store.now.state result }
{
    let first = store.arg(goal, 0);
    match place {
        Some(19) => GoalRow::Negation(first),
        Some(52) => GoalRow::Once(first),
        Some(56) => GoalRow::Throwing(first),
        Some(plain) => GoalRow::Plain(plain),
        None => GoalRow::User,
    }
}

// What a compound of three arguments is that is no call.
fn ternary_row(store: &Store, goal: Ref, name: NameId, place: Option<usize>) -> GoalRow
    requires place { IsRef store.now.state goal }
    requires root { root (tree_at store.now.state goal) ≡ View.Comp name 3 }
    ensures row { (n : Naming ℕ) → IsPlaceOf n name.0 3 place → IsNoCall n name.0 3 → IsRow n store.now.state goal result }
    ensures places { HasPlaces store.now.state result }
{
    let first = store.arg(goal, 0);
    let second = store.arg(goal, 1);
    let third = store.arg(goal, 2);
    match place {
        Some(35) => GoalRow::Catching(first, second, third),
        Some(41) => GoalRow::Collecting(first, second, third),
        Some(plain) => GoalRow::Plain(plain),
        None => GoalRow::User,
    }
}

// What a compound of another number of arguments is that is no call.
pub(crate) fn other_row(place: Option<usize>) -> GoalRow
    ensures row { (n : Naming ℕ) (s : State) (at : Ref) (name : NameId) (k : ℕ) → root (tree_at s at) ≡ View.Comp name k → k ≢ 1 → k ≢ 2 → k ≢ 3 → IsPlaceOf n name.0 k place → IsNoCall n name.0 k → IsRow n s at result }
    ensures places { (s : State) → HasPlaces s result }
{
    match place {
        Some(0) => GoalRow::User,
        Some(54) => GoalRow::User,
        Some(plain) => GoalRow::Plain(plain),
        None => GoalRow::User,
    }
}
