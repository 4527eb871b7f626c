//! What a goal is, by its root.
ghost use Rattle.std.specs.Prelude.{◌≡◌, ℕ};
ghost use Rattle.pl_unify.specs.State.{State, tree_at};
ghost use Rattle.pl_unify.specs.Shape.{root};
ghost use Rattle.builtin_model.specs.Naming.{Naming};
ghost use Rattle.goal_constructs.specs.Goals.{IsRow, IsPlaceOf, IsNoCall};
ghost use Rattle.goal_constructs.specs.Kinds.{IsRootOf, IsKind, AllAre};

use crate::constructs::Constructs;
use crate::row::{GoalRow, atom_row, other_row};
use pl_atoms::NameId;
use pl_unify::{Ref, View};

/// What the root of a goal tells of it.
#[derive(Clone, Copy, Debug, PartialEq)]
pub enum Kind {
    /// A built-in predicate that is no control construct, by its place in the table of built-in procedures.
    Plain(usize),
    /// A procedure of the program.
    User,
    /// A control construct, or a variable or an integer, which is called.
    Construct,
}

impl Constructs {
    /// What a goal with this root is. It takes constant time on average.
    pub fn kind(&self, shown: View) -> Kind
        ensures named { IsRootOf shown result }
        ensures kind { AllAre self.now shown result }
    {
        match shown {
            View::Var(_) => Kind::Construct,
            View::Int(_) => Kind::Construct,
            View::Name(name) => kind_of(atom_row(self.place(name, 0))),
            View::Comp(name, arity) => self.compound_kind(name, arity),
        }
    }

    // What a compound with this name and number of arguments is.
    fn compound_kind(&self, name: NameId, arity: u8) -> Kind
        ensures { AllAre self.now (View.Comp name arity) result }
    {
        if self.is_call(name, arity) {
            return Kind::Construct;
        }
        let place = self.place(name, arity);
        match arity {
            1 => unary_kind(place),
            2 => binary_kind(place),
            3 => ternary_kind(place),
            _ => kind_of(other_row(place)),
        }
    }
}

// The kind of a goal of this row.
fn kind_of(row: GoalRow) -> Kind
    ensures { (n : Naming ℕ) (s : State) (at : Ref) → IsRow n s at row → IsKind n s at result }
{
    match row {
        GoalRow::Plain(plain) => Kind::Plain(plain),
        GoalRow::User => Kind::User,
        _ => Kind::Construct,
    }
}

// The kind of a compound of one argument that is no call.
fn unary_kind(place: Option<usize>) -> Kind
    ensures { (n : Naming ℕ) (s : State) (at : Ref) (name : NameId) → root (tree_at s at) ≡ View.Comp name 1 → IsPlaceOf n name.0 1 place → IsNoCall n name.0 1 → IsKind n s at result }
{
    match place {
        Some(19) => Kind::Construct,
        Some(52) => Kind::Construct,
        Some(56) => Kind::Construct,
        Some(plain) => Kind::Plain(plain),
        None => Kind::User,
    }
}

// The kind of a compound of two arguments that is no call.
fn binary_kind(place: Option<usize>) -> Kind
    ensures { (n : Naming ℕ) (s : State) (at : Ref) (name : NameId) → root (tree_at s at) ≡ View.Comp name 2 → IsPlaceOf n name.0 2 place → IsNoCall n name.0 2 → IsKind n s at result }
{
    match place {
        Some(1) => Kind::User,
        Some(2) => Kind::Construct,
        Some(3) => Kind::Construct,
        Some(4) => Kind::Construct,
        Some(14) => Kind::Construct,
        Some(plain) => Kind::Plain(plain),
        None => Kind::User,
    }
}

// The kind of a compound of three arguments that is no call.
fn ternary_kind(place: Option<usize>) -> Kind
    ensures { (n : Naming ℕ) (s : State) (at : Ref) (name : NameId) → root (tree_at s at) ≡ View.Comp name 3 → IsPlaceOf n name.0 3 place → IsNoCall n name.0 3 → IsKind n s at result }
{
    match place {
        Some(35) => Kind::Construct,
        Some(41) => Kind::Construct,
        Some(plain) => Kind::Plain(plain),
        None => Kind::User,
    }
}
