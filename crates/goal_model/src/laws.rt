//! Laws of the search for the answers of a goal.
ghost use Rattle.std.specs.Prelude.{ℕ, Bool};
ghost use Rattle.solver_model.specs.ValueLaws.{BoundFree, BudgetAdds};
ghost use Rattle.builtin_model.specs.Naming.{Naming};
ghost use Rattle.goal_model.specs.Choices.{UnfitFail};
ghost use Rattle.goal_model.specs.NameLaws.{MguRenames};
ghost use Rattle.goal_model.specs.Program.{Program};
ghost use Rattle.goal_model.specs.Table.{prolog};
ghost use Rattle.goal_model.specs.TextLaws.{ConvertsAlike};

/// What a search gives does not depend on its bound, as long as that is no less than the steps left.
pub fn value_is_bound_free<Name>()
    ensures { (n : Naming Name) (same : Name → Name → Bool) (p : Program Name) → BoundFree (prolog n same p) }
{}

/// A larger budget of steps only adds events.
pub fn budget_adds<Name>()
    ensures { (n : Naming Name) (same : Name → Name → Bool) (p : Program Name) → BudgetAdds (prolog n same p) }
{}

/// A term is converted to a body (ISO/IEC 13211-1, 7.6.2) in the same way by the numbers of its names and by their texts.
pub fn converts_alike()
    ensures { (n : Naming ℕ) → ConvertsAlike n }
{}

/// A clause whose first argument cannot have a unifier with the goal's is no alternative.
pub fn unfit_clauses_fail()
    ensures { (n : Naming ℕ) → UnfitFail n }
{}

/// The most general unifier does not depend on which numbers names have, as long as different names have different ones.
pub fn mgu_renames()
    ensures { MguRenames }
{}
