//! Laws of the search (ISO/IEC 13211-1, 7.7 and 7.8).
ghost use Rattle.solver_model.specs.Tables.{Table, language};
ghost use Rattle.solver_model.specs.ValueLaws.{BoundFree, BudgetAdds};

/// What a search gives does not depend on its bound, as long as that is no less than the steps left.
pub fn value_is_bound_free<Goal, World, Alternative, Recovery, Gathering, Answer, Ball, Clauses>()
    ensures { (t : Table Goal World Alternative Recovery Gathering Answer Ball Clauses) → BoundFree (language t) }
{}

/// A larger budget of steps only adds events.
pub fn budget_adds<Goal, World, Alternative, Recovery, Gathering, Answer, Ball, Clauses>()
    ensures { (t : Table Goal World Alternative Recovery Gathering Answer Ball Clauses) → BudgetAdds (language t) }
{}
