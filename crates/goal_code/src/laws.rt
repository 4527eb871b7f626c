//! What the instructions of a body mean to a search, as contracts of functions that do nothing.
ghost use Rattle.std.specs.Prelude.{ℕ};
ghost use Rattle.builtin_model.specs.Naming.{Naming};
ghost use Rattle.goal_code.specs.Denotation.{AreControlNames, ItemsAreGoals, FlatAreGoals};
ghost use Rattle.goal_code.specs.Continuations.{ItemsFollow, RunsFirst, BodyItems};
ghost use Rattle.goal_code.specs.Settled.{RowsStay, GoalsStay};
ghost use Rattle.goal_code.specs.declared.shape.ControlNames.{ControlNames};

/// The items of a clause's body are the calls of the goals that its instructions run.
pub fn items_are_goals()
    ensures { (n : Naming ℕ) (s : ControlNames) → AreControlNames n s → ItemsAreGoals n s }
{}

/// The items of a goal as `call/1` runs it are the calls of its conjuncts.
pub fn flat_are_goals()
    ensures { (n : Naming ℕ) (s : ControlNames) → AreControlNames n s → FlatAreGoals n s }
{}

/// What is to be run from a place on begins with the item of the instruction there.
pub fn items_follow()
    ensures { ItemsFollow }
{}

/// What is to be run from a place on begins with the calls of the goals up to a place that it leads to.
pub fn runs_come_first()
    ensures { RunsFirst }
{}

/// What is to be run where a compiled body begins is the items of the clause's body, with its variables raised and under the
/// replacements of the run, and then what follows the goal (ISO/IEC 13211-1, 7.7.10).
pub fn body_items_are()
    ensures { BodyItems }
{}

/// A goal whose parts are known before it runs is the same control construct in each run.
pub fn rows_stay()
    ensures { RowsStay }
{}

/// A body whose goals are known before it runs has the same goals in each run.
pub fn goals_stay()
    ensures { GoalsStay }
{}
