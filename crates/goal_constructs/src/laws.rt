//! What goals of a store are to a search.
ghost use Rattle.std.specs.Prelude.{ℕ};
ghost use Rattle.builtin_model.specs.Naming.{Naming};
ghost use Rattle.goal_code.specs.Denotation.{FlatAreGoals};
ghost use Rattle.goal_constructs.specs.Constructs.{AreConstructs};
ghost use Rattle.goal_constructs.specs.declared.constructs.Constructs.{Constructs};

/// The items of a goal as `call/1` runs it are the calls of its conjuncts.
pub fn conjuncts_are_flat()
    ensures { (n : Naming ℕ) (c : Constructs) → AreConstructs n c → FlatAreGoals n c.names.control }
{}
