ghost use Rattle.goal_runs.specs.Goals.{GoalsAreDecided};

/// A text is one goal, with one list of names of its variables, or has one fault, and never both.
pub fn goals_are_decided()
    ensures { GoalsAreDecided }
{}
