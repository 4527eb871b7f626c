//! Laws of what the program gives.
ghost use Rattle.plmod.specs.Comes.{OneOutcome, SomeOutcome};

use goal_runs::goals_are_decided;
use needs_laws::texts_are_one_whole;

/// Words and files have no more than one outcome.
pub fn one_outcome()
    ensures { OneOutcome }
{
    goals_are_decided();
    texts_are_one_whole();
}

/// Words and files have an outcome.
pub fn some_outcome()
    ensures { SomeOutcome }
{
    goals_are_decided();
}
