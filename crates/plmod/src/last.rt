//! The machine of a run that has ended.
ghost use Rattle.std.specs.Prelude.{◌≡◌, Some, None, if◌then◌else◌};
ghost use Rattle.plmod.specs.Last.{has_ended};

use crate::status::Status;
use goal_runs::Finished;
use pl_machine::Machine;

/// The machine of a run, where the status tells that the run has ended.
pub fn machine_after(status: Status, finished: Finished) -> Option<Machine>
    ensures { result ≡ (if has_ended status then Some finished.machine else None) }
{
    if is_of_end(status) {
        Some(finished.machine)
    } else {
        None
    }
}

// Whether a run has ended with this status.
fn is_of_end(status: Status) -> bool
    ensures { result ≡ has_ended status }
{
    match status {
        Status::Done | Status::Uncaught | Status::Spent => true,
        _ => false,
    }
}
