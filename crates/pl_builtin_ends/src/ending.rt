//! Taking off what a built-in predicate added.
ghost use Rattle.std.specs.Prelude.{◌≡◌, ◌≢◌};
ghost use Rattle.pl_unify.specs.State.{IsMark, state_at};

use crate::done::Done;
use pl_atoms::NoMemory;
use pl_unify::{Mark, Store};

/// Takes off all that was added since the mark, unless the predicate succeeds.
pub fn settle(
    store: &mut Store,
    mark: &Mark,
    ended: Result<Done, NoMemory>,
) -> Result<Done, NoMemory>
    requires { IsMark mark.now store.old.state }
    ensures same { result ≡ ended }
    ensures kept { result ≡ Ok Done.Yes → store.new.state ≡ store.old.state }
    ensures undone { (result ≢ Ok Done.Yes) → store.new.state ≡ state_at mark.now store.old.state }
{
    match ended {
        Ok(Done::Yes) => Ok(Done::Yes),
        other => {
            store.undo(mark);
            other
        }
    }
}
