//! What the terms of a store are.
ghost use Rattle.pl_unify.specs.State.{IsRef};

use pl_terms::Cell;
use pl_unify::{Ref, Store};
use std::alloc::Global;
use std::test::Fail;

// Fails where the term of a place has other cells than these.
pub(crate) fn has_cells(alloc: Global, store: &Store, at: Ref, cells: &[Cell]) -> Result<(), Fail>
    requires { IsRef store.now.state at }
{
    let term = store.copy_out(alloc, at)?;
    if term.cells() != cells {
        return Err(Fail::new("another term"));
    }
    Ok(())
}
