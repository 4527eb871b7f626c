//! Names within a table.
ghost use Rattle.std.specs.Prelude.{◌≡◌, ◌↔◌, length, IsTrue};
ghost use Rattle.pl_terms.specs.NameBounds.{NamesBelow};
ghost use Rattle.term_walk.specs.NameBounds.{is_below};

use crate::walk::Walk;
use pl_atoms::Names;
use pl_terms::{Cell, Term};

/// Whether each name of the term is a number of the table.
pub fn names_below(term: &Term, names: &Names) -> bool
    ensures { IsTrue result ↔ NamesBelow (length names.now) term.now }
{
    let len = names.len();
    let mut walk = Walk::of(term);
    while let Some(cell) = walk.peek() {
        if !is_below(cell, len) {
            return false;
        }
        walk.enter();
    }
    true
}

// Whether a cell's name is below a number.
fn is_below(cell: Cell, len: usize) -> bool
    ensures { result ≡ is_below len cell }
{
    match cell {
        Cell::Name(id) | Cell::Comp(id, _) => id.0 < len,
        Cell::Var(_) | Cell::Int(_) => true,
    }
}
