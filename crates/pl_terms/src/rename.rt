//! Terms with other numbers of variables.
ghost use Rattle.std.specs.Prelude.{◌≡◌, ◌+◌, ◌<◌, ◌^◌, All, IfOk};
ghost use Rattle.pl_terms.specs.Occurrence.{occurrences, numbered_by};
ghost use Rattle.pl_terms.specs.CellNumbers.{cell_by, AtVariable};

use crate::cell::Cell;
use crate::term::{Term, TermBuf};
use pl_atoms::NoMemory;
use std::alloc::Global;

impl Term {
    /// A copy of the term with `base` added to the number of each variable: a renamed copy (ISO/IEC 13211-1, 7.1.6.2), which shares no
    /// variable with a term whose numbers are below `base`.
    pub fn rename(&self, alloc: Global, base: usize) -> Result<Term, NoMemory>
        requires { All (λ n. n + base < 2 ^ 64) (occurrences self.now) }
        ensures { IfOk result (λ term. term ≡ numbered_by (λ n. n + base) self.now) }
    {
        let cells = self.cells();
        let mut renamed = TermBuf::with_capacity(alloc, cells.len())?;
        for cell in cells {
            renamed.push(raised(*cell, base))?;
        }
        Ok(renamed.end_whole())
    }
}

/// The cell with `base` added to its number if it is a variable.
fn raised(cell: Cell, base: usize) -> Cell
    requires { AtVariable (λ n. n + base < 2 ^ 64) cell }
    ensures { result ≡ cell_by (λ n. n + base) cell }
{
    match cell {
        Cell::Var(number) => Cell::Var(number + base),
        other => other,
    }
}
