//! The variables of a term.
ghost use Rattle.std.specs.Prelude.{◌≡◌, IfOk};
ghost use Rattle.pl_terms.specs.Occurrence.{variables};

use crate::cell::Cell;
use crate::term::Term;
use indexmap::IndexSet;
use pl_atoms::{NoMemory, VarList};
use std::alloc::Global;

impl Term {
    /// The numbers of the variables in order of first occurrence, each once (ISO/IEC 13211-1, 7.1.1.1).
    pub fn variables(&self, alloc: Global) -> Result<VarList, NoMemory>
        ensures { IfOk result (λ list. list ≡ variables self.now) }
    {
        let mut seen = IndexSet::new(alloc);
        let cells = self.cells();
        for cell in cells {
            if let Cell::Var(number) = *cell {
                seen.insert(number)?;
            }
        }
        let numbers = Vec::from_slice(alloc, seen.as_slice())?;
        Ok(VarList::from_vec(numbers))
    }
}
