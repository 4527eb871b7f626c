//! Whole terms, and cells on the way to one.
ghost use Rattle.std.specs.Prelude.{◌≡◌, [], ◌∷◌, ◌++◌, ℕ, ◌↔◌, All, IsTrue, IfOk, IfErr, OnOk, OnErr};
ghost use Rattle.pl_terms.specs.Trees.{Tree};
ghost use Rattle.pl_terms.specs.Cells.{cells, IsCell, IsTerm};

use crate::cell::Cell;
use pl_atoms::NoMemory;
use std::alloc::Global;
use std::marker::Model;

/// One whole term, as cells in prefix order. Contracts see its tree, with names by number.
#[derive(Drop)]
pub struct Term {
    items: Vec<Cell>,
}

impl Model for Term {
    ghost use Rattle.std.specs.Prelude.{ℕ};
    ghost use Rattle.pl_terms.specs.Trees.{Tree};

    ghost Value = { Tree ℕ };

    ghost use Rattle.pl_terms.specs.TreeCode.{tree_code};

    ghost coded = { tree_code };

    ghost use Rattle.pl_terms.specs.Cells.{tree_of, IsTerm};

    ghost view = { λ t. tree_of t.items.items };

    ghost invariant = { λ t. IsTerm t.items.items };
}

impl Term {
    /// The cells of the term, from the left.
    pub fn cells(&self) -> &[Cell]
        ensures same { result.now ≡ cells self.now }
        ensures whole { IsTerm result.now }
    {
        self.items.as_slice()
    }
}

/// Cells on the way to a term.
#[derive(Drop)]
pub struct TermBuf {
    items: Vec<Cell>,
}

impl Model for TermBuf {
    ghost use Rattle.std.specs.Prelude.{List, All};
    ghost use Rattle.std.specs.Coded.{coded_list};
    ghost use Rattle.pl_terms.specs.declared.cell.Cell.{Cell};
    ghost use Rattle.pl_terms.specs.TreeCode.{cell_code};

    ghost Value = { List Cell };

    ghost coded = { coded_list cell_code };

    ghost use Rattle.pl_terms.specs.Cells.{IsCell};

    ghost view = { λ b. b.items.items };

    ghost invariant = { λ b. All IsCell b.items.items };
}

impl TermBuf {
    /// No cells yet.
    pub fn new(alloc: Global) -> TermBuf
        ensures { result ≡ [] }
    {
        TermBuf {
            items: Vec::new(alloc),
        }
    }

    /// No cells yet, with room for `capacity` of them.
    pub fn with_capacity(alloc: Global, capacity: usize) -> Result<TermBuf, NoMemory>
        ensures { IfOk result (λ buf. buf ≡ []) }
    {
        let items = Vec::with_capacity(alloc, capacity)?;
        Ok(TermBuf { items })
    }

    /// Puts a cell last.
    pub fn push(&mut self, cell: Cell) -> Result<(), NoMemory>
        requires { IsCell cell }
        ensures ok { OnOk result (self.new ≡ self.old ++ cell ∷ []) }
        ensures err { OnErr result (self.new ≡ self.old) }
    {
        match self.items.push(cell) {
            Ok(()) => Ok(()),
            Err(_) => Err(NoMemory),
        }
    }

    /// The term of the cells. Err exactly where they aren't one whole term, with the cells.
    pub fn end(self) -> Result<Term, TermBuf>
        ensures ok { IfOk result (λ t. cells t ≡ self) }
        ensures err { IfErr result (λ b. b ≡ self) }
        ensures no_term { OnErr result ((t : Tree ℕ) → cells t ≡ self → ⊥) }
    {
        if is_term(self.items.as_slice()) {
            let TermBuf { items } = self;
            Ok(Term { items })
        } else {
            Err(self)
        }
    }

    /// The term of cells that are known to be one whole term.
    pub fn end_whole(self) -> Term
        requires { IsTerm self }
        ensures { cells result ≡ self }
    {
        let TermBuf { items } = self;
        Term { items }
    }
}

/// Whether the cells are those of one whole term.
fn is_term(cells: &[Cell]) -> bool
    requires { All IsCell cells.now }
    ensures { IsTrue result ↔ IsTerm cells.now }
{
    let mut at = cells.len();
    let mut trees: usize = 0;
    while at > 0 {
        at -= 1;
        match cells[at] {
            Cell::Comp(_, arity) => {
                let arity = arity as usize;
                if trees < arity {
                    return false;
                }
                trees = trees - arity + 1;
            }
            _ => trees += 1,
        }
    }
    trees == 1
}
