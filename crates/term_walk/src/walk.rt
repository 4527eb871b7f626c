//! Going over the cells of terms.
ghost use Rattle.std.specs.Prelude.{◌≡◌, ◌<◌, ◌≤◌, ◌+◌, [], All, IsTrue, ◌↔◌, length, take, drop, slice_index_or};
ghost use Rattle.pl_terms.specs.Trees.{nil, cons, count, front, back};
ghost use Rattle.pl_terms.specs.Order.{text_of};
ghost use Rattle.pl_terms.specs.Cells.{cells, all_cells, forest, first, IsForest, IsCell};
ghost use Rattle.term_walk.specs.Walks.{first_cell, entered, size, arity_of, is_functor};

use pl_atoms::{NameId, Names};
use pl_terms::{Cell, Term};
use std::marker::Model;

/// The text of a name, and no bytes for a number that the table doesn't have.
pub fn text(names: &Names, id: NameId) -> &[u8]
    ensures { result.now ≡ text_of names.now id.0 }
{
    if id.0 < names.len() {
        names.text(id)
    } else {
        &[]
    }
}

/// Terms one after another, gone over from the left in the order of their cells. Contracts see their trees.
#[derive(Drop)]
pub struct Walk<'a> {
    cells: &'a [Cell],
}

impl<'a> Model for Walk<'a> {
    ghost use Rattle.std.specs.Prelude.{ℕ};
    ghost use Rattle.pl_terms.specs.Trees.{Trees};

    ghost Value = { Trees ℕ };

    ghost use Rattle.term_walk.specs.Walks.{trees_code};

    ghost coded = { trees_code };

    ghost use Rattle.pl_terms.specs.Cells.{forest, IsForest};

    ghost view = { λ w. forest w.cells.now };

    ghost invariant = { λ w. IsForest w.cells.now };
}

impl<'a> Walk<'a> {
    /// A walk over this term.
    pub fn of(term: &'a Term) -> Walk<'a>
        ensures { result ≡ cons term.now nil }
    {
        Walk {
            cells: term.cells(),
        }
    }

    /// Whether any terms are left.
    pub fn has_more(&self) -> bool
        ensures { IsTrue result ↔ (0 < count self.now) }
    {
        !self.cells.is_empty()
    }

    /// The next cell. None exactly where nothing is left.
    pub fn peek(&self) -> Option<Cell>
        ensures { result ≡ first_cell self.now }
    {
        self.cells.first().copied()
    }

    /// Whether the next term is compound, with this name and number of arguments.
    pub fn is_functor(&self, names: &Names, name: &[u8], arity: u8) -> bool
        ensures { result ≡ is_functor (text_of names.now) name.now arity self.now }
    {
        match self.peek() {
            Some(Cell::Comp(id, k)) => k == arity && text(names, id) == name,
            _ => false,
        }
    }

    /// Goes past the next cell, if there is one: the arguments of a compound term come next.
    pub fn enter(&mut self)
        ensures trees { self.new ≡ entered self.old }
        ensures less { 0 < count self.old → size self.new < size self.old }
    {
        if !self.cells.is_empty() {
            let (_, others) = self.cells.split_at(1);
            self.cells = others;
        }
    }

    /// A second walk over what is left.
    pub fn again(&self) -> Walk<'a>
        ensures { result ≡ self.now }
    {
        Walk { cells: self.cells }
    }

    /// Goes past the next term, and gives its cells.
    pub fn take_tree(&mut self) -> &'a [Cell]
        requires { 0 < count self.old }
        ensures tree { result.now ≡ cells (first self.old) }
        ensures are { All IsCell result.now }
        ensures trees { self.new ≡ back 1 self.old }
        ensures less { size self.new < size self.old }
    {
        let (tree, others) = self.cells.split_at(tree_end(self.cells));
        self.cells = others;
        tree
    }
}

// The place after the first term.
fn tree_end(cells: &[Cell]) -> usize
    requires whole { IsForest cells.now }
    requires some { 0 < count (forest cells.now) }
    ensures within { result ≤ length cells.now }
    ensures tree { take result cells.now ≡ all_cells (front 1 (forest cells.now)) }
    ensures trees { forest (drop result cells.now) ≡ back 1 (forest cells.now) }
    ensures others { IsForest (drop result cells.now) }
{
    let mut at = 0;
    let mut pending = 1;
    while pending > 0 {
        pending = pending - 1 + arity(cells[at]);
        at += 1;
    }
    at
}

// The number of arguments of a cell.
fn arity(cell: Cell) -> usize
    ensures { result ≡ arity_of cell }
{
    match cell {
        Cell::Comp(_, arity) => arity as usize,
        _ => 0,
    }
}
