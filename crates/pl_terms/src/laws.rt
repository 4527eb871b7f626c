//! Laws of trees.
ghost use Rattle.std.specs.Prelude.{◌≡◌, List, ◌++◌, ℕ};
ghost use Rattle.std.specs.declared.cmp.Ordering.TheVariants.{Equal};
ghost use Rattle.pl_terms.specs.declared.cell.Cell.{Cell};
ghost use Rattle.pl_terms.specs.Trees.{Tree, Trees, append};
ghost use Rattle.pl_terms.specs.Cells.{forest, all_cells};
ghost use Rattle.pl_terms.specs.Order.{standard_cmp};
ghost use Rattle.pl_terms.specs.Occurrence.{canon, IsNumbered};

/// The cells of trees spell those trees, whatever follows.
pub fn forest_law()
    ensures { (ts : Trees ℕ) (cs : List Cell) → forest (all_cells ts ++ cs) ≡ append ts (forest cs) }
{}

/// The standard order finds a tree equal to itself.
pub fn order_law()
    ensures { (t : Tree (List ℕ)) → standard_cmp t t ≡ Equal }
{}

/// A tree that is numbered in order of first occurrence is its own canonical form.
pub fn canon_law()
    ensures { (t : Tree (List ℕ)) → IsNumbered t → canon t ≡ t }
{}
