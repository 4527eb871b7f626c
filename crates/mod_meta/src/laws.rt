//! Laws of qualified goals.
ghost use Rattle.std.specs.Prelude.{◌≡◌, List, ℕ, Some, slice_get, codes};
ghost use Rattle.pl_atoms.specs.Names.{AreDistinct};
ghost use Rattle.builtin_model.specs.Naming.{by_numbers};
ghost use Rattle.mod_meta.specs.Qualified.{IsColon};

/// Where a number stands for the name `:` in a table of distinct names, it is that name's, and no other number is.
pub fn colon_law()
    ensures { (names : List (List ℕ)) (colon : ℕ) → AreDistinct names → slice_get names colon ≡ Some (codes ":") → IsColon (by_numbers names) colon }
{}
