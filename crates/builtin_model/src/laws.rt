//! Laws of the definitions.
ghost use Rattle.std.specs.Prelude.{◌≡◌, ℕ, List};
ghost use Rattle.pl_terms.specs.Trees.{Tree};
ghost use Rattle.value_model.specs.Value.{value as value_of};
ghost use Rattle.builtin_model.specs.Naming.{by_numbers};
ghost use Rattle.builtin_model.specs.Values.{value, as_valued};
ghost use Rattle.builtin_model.specs.Renaming.{DoesByTexts, WritesByTexts};

/// Over the numbers of a table the value of an expression is the one that evaluation gives.
pub fn value_law()
    ensures { (names : List (List ℕ)) (t : Tree ℕ) → value (by_numbers names) t ≡ as_valued (value_of names t) }
{}

/// With numbers for names a row does what it does with their texts.
pub fn text_law()
    ensures { DoesByTexts }
{}

/// With numbers for names a row writes what it writes with their texts.
pub fn output_law()
    ensures { WritesByTexts }
{}
