//! Laws of names.
ghost use Rattle.std.specs.Prelude.{◌≡◌, List, [], ℕ, ◌<◌, ◌↔◌, length, slice_index, slice_index_or};
ghost use Rattle.pl_atoms.specs.Names.{AreDistinct, IsFront, Remaps};

/// Two numbers of a table are equal exactly where their texts are.
pub fn names_law()
    ensures { (texts : List (List ℕ)) → AreDistinct texts → (m n : ℕ) → m < length texts → n < length texts → (m ≡ n) ↔ (slice_index_or texts m [] ≡ slice_index_or texts n []) }
{}

/// Where a table grows, each number that it had keeps its text.
pub fn front_law()
    ensures { (old new : List (List ℕ)) → IsFront old new → (n : ℕ) → n < length old → slice_index_or new n [] ≡ slice_index_or old n [] }
{}

/// Numbers of two tables, each taken into a third, are equal there exactly where their texts are.
pub fn remap_law()
    ensures { (first second into : List (List ℕ)) (ms ns : List ℕ) → AreDistinct into → Remaps first into ms → Remaps second into ns → (m n : ℕ) → m < length first → n < length second → (slice_index ms m ≡ slice_index ns n) ↔ (slice_index_or first m [] ≡ slice_index_or second n []) }
{}

/// What numbers are in a table stays so where it grows.
pub fn remap_front_law()
    ensures { (from old new : List (List ℕ)) (numbers : List ℕ) → IsFront old new → Remaps from old numbers → Remaps from new numbers }
{}
