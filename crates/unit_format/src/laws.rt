//! Laws of units.
ghost use Rattle.std.specs.Prelude.{◌≡◌, List, ℕ};
ghost use Rattle.unit_model.specs.Facts.{Facts as FactsOf};
ghost use Rattle.unit_model.specs.Validity.{IsUnit};
ghost use Rattle.unit_model.specs.Encoding.{EncodingByPlaces};

/// The encoding of a unit's facts is its names and facts by number, as they stand.
pub fn encoding_law()
    ensures { EncodingByPlaces }
{}

/// Bytes are one unit's alone.
pub fn unit_law()
    ensures { (f g : FactsOf (List ℕ)) (bytes : List ℕ) → IsUnit f bytes → IsUnit g bytes → f ≡ g }
{}
