//! The texts of names.
ghost use Rattle.std.specs.Prelude.{◌≡◌};
ghost use Rattle.pl_terms.specs.Order.{text_of};

use pl_atoms::{NameId, Names};

/// The text of a name: the empty text where no name of the table has this number.
pub fn text_of(names: &Names, name: NameId) -> &[u8]
    ensures { result.now ≡ text_of names.now name.0 }
{
    if name.0 < names.len() {
        names.text(name)
    } else {
        &[]
    }
}
