//! Names that built-in predicates read, and names that they write into terms.
ghost use Rattle.std.specs.Prelude.{◌≡◌, slice_get, Some, IfOk, OnOk, OnErr};
ghost use Rattle.pl_atoms.specs.Names.{IsFront, AreDistinct};
ghost use Rattle.pl_terms.specs.Order.{text_of};
ghost use Rattle.builtin_model.specs.Naming.{number_in};
ghost use Rattle.pl_builtin_ends.specs.Made.{HasText};

use pl_atoms::{NameId, Names, NoMemory};

/// The text of a name: the empty text where no name of the table has this number.
pub fn text_of(names: &Names, name: NameId) -> &[u8]
    ensures { result.now ≡ text_of names.now name.0 }
{
    if name.0 < names.len() {
        names.text(name)
    } else {
        &[]
    }
}

/// The number of a text, which is put into the table if it is new.
pub fn intern(names: &mut Names, text: &[u8]) -> Result<NameId, NoMemory>
    ensures number { IfOk result (λ name. name.0 ≡ number_in names.new text.now) }
    ensures known { IfOk result (λ name. slice_get names.new name.0 ≡ Some text.now) }
    ensures distinct { OnOk result (AreDistinct names.new) }
    ensures front { IsFront names.old names.new }
    ensures err { OnErr result (names.new ≡ names.old) }
    ensures there { HasText names.old text.now → names.new ≡ names.old }
{
    let name = names.intern(text)?;
    let _count = names.len();
    Ok(name)
}
