//! What names are.
ghost use Rattle.std.specs.Prelude.{◌≡◌};
ghost use Rattle.unit_model.specs.Builtins.{is_builtin};
ghost use Rattle.unit_model.specs.Encoding.{text_at};

use pl_atoms::{CaseTable, NameId, Names};
use unit_model::builtins;

/// The text of a number, empty where the table has none.
pub fn text(names: &Names, id: NameId) -> &[u8]
    ensures { result.now ≡ text_at names.now id.0 }
{
    if id.0 < names.len() {
        names.text(id)
    } else {
        &[]
    }
}

/// Whether a procedure is built in.
pub fn is_builtin(name: &[u8], arity: u8) -> bool
    ensures { result ≡ is_builtin name.now arity }
{
    let table = CaseTable::new(builtins());
    table.find(name, arity as u32).is_some()
}
