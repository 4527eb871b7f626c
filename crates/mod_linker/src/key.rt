//! What procedures are looked up by.
ghost use Rattle.std.specs.Prelude.{◌≡◌};
ghost use Rattle.mod_linker.specs.Keys as keys;

use pl_atoms::NameId;
use unit_model::Ind;

/// A procedure of a module, by the numbers of their names.
#[derive(Clone, Copy, Debug, PartialEq, Eq, Hash)]
pub struct Key {
    pub home: usize,
    pub name: usize,
    pub arity: u8,
}

impl Key {
    /// The key of a module's procedure.
    pub fn of(home: NameId, ind: Ind) -> Key
        ensures { result ≡ keys.key home ind }
    {
        Key {
            home: home.0,
            name: ind.name.0,
            arity: ind.arity,
        }
    }
}
