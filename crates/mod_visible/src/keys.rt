//! What procedures and modules are looked up by.
ghost use Rattle.std.specs.Prelude.{◌≡◌};
ghost use Rattle.mod_visible.specs.Keys as keys;
ghost use Rattle.mod_visible.specs.Leasts as leasts;

use crate::cause::{Cause, Sort};
use pl_atoms::NameId;
use unit_model::Ind;

/// A procedure of a module, by the numbers of their names.
#[derive(Clone, Copy, Debug, PartialEq, Eq, Hash)]
pub struct Procedure {
    pub module: usize,
    pub name: usize,
    pub arity: u8,
}

/// A procedure that a module gives, and the module that defines it.
#[derive(Clone, Copy, Debug, PartialEq, Eq, Hash)]
pub struct Given {
    pub procedure: Procedure,
    pub definer: usize,
}

/// What a directive takes from a module: all that it gives, or one procedure.
#[derive(Clone, Copy, Debug, PartialEq, Eq, Hash)]
pub enum Source {
    All(usize),
    One(Procedure),
}

/// What causes are told apart by: their sort, module and procedure.
#[derive(Clone, Copy, Debug, PartialEq, Eq, Hash)]
pub enum Key {
    Seen(Procedure),
    Given(Procedure),
}

impl Procedure {
    /// The procedure of this module with this indicator.
    pub fn of(home: NameId, ind: Ind) -> Procedure
        ensures { result ≡ keys.procedure home ind }
    {
        Procedure {
            module: home.0,
            name: ind.name.0,
            arity: ind.arity,
        }
    }
}

impl Key {
    /// What this cause is for.
    pub fn of(cause: &Cause) -> Key
        ensures { result ≡ leasts.key_of cause.now }
    {
        Key::with(cause.sort, Procedure::of(cause.module, cause.ind))
    }

    /// The key of this sort and procedure.
    pub fn with(sort: Sort, procedure: Procedure) -> Key
        ensures { result ≡ leasts.key_for sort procedure }
    {
        match sort {
            Sort::Seeing => Key::Seen(procedure),
            Sort::Giving => Key::Given(procedure),
        }
    }
}
