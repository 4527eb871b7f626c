//! The modes of metapredicates.
ghost use Rattle.std.specs.Prelude.{◌≡◌, ◌<◌, length, None, Some, false, slice_index_or, IfOk, IfErr, option_map};
ghost use Rattle.pl_terms.specs.Order.{texts_of};
ghost use Rattle.unit_model.specs.Directives.{mode_term_in};

use pl_atoms::{Names, NoMemory};
use pl_terms::Term;
use std::alloc::Global;
use std::marker::Model;
use term_walk::{ModeTerm, Walk, mode_term};
use thiserror::Error;
use unit_model::ModeList;

/// Why a term gives no modes.
#[derive(Clone, Copy, Debug, PartialEq, Eq, Error)]
pub enum ModesFault {
    /// The term is no mode term.
    #[error("a mode term is a compound term with the arguments : and *")]
    BadModes,
    /// A growth was refused.
    #[error("no memory")]
    NoMemory,
}

impl From<NoMemory> for ModesFault {
    ghost use Rattle.mod_meta.specs.declared.modes.ModesFault.TheVariants.{NoMemory as OutOfMemory};

    ghost from_gives = { λ _ e. e ≡ OutOfMemory };

    fn from(_e: NoMemory) -> ModesFault {
        ModesFault::NoMemory
    }
}

/// For each argument of a metapredicate whether it is a metaargument. Contracts see a list of flags.
#[derive(Drop)]
pub struct Modes {
    flags: ModeList,
}

impl Model for Modes {
    ghost use Rattle.std.specs.Prelude.{List, Bool};

    ghost Value = { List Bool };

    ghost view = { λ m. m.flags };
}

impl Modes {
    /// The modes that a mode term gives: `:` for a metaargument, and `*` for another. `BadModes` exactly where the term is none.
    pub fn of(alloc: Global, term: &Term, names: &Names) -> Result<Modes, ModesFault>
        ensures ok { IfOk result (λ modes. option_map (λ m. m.1) (mode_term_in (texts_of names.now term.now)) ≡ Some modes) }
        ensures bad { IfErr result (λ e. e ≡ ModesFault.BadModes → mode_term_in (texts_of names.now term.now) ≡ None) }
    {
        match mode_term(alloc, &Walk::of(term), names)? {
            Some(found) => {
                let ModeTerm { name: _, modes } = found;
                Ok(Modes { flags: modes })
            }
            None => Err(ModesFault::BadModes),
        }
    }

    /// These modes.
    pub fn from_slice(alloc: Global, flags: &[bool]) -> Result<Modes, NoMemory>
        ensures { IfOk result (λ modes. modes ≡ flags.now) }
    {
        let flags = Vec::from_slice(alloc, flags)?;
        Ok(Modes {
            flags: ModeList::from_vec(flags),
        })
    }

    /// How many arguments there are.
    pub fn len(&self) -> usize
        ensures { result ≡ length self.now }
    {
        self.flags.as_slice().len()
    }

    /// Whether argument `k`, counted from 0, is a metaargument.
    pub fn is_meta(&self, k: u8) -> bool
        requires { k < length self.now }
        ensures { result ≡ slice_index_or self.now k false }
    {
        self.flags.as_slice()[k as usize]
    }
}
