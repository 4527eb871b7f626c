//! Names of one table in another.
ghost use Rattle.std.specs.Prelude.{◌≡◌, ◌<◌, length, slice_index, IfOk, OnOk};
ghost use Rattle.pl_atoms.specs.Names.{with_texts, IsFront, Remaps};

use crate::memory::NoMemory;
use crate::names::{NameId, Names};
use std::alloc::Global;
use std::marker::Model;

/// What the numbers of one table are in another. Contracts see the numbers of the other, in the order of those of the first.
#[derive(Drop)]
pub struct Remap {
    ids: Vec<NameId>,
}

impl Model for Remap {
    ghost use Rattle.std.specs.Prelude.{List, ℕ, map};

    ghost Value = { List ℕ };

    ghost view = { λ r. map (λ id. id.0) r.ids.items };
}

impl Remap {
    /// Interns each name of `from` in `into`, in its order. After want of memory `into` may hold more names, and each that it had
    /// keeps its number.
    pub fn of(alloc: Global, from: &Names, into: &mut Names) -> Result<Remap, NoMemory>
        ensures ok { IfOk result (Remaps from.now into.new) }
        ensures texts { OnOk result (into.new ≡ with_texts into.old from.now) }
        ensures front { IsFront into.old into.new }
    {
        let count = from.len();
        let mut ids = Vec::with_capacity(alloc, count)?;
        for place in 0..count {
            let id = into.intern(from.text(NameId(place)))?;
            ids.push(id)?;
        }
        Ok(Remap { ids })
    }

    /// The number that this name of the first table has in the second.
    pub fn get(&self, id: NameId) -> NameId
        requires { id.0 < length self.now }
        ensures { result.0 ≡ slice_index self.now id.0 }
    {
        self.ids[id.0]
    }
}
