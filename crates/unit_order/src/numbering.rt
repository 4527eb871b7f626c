//! New numbers of names.
ghost use Rattle.std.specs.Prelude.{◌≡◌, ℕ, ◌<◌, [], length, slice_index_or, None, IfOk, OnOk};
ghost use Rattle.unit_order.specs.Numbering.{noted, number_in};

use pl_atoms::{NameId, NoMemory};
use std::alloc::Global;
use std::marker::Model;

/// The new numbers of names: each name's is its place in the order of first use. Contracts see the names' old numbers in that order.
#[derive(Drop)]
pub struct Numbering {
    // At each old number the new one, if it has one.
    places: Vec<Option<usize>>,
    used: Vec<usize>,
}

impl Model for Numbering {
    ghost use Rattle.std.specs.Prelude.{List, ℕ};
    ghost use Rattle.unit_order.specs.Numbering.{ArePlaces};

    ghost Value = { List ℕ };

    ghost view = { λ n. n.used.items };

    ghost invariant = { λ n. ArePlaces n.places.items n.used.items };
}

impl Numbering {
    /// No names yet, with room for the numbers below `count`.
    pub fn with_room(alloc: Global, count: usize) -> Result<Numbering, NoMemory>
        ensures { IfOk result (λ used. used ≡ []) }
    {
        let places = Vec::with_capacity(alloc, count)?;
        let used = Vec::new(alloc);
        Ok(Numbering { places, used })
    }

    /// Puts a name last, unless it is there.
    pub fn note(&mut self, name: NameId) -> Result<(), NoMemory>
        ensures { OnOk result (self.new ≡ noted self.old name.0) }
    {
        if place_at(self.places.as_slice(), name.0).is_some() {
            return Ok(());
        }
        reach(&mut self.places, name.0)?;
        let used = self.used.as_slice();
        let place = used.len();
        self.used.push(name.0)?;
        self.places[name.0] = Some(place);
        Ok(())
    }

    /// The new number of a name. A name that isn't there has the next number.
    pub fn number(&self, name: NameId) -> NameId
        ensures { result.0 ≡ number_in self.now name.0 }
    {
        let used = self.used.as_slice();
        match place_at(self.places.as_slice(), name.0) {
            Some(place) => NameId(place),
            None => NameId(used.len()),
        }
    }

    /// The old numbers of the names, in the order of first use.
    pub fn names(&self) -> &[usize]
        ensures { result.now ≡ self.now }
    {
        self.used.as_slice()
    }
}

fn place_at(places: &[Option<usize>], at: usize) -> Option<usize>
    ensures { result ≡ slice_index_or places.now at None }
{
    if at < places.len() { places[at] } else { None }
}

/// Makes the list longer, with no places, until it has one with this index.
fn reach(places: &mut Vec<Option<usize>>, index: usize) -> Result<(), NoMemory>
    ensures long { OnOk result (index < length places.new.items) }
    ensures same { (k : ℕ) → slice_index_or places.new.items k None ≡ slice_index_or places.old.items k None }
{
    while places.len() <= index {
        places.push(None)?;
    }
    Ok(())
}
