//! Imports and re-exports by the module that they take from.
ghost use Rattle.std.specs.Prelude.{◌≡◌, ◌<◌, [], ◌∷◌, ◌++◌, length, slice_index_or, Some, IfOk, OnOk, if◌then◌else◌};
ghost use Rattle.mod_visible.specs.declared.keys.Source.{Source};
ghost use Rattle.std.specs.List.{filter_map};
ghost use Rattle.std.specs.Map.{lookup};
ghost use Rattle.mod_visible.specs.Keys.{same_source};
ghost use Rattle.mod_visible.specs.Takers.{taker, taker_of, takers_in, IsChained};

use crate::cause::Sort;
use crate::keys::{Procedure, Source};
use crate::placed::{Placed, Role};
use indexmap::IndexMap;
use pl_atoms::{NameId, NoMemory};
use std::alloc::Global;

/// An import or a re-export.
#[derive(Clone, Copy, Debug)]
pub struct Taker {
    pub sort: Sort,
    pub module: NameId,
    pub unit: usize,
    pub byte: usize,
    pub source: Source,
}

/// A taker, and the last one before it with the same source.
#[derive(Clone, Copy, Debug)]
pub struct Link {
    pub taker: Taker,
    pub earlier: Option<usize>,
}

// The place of the last taker with each source.
#[derive(Drop)]
pub struct LastTakers {
    places: IndexMap<Source, usize>,
}

impl LastTakers {
    fn get(&self, source: Source) -> Option<usize>
        ensures { result ≡ lookup (same_source source) self.now.places.entries }
    {
        match self.places.get(&source) {
            Some(place) => Some(*place),
            None => None,
        }
    }

    // Puts a place down, and hands out the one before it.
    fn put(&mut self, source: Source, place: usize) -> Result<Option<usize>, NoMemory>
        ensures earlier { IfOk result (λ earlier. earlier ≡ lookup (same_source source) self.old.places.entries) }
        ensures places { OnOk result ((s : Source) → lookup (same_source s) self.new.places.entries ≡ (if same_source source s then Some place else lookup (same_source s) self.old.places.entries)) }
    {
        let earlier = self.places.insert(source, place)?;
        Ok(earlier)
    }
}

/// Takers in their order, those with one source linked from the last to the first.
#[derive(Drop)]
pub struct Takers {
    pub links: Vec<Link>,
    pub last: LastTakers,
}

impl Takers {
    fn new(alloc: Global) -> Takers
        ensures links { result.links.items ≡ [] }
        ensures last { result.last.places.entries ≡ [] }
    {
        Takers {
            links: Vec::new(alloc),
            last: LastTakers {
                places: IndexMap::new(alloc),
            },
        }
    }

    /// The imports and re-exports among these entries.
    pub fn of(alloc: Global, entries: &[Placed]) -> Result<Takers, NoMemory>
        ensures takers { IfOk result (λ t. takers_in t.links.items ≡ filter_map taker_of entries.now) }
        ensures chained { IfOk result (λ t. IsChained t.links.items t.last.places.entries) }
    {
        let mut takers = Takers::new(alloc);
        for entry in entries {
            takers.add(entry)?;
        }
        Ok(takers)
    }

    fn add(&mut self, entry: &Placed) -> Result<(), NoMemory>
        requires { IsChained self.old.links.items self.old.last.places.entries }
        ensures takers { OnOk result (takers_in self.new.links.items ≡ takers_in self.old.links.items ++ filter_map taker_of (entry.now ∷ [])) }
        ensures chained { OnOk result (IsChained self.new.links.items self.new.last.places.entries) }
    {
        match taker_of(entry) {
            Some(taker) => self.push(taker),
            None => Ok(()),
        }
    }

    fn push(&mut self, taker: Taker) -> Result<(), NoMemory>
        requires { IsChained self.old.links.items self.old.last.places.entries }
        ensures takers { OnOk result (takers_in self.new.links.items ≡ takers_in self.old.links.items ++ taker ∷ []) }
        ensures chained { OnOk result (IsChained self.new.links.items self.new.last.places.entries) }
    {
        let place = self.links.as_slice().len();
        let earlier = self.last.put(taker.source, place)?;
        self.links.push(Link { taker, earlier })?;
        Ok(())
    }

    /// The link of a place.
    pub fn link(&self, place: usize) -> Link
        requires { place < length self.now.links.items }
        ensures { slice_index_or self.now.links.items place result ≡ result }
    {
        self.links.as_slice()[place]
    }

    /// The last taker with this source.
    pub fn last(&self, source: Source) -> Option<usize>
        ensures { result ≡ lookup (same_source source) self.now.last.places.entries }
    {
        self.last.get(source)
    }
}

impl Taker {
    fn of(entry: &Placed, sort: Sort, source: Source) -> Taker
        ensures { result ≡ taker entry.now sort source }
    {
        Taker {
            sort,
            module: entry.module,
            unit: entry.unit,
            byte: entry.byte,
            source,
        }
    }
}

/// What an entry takes, if it is an import or a re-export.
fn taker_of(entry: &Placed) -> Option<Taker>
    ensures { result ≡ taker_of entry.now }
{
    match entry.role {
        Role::ReexportingAll(from) => Some(Taker::of(entry, Sort::Giving, Source::All(from.0))),
        Role::Reexporting(from, ind) => Some(Taker::of(
            entry,
            Sort::Giving,
            Source::One(Procedure::of(from, ind)),
        )),
        Role::ImportingAll(from) => Some(Taker::of(entry, Sort::Seeing, Source::All(from.0))),
        Role::Importing(from, ind) => Some(Taker::of(
            entry,
            Sort::Seeing,
            Source::One(Procedure::of(from, ind)),
        )),
        _ => None,
    }
}
