//! What modules give, and the causes of it.
ghost use Rattle.std.specs.Prelude.{◌≡◌, ◌<◌, [], ◌∷◌, ◌++◌, length, slice_index_or, OnOk};
ghost use Rattle.indexmap.specs.IndexSet.{insert_key};
ghost use Rattle.mod_visible.specs.Keys.{same_given};
ghost use Rattle.mod_visible.specs.Takers.{takers_in, IsChained};
ghost use Rattle.mod_visible.specs.Closing.{cause_by, passed, found_after, Brings, IsFrom, Spreads, Closes};

use crate::cause::{Cause, Sort};
use crate::keys::{Given, Procedure, Source};
use crate::takers::{Taker, Takers};
use indexmap::IndexSet;
use pl_atoms::{NameId, NoMemory};
use std::alloc::Global;
use unit_model::Ind;

/// What modules give as far as it was found, and the causes of visibility and of giving.
#[derive(Drop)]
pub struct Closing {
    pub found: IndexSet<Given>,
    pub causes: Vec<Cause>,
}

impl Closing {
    /// Nothing is found.
    pub fn new(alloc: Global) -> Closing
        ensures found { result.found.keys ≡ [] }
        ensures causes { result.causes.items ≡ [] }
    {
        Closing {
            found: IndexSet::new(alloc),
            causes: Vec::new(alloc),
        }
    }

    // What was found at a place.
    fn given(&self, at: usize) -> Given
        requires { at < length self.now.found.keys }
        ensures { slice_index_or self.now.found.keys at result ≡ result }
    {
        self.found.as_slice()[at]
    }

    /// Adds what a module gives, unless it is there.
    pub fn add(&mut self, given: Given) -> Result<(), NoMemory>
        ensures found { OnOk result (self.new.found.keys ≡ insert_key same_given self.old.found.keys given) }
        ensures causes { OnOk result (self.new.causes.items ≡ self.old.causes.items) }
    {
        self.found.insert(given)?;
        Ok(())
    }

    // What a taker takes of what a module gives.
    fn take(&mut self, taker: Taker, given: Given) -> Result<(), NoMemory>
        ensures found { OnOk result (self.new.found.keys ≡ found_after taker given self.old.found.keys) }
        ensures causes { OnOk result (self.new.causes.items ≡ self.old.causes.items ++ cause_by taker given ∷ []) }
    {
        self.causes.push(cause_by(taker, given))?;
        match taker.sort {
            Sort::Giving => self.add(passed(taker, given)),
            Sort::Seeing => Ok(()),
        }
    }

    // What all takers with this source take.
    fn spread(&mut self, takers: &Takers, source: Source, given: Given) -> Result<(), NoMemory>
        requires { IsChained takers.now.links.items takers.now.last.places.entries }
        ensures { OnOk result (Spreads (IsFrom source) (takers_in takers.now.links.items) given self.old.found.keys self.old.causes.items self.new.found.keys self.new.causes.items) }
    {
        let mut at = takers.last(source);
        while let Some(place) = at {
            let link = takers.link(place);
            self.take(link.taker, given)?;
            at = link.earlier;
        }
        Ok(())
    }

    // What all takers take.
    fn spread_all(&mut self, takers: &Takers, given: Given) -> Result<(), NoMemory>
        requires { IsChained takers.now.links.items takers.now.last.places.entries }
        ensures { OnOk result (Spreads (Brings given) (takers_in takers.now.links.items) given self.old.found.keys self.old.causes.items self.new.found.keys self.new.causes.items) }
    {
        self.spread(takers, Source::All(given.procedure.module), given)?;
        self.spread(takers, Source::One(given.procedure), given)?;
        Ok(())
    }

    /// Finds all that modules give, and what is taken of it.
    pub fn close(&mut self, takers: &Takers) -> Result<(), NoMemory>
        requires { IsChained takers.now.links.items takers.now.last.places.entries }
        ensures { OnOk result (Closes (takers_in takers.now.links.items) self.old.found.keys self.old.causes.items self.new.found.keys self.new.causes.items) }
    {
        let mut at = 0;
        while at < self.found.as_slice().len() {
            let given = self.given(at);
            self.spread_all(takers, given)?;
            at += 1;
        }
        Ok(())
    }
}

// The cause where a taker takes what a module gives.
fn cause_by(taker: Taker, given: Given) -> Cause
    ensures { result ≡ cause_by taker given }
{
    Cause {
        sort: taker.sort,
        module: taker.module,
        ind: Ind {
            name: NameId(given.procedure.name),
            arity: given.procedure.arity,
        },
        unit: taker.unit,
        byte: taker.byte,
        definer: NameId(given.definer),
    }
}

// What the taker's module gives then.
fn passed(taker: Taker, given: Given) -> Given
    ensures { result ≡ passed taker given }
{
    Given {
        procedure: Procedure {
            module: taker.module.0,
            name: given.procedure.name,
            arity: given.procedure.arity,
        },
        definer: given.definer,
    }
}
