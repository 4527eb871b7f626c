//! Names by number.
ghost use Rattle.std.specs.Prelude.{◌≡◌, [], ◌<◌, ◌↔◌, length, slice_get, slice_index_or, Some, IsTrue, IfOk, OnOk, OnErr};
ghost use Rattle.std.specs.Option.{option_map};
ghost use Rattle.pl_atoms.specs.Names.{with_text, text_place, AreDistinct};

use crate::memory::NoMemory;
use indexmap::IndexSet;
use std::alloc::Global;
use std::marker::Model;

/// A name by its number in a table of names.
#[derive(Clone, Copy, Debug, PartialEq, Eq)]
pub struct NameId(pub usize);

/// A table of names: distinct texts, each with its place as its number. A text keeps its number. Contracts see the texts in the
/// order of their numbers.
#[derive(Drop)]
pub struct Names {
    texts: IndexSet<Vec<u8>>,
}

impl Model for Names {
    ghost use Rattle.std.specs.Prelude.{List, ℕ, map};

    ghost Value = { List (List ℕ) };

    ghost view = { λ n. map (λ text. text.items) n.texts.keys };
}

impl Names {
    /// No names. It takes no memory.
    pub fn new(alloc: Global) -> Names
        ensures { result ≡ [] }
    {
        Names {
            texts: IndexSet::new(alloc),
        }
    }

    /// The number of this text, which is put last if it is new. Want of memory leaves the table as it was.
    pub fn intern(&mut self, text: &[u8]) -> Result<NameId, NoMemory>
        ensures ok { OnOk result (self.new ≡ with_text self.old text.now) }
        ensures number { IfOk result (λ id. slice_get self.new id.0 ≡ Some text.now) }
        ensures below { IfOk result (λ id. id.0 < length self.new) }
        ensures err { OnErr result (self.new ≡ self.old) }
    {
        if let Some(id) = self.find(text) {
            return Ok(id);
        }
        let copy = Vec::from_slice(*self.texts.allocator(), text)?;
        let (place, _) = self.texts.insert_full(copy)?;
        Ok(NameId(place))
    }

    /// The number of this text, if the table has it.
    pub fn find(&self, text: &[u8]) -> Option<NameId>
        ensures { option_map (λ id. id.0) result ≡ text_place self.now text.now }
    {
        let place = self.texts.get_index_of(text)?;
        Some(NameId(place))
    }

    /// The text of a number.
    pub fn text(&self, id: NameId) -> &[u8]
        requires { id.0 < length self.now }
        ensures { result.now ≡ slice_index_or self.now id.0 [] }
    {
        self.texts.as_slice()[id.0].as_slice()
    }

    /// How many names there are.
    pub fn len(&self) -> usize
        ensures length { result ≡ length self.now }
        ensures distinct { AreDistinct self.now }
    {
        self.texts.len()
    }

    /// Whether there are none.
    pub fn is_empty(&self) -> bool
        ensures { IsTrue result ↔ (self.now ≡ []) }
    {
        self.texts.is_empty()
    }
}
