//! Making terms of terms that are there.
ghost use Rattle.std.specs.Prelude.{◌≡◌, ◌+◌, ◌<◌, ◌≤◌, ◌++◌, ◌∷◌, [], map, length, IfOk, OnErr};
ghost use Rattle.pl_terms.specs.Trees.{int, atom, comp};
ghost use Rattle.pl_unify.specs.Prefix.{trees};
ghost use Rattle.pl_unify.specs.Making.{AreRefs};
ghost use Rattle.pl_unify.specs.Words.{WordIn, word_tree};
ghost use Rattle.pl_unify.specs.State.{IsRef, Grows, tree_at, base as bases_of};

use super::Store;
use crate::list::put;
use crate::word::{Ref, Word, int_word};
use pl_atoms::{NameId, NoMemory};

impl Store {
    /// Makes the compound of this name whose arguments are the terms of these places. NoMemory: all is as before.
    pub fn compound(&mut self, name: NameId, args: &[Ref]) -> Result<Ref, NoMemory>
        requires places { AreRefs self.old.state args.now }
        requires some { 1 ≤ length args.now }
        requires few { length args.now ≤ 255 }
        ensures grows { Grows self.old.state self.new.state }
        ensures next { self.new.state.next ≡ self.old.state.next }
        ensures place { IfOk result (λ at. IsRef self.new.state at) }
        ensures tree { IfOk result (λ at. tree_at self.new.state at ≡ comp name.0 (trees (map (tree_at self.old.state) args.now))) }
        ensures err { OnErr result (self.new.state ≡ self.old.state) }
    {
        let first = self.cells.len();
        self.reserve(args.len() + 1, 0, 0)?;
        for at in args {
            let word = self.resolve(self.cell(at.0));
            self.put_word(word);
        }
        let place = self.cells.len();
        self.put_word(Word::Comp(args.len() as u8, name, first));
        Ok(Ref(place))
    }

    /// Makes an atom. NoMemory: all is as before.
    pub fn place_of_name(&mut self, name: NameId) -> Result<Ref, NoMemory>
        ensures grows { Grows self.old.state self.new.state }
        ensures next { self.new.state.next ≡ self.old.state.next }
        ensures place { IfOk result (λ at. IsRef self.new.state at) }
        ensures tree { IfOk result (λ at. tree_at self.new.state at ≡ atom name.0) }
        ensures err { OnErr result (self.new.state ≡ self.old.state) }
    {
        let place = self.cells.len();
        self.reserve(1, 0, 0)?;
        self.put_word(Word::Name(name));
        Ok(Ref(place))
    }

    /// Makes an integer. NoMemory: all is as before.
    pub fn place_of_int(&mut self, value: i64) -> Result<Ref, NoMemory>
        ensures grows { Grows self.old.state self.new.state }
        ensures next { self.new.state.next ≡ self.old.state.next }
        ensures place { IfOk result (λ at. IsRef self.new.state at) }
        ensures tree { IfOk result (λ at. tree_at self.new.state at ≡ int value) }
        ensures err { OnErr result (self.new.state ≡ self.old.state) }
    {
        let place = self.cells.len();
        self.reserve(1, 0, 0)?;
        self.put_word(int_word(value));
        Ok(Ref(place))
    }

    // Puts a word at a place of its own, for which there is room.
    pub(super) fn put_word(&mut self, word: Word)
        requires within { WordIn (length self.old.state.cells) self.old.state.next word }
        requires room { 1 ≤ self.old.cell_room }
        ensures grows { Grows self.old.state self.new.state }
        ensures next { self.new.state.next ≡ self.old.state.next }
        ensures base { bases_of self.new.state ≡ bases_of self.old.state ++ word_tree (bases_of self.old.state) word ∷ [] }
        ensures count { length self.new.state.cells ≡ length self.old.state.cells + 1 }
        ensures room { self.old.cell_room ≤ self.new.cell_room + 1 }
    {
        put(&mut self.cells, word);
    }
}
