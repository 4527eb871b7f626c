//! Needs of other modules.
ghost use Rattle.std.specs.Prelude.{◌≡◌, ℕ, List, ◌<◌, ◌||◌, length, OnOk};
ghost use Rattle.pl_atoms.specs.Names.{IsFront};
ghost use Rattle.unit_model.specs.Encoding.{text_at};
ghost use Rattle.unit_model.specs.Preparing.{Interface};
ghost use Rattle.prep_texts.specs.Interfaces.{operators_view};
ghost use Rattle.prep_texts.specs.Seen.{seen, is_needed, needing};
ghost use Rattle.prep_texts.specs.Drafts.{state_of, IsWell};

use crate::draft::Draft;
use crate::interfaces::KnownOperator;
use crate::operators::interned;
use pl_atoms::{NameId, NoMemory};
use std::alloc::Global;
use term_walk::text;
use unit_model::Need;

impl Draft {
    /// Whether the module of this name has an interface here, or a need.
    fn is_needed(&self, name: &[u8]) -> bool
        requires { IsWell self.now }
        ensures { (known : List Interface) → result ≡ is_needed name.now (seen (state_of known self.now)) }
    {
        self.own.operators(name).is_some() || self.needed.find(name).is_some()
    }

    /// Notes that the text takes this module from elsewhere, with these operators of its interface, unless the module has an
    /// interface here, or a need already.
    pub fn need(
        &mut self,
        alloc: Global,
        operators: &[KnownOperator],
        name: NameId,
        byte: usize,
    ) -> Result<(), NoMemory>
        requires well { IsWell self.old }
        requires below { name.0 < length self.old.names }
        ensures well { OnOk result (IsWell self.new) }
        ensures names { OnOk result (IsFront self.old.names self.new.names) }
        ensures needs { OnOk result ((known : List Interface) → seen (state_of known self.new) ≡ needing (text_at self.old.names name.0) (operators_view operators.now) byte (seen (state_of known self.old))) }
        ensures same { OnOk result (self.new ≡ record self.old { names = self.new.names; needed = self.new.needed; needs = self.new.needs }) }
    {
        if self.is_needed(text(&self.names, name)) {
            return Ok(());
        }
        let ops = interned(alloc, operators, &mut self.names)?;
        let need = Need {
            byte,
            module: name,
            ops,
        };
        self.needs.push(need)?;
        self.needed.intern(text(&self.names, name))?;
        Ok(())
    }
}
