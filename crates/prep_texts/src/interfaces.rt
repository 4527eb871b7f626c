//! Interfaces in the order in which they became known.
ghost use Rattle.std.specs.Prelude.{◌≡◌, [], ◌∷◌, ◌++◌, map, None, OnOk, OnErr, IfSome, IfNone};
ghost use Rattle.unit_model.specs.Preparing.{operators_known};
ghost use Rattle.prep_texts.specs.Interfaces.{interface_view, interfaces_view, operators_view, IsIndexed, IsGrown};

use indexmap::IndexMap;
use pl_atoms::{Bytes, Items, NoMemory};
use pl_ops::Op;
use std::alloc::Global;

/// An operator of an interface, with the text of its name.
#[derive(Drop)]
pub struct KnownOperator {
    pub op: Op,
    pub name: Bytes,
}

/// The interface of a module: its operators in the order of their declarations.
#[derive(Drop)]
pub struct KnownInterface {
    pub module: Bytes,
    pub operators: Items<KnownOperator>,
}

/// Interfaces, and for each module the place of its first.
#[derive(Drop)]
pub struct Interfaces {
    pub all: Vec<KnownInterface>,
    pub firsts: IndexMap<Vec<u8>, usize>,
}

impl Interfaces {
    /// No interfaces.
    pub fn new(alloc: Global) -> Interfaces
        ensures none { result.all.items ≡ [] }
        ensures indexed { IsIndexed result }
    {
        Interfaces {
            all: Vec::new(alloc),
            firsts: IndexMap::new(alloc),
        }
    }

    /// The operators of the first interface of the module of this name. None exactly where there is none.
    pub fn operators(&self, name: &[u8]) -> Option<&[KnownOperator]>
        requires { IsIndexed self.now }
        ensures some { IfSome result (λ os. operators_known (interfaces_view self.now) name.now ≡ Some (operators_view os.now)) }
        ensures none { IfNone result (operators_known (interfaces_view self.now) name.now ≡ None) }
    {
        match self.firsts.get(name) {
            Some(place) => Some(self.all[*place].operators.as_slice()),
            None => None,
        }
    }

    /// Puts an interface last.
    pub fn push(&mut self, alloc: Global, interface: KnownInterface) -> Result<(), NoMemory>
        requires { IsIndexed self.old }
        ensures ok { OnOk result (interfaces_view self.new ≡ interfaces_view self.old ++ interface_view interface ∷ []) }
        ensures indexed { OnOk result (IsIndexed self.new) }
        ensures grown { IsGrown self.old self.new }
    {
        let place = self.all.as_slice().len();
        if self.firsts.get(interface.module.as_slice()).is_some() {
            self.all.push(interface)?;
            return Ok(());
        }
        let key = Vec::from_slice(alloc, interface.module.as_slice())?;
        self.all.push(interface)?;
        self.firsts.insert(key, place)?;
        Ok(())
    }
}
