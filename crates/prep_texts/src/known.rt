//! The interfaces that texts know.
ghost use Rattle.std.specs.Prelude.{◌≡◌, [], ◌++◌, IfSome, IfNone, OnOk, OnErr, Some, None};
ghost use Rattle.unit_format.specs.Views.{unit_facts};
ghost use Rattle.unit_model.specs.Preparing.{operators_known};
ghost use Rattle.unit_model.specs.Known.{interfaces_of, AreGood};
ghost use Rattle.prep_texts.specs.Interfaces.{operators_view, interfaces_view, IsIndexed, IsGrown};

use crate::interfaces::{Interfaces, KnownOperator};
use crate::making::interface_made;
use crate::sections::is_interface;
use pl_atoms::NoMemory;
use std::alloc::Global;
use std::marker::Model;
use unit_format::Unit;

/// The interfaces that texts prepared from now on know, in the order in which they were given. Of two of one module the first is
/// meant.
#[derive(Drop)]
pub struct Known {
    interfaces: Interfaces,
    alloc: Global,
}

impl Model for Known {
    ghost use Rattle.std.specs.Prelude.{List};
    ghost use Rattle.unit_model.specs.Preparing.{Interface};

    ghost Value = { List Interface };

    ghost use Rattle.prep_texts.specs.Interfaces.{interfaces_view, IsIndexed};
    ghost use Rattle.unit_model.specs.Known.{AreGood};

    ghost view = { λ k. interfaces_view k.interfaces };

    ghost invariant = { λ k. IsIndexed k.interfaces × AreGood (interfaces_view k.interfaces) };
}

impl Known {
    /// No interfaces.
    pub fn new(alloc: Global) -> Known
        ensures { result ≡ [] }
    {
        Known {
            interfaces: Interfaces::new(alloc),
            alloc,
        }
    }

    /// Adds the interfaces of a unit, in their order. Want of memory leaves what was known as it was.
    pub fn add(&mut self, unit: &Unit) -> Result<(), NoMemory>
        ensures ok { OnOk result (self.new ≡ self.old ++ interfaces_of (unit_facts unit.now)) }
        ensures err { OnErr result (self.new ≡ self.old) }
    {
        let all = self.interfaces.all.as_slice().len();
        let firsts = self.interfaces.firsts.len();
        let added = add_interfaces(self.alloc, &mut self.interfaces, unit);
        if added.is_err() {
            self.interfaces.all.truncate(all);
            self.interfaces.firsts.truncate(firsts);
        }
        added
    }

    /// The interfaces are those of valid units.
    pub(crate) fn are_good(&self)
        ensures { AreGood self.now }
    {
        let _count = self.interfaces.all.as_slice().len();
    }

    /// The operators of the first interface of the module of this name. None exactly where there is none.
    pub(crate) fn operators(&self, name: &[u8]) -> Option<&[KnownOperator]>
        ensures some { IfSome result (λ os. operators_known self.now name.now ≡ Some (operators_view os.now)) }
        ensures none { IfNone result (operators_known self.now name.now ≡ None) }
    {
        self.interfaces.operators(name)
    }
}

// Puts the interfaces of a unit last. After want of memory some may have been put.
fn add_interfaces(alloc: Global, interfaces: &mut Interfaces, unit: &Unit) -> Result<(), NoMemory>
    requires { IsIndexed interfaces.old }
    ensures ok { OnOk result (interfaces_view interfaces.new ≡ interfaces_view interfaces.old ++ interfaces_of (unit_facts unit.now)) }
    ensures indexed { OnOk result (IsIndexed interfaces.new) }
    ensures grown { IsGrown interfaces.old interfaces.new }
{
    'adding: for section in unit.facts.sections.as_slice() {
        if is_interface(section.kind) {
            let interface = interface_made(
                alloc,
                &unit.names,
                section.module,
                section.entries.as_slice(),
            )?;
            interfaces.push(alloc, interface)?;
        }
    }
    Ok(())
}
