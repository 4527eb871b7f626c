//! The modes that interfaces declare.
ghost use Rattle.std.specs.Prelude.{◌≡◌, [], ◌∷◌, ◌++◌, List, Some, nat_eq, IfOk, OnOk, if◌then◌else◌};
ghost use Rattle.std.specs.List.{AllByRecursion};
ghost use Rattle.std.specs.Map.{lookup};
ghost use Rattle.std.specs.Option.{option_or};
ghost use Rattle.unit_model.specs.Directives.{Text};
ghost use Rattle.program_model.specs.Saying.{modes_in};
ghost use Rattle.mod_linker.specs.declared.key.Key.{Key};
ghost use Rattle.mod_linker.specs.Items.{item_view, items_view};
ghost use Rattle.mod_linker.specs.Usable.{IsUsable};
ghost use Rattle.mod_linker.specs.Keys.{ind_of, same_key, AreDeclared};

use crate::items::Item;
use crate::key::Key;
use indexmap::IndexMap;
use mod_meta::Modes;
use pl_atoms::NoMemory;
use std::alloc::Global;
use unit_model::{ModeList, What};

/// The last modes of each procedure.
#[derive(Drop)]
pub struct Declared {
    pub modes: IndexMap<Key, ModeList>,
}

impl Declared {
    /// The last modes that these entries declare.
    pub fn of(alloc: Global, items: &[Item]) -> Result<Declared, NoMemory>
        requires { AllByRecursion IsUsable items.now }
        ensures { IfOk result (λ d. AreDeclared (items_view items.now) d.modes.entries) }
    {
        let mut declared = Declared {
            modes: IndexMap::new(alloc),
        };
        for item in items {
            declared.add(alloc, item)?;
        }
        Ok(declared)
    }

    fn add(&mut self, alloc: Global, item: &Item) -> Result<(), NoMemory>
        requires { IsUsable item.now }
        ensures { OnOk result ((k : Key) → lookup (same_key k) self.new.modes.entries ≡ option_or (modes_in nat_eq k.home (ind_of k) (item_view item.now).of (item_view item.now).what) (lookup (same_key k) self.old.modes.entries)) }
    {
        match item.what {
            What::Meta(name, modes) => {
                let key = Key {
                    home: item.home.0,
                    name: item.remap.get(*name).0,
                    arity: modes.as_slice().len() as u8,
                };
                let copy = Vec::from_slice(alloc, modes.as_slice())?;
                self.put(key, ModeList::from_vec(copy))
            }
            _ => Ok(()),
        }
    }

    fn put(&mut self, key: Key, modes: ModeList) -> Result<(), NoMemory>
        ensures { OnOk result ((k : Key) → lookup (same_key k) self.new.modes.entries ≡ (if same_key key k then Some modes else lookup (same_key k) self.old.modes.entries)) }
    {
        self.modes.insert(key, modes)?;
        Ok(())
    }

    /// The last modes of a procedure.
    pub fn get(&self, alloc: Global, key: Key) -> Result<Option<Modes>, NoMemory>
        ensures { IfOk result (λ modes. modes ≡ lookup (same_key key) self.now.modes.entries) }
    {
        match self.modes.get(&key) {
            Some(modes) => {
                let modes = Modes::from_slice(alloc, modes.as_slice())?;
                Ok(Some(modes))
            }
            None => Ok(None),
        }
    }
}
