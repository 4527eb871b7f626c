//! The numbers of procedures.
ghost use Rattle.std.specs.Prelude.{◌≡◌, [], Some, OnOk, if◌then◌else◌};
ghost use Rattle.std.specs.Map.{lookup};
ghost use Rattle.mod_linker.specs.declared.key.Key.{Key};
ghost use Rattle.mod_linker.specs.Keys.{same_key};

use crate::key::Key;
use indexmap::IndexMap;
use pl_atoms::NoMemory;
use std::alloc::Global;

/// The number of each procedure of a program.
#[derive(Drop)]
pub struct Known {
    pub numbers: IndexMap<Key, usize>,
}

impl Known {
    /// No procedures.
    pub fn new(alloc: Global) -> Known
        ensures { result.numbers.entries ≡ [] }
    {
        Known {
            numbers: IndexMap::new(alloc),
        }
    }

    /// The number of a procedure.
    pub fn get(&self, key: Key) -> Option<usize>
        ensures { result ≡ lookup (same_key key) self.now.numbers.entries }
    {
        match self.numbers.get(&key) {
            Some(number) => Some(*number),
            None => None,
        }
    }

    /// Puts a number down.
    pub fn put(&mut self, key: Key, number: usize) -> Result<(), NoMemory>
        ensures { OnOk result ((k : Key) → lookup (same_key k) self.new.numbers.entries ≡ (if same_key key k then Some number else lookup (same_key k) self.old.numbers.entries)) }
    {
        self.numbers.insert(key, number)?;
        Ok(())
    }
}
