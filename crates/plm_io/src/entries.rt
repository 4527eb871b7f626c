//! Files in memory, the newest first.
ghost use Rattle.std.specs.Prelude.{◌≡◌, ℕ, ◌≤◌, List, [], ◌∷◌, length, IfSome, OnOk, OnErr, option_copied};
ghost use Rattle.plm_io.specs.Files.{file_of};

use crate::traits::MOST_BYTES;
use pl_atoms::{Bytes, Name, NoMemory};
use std::alloc::Global;
use std::marker::Model;

#[derive(Drop)]
pub struct Stored {
    pub name: Name,
    pub bytes: Bytes,
}

/// Entries of which the first under a name is the file. Each has at most `MOST_BYTES` bytes.
#[derive(Drop)]
pub struct Entries {
    vec: Vec<Stored>,
    alloc: Global,
}

impl Model for Entries {
    ghost use Rattle.std.specs.Prelude.{List};
    ghost use Rattle.plm_io.specs.declared.entries.Stored.{Stored};
    ghost use Rattle.plm_io.specs.Files.{AreShort};

    ghost Value = { List Stored };

    ghost view = { λ e. e.vec.items };

    ghost invariant = { λ e. AreShort e.vec.items };
}

impl Entries {
    pub fn new(alloc: Global) -> Self
        ensures { result ≡ [] }
    {
        Entries {
            vec: Vec::new(alloc),
            alloc,
        }
    }

    pub fn find(&self, name: &Name) -> Option<&Bytes>
        ensures found { option_copied result ≡ file_of self.now name.now }
        ensures short { IfSome result (λ bytes. length bytes.now ≤ MOST_BYTES) }
    {
        first_under(&self.vec, name.as_bytes())
    }

    pub fn put(&mut self, name: &Name, bytes: &[u8]) -> Result<(), NoMemory>
        requires { length bytes.now ≤ MOST_BYTES }
        ensures ok { OnOk result (self.new ≡ record { name = name.now; bytes = bytes.now } ∷ self.old) }
        ensures err { OnErr result (self.new ≡ self.old) }
    {
        let name = Name::of(self.alloc, name.as_str())?;
        let bytes = Bytes::from_slice(self.alloc, bytes)?;
        self.vec.insert(0, Stored { name, bytes })?;
        Ok(())
    }
}

/// The bytes of the first entry under the name.
fn first_under<'a>(entries: &'a [Stored], name: &[u8]) -> Option<&'a Bytes>
    ensures { option_copied result ≡ file_of entries.now name.now }
{
    for entry in entries {
        if entry.name.as_bytes() == name {
            return Some(&entry.bytes);
        }
    }
    None
}
