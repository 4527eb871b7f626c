//! A shelf and a sink in memory that never fail.
ghost use Rattle.std.specs.Prelude.{◌≡◌, ◌≢◌, ℕ, ◌≤◌, ◌<◌, List, [], ◌∷◌, ◌++◌, length, Option, Some, None, IfSome, IfOk, OnOk, OnErr, IsErrOf, option_map, unwrap_or};
ghost use Rattle.std.specs.Io.KnownBytes.{Appends};
ghost use Rattle.plm_io.specs.Causes.{HasCause, AppendsFront};
ghost use Rattle.plm_io.specs.Files.{file_of};

use crate::entries::Entries;
use crate::traits::{IoFault, MOST_BYTES, Shelf, Sink};
use pl_atoms::{Bytes, Name, NoMemory};
use std::alloc::Global;
use std::marker::Model;

/// Files in memory. An absent name is an empty file, and no call fails.
#[derive(Drop)]
pub struct QuietShelf {
    entries: Entries,
}

impl Model for QuietShelf {
    ghost use Rattle.std.specs.Prelude.{List};
    ghost use Rattle.plm_io.specs.declared.entries.Stored.{Stored};

    ghost Value = { List Stored };

    ghost view = { λ s. s.entries };
}

impl QuietShelf {
    pub fn new(alloc: Global) -> Self
        ensures { result ≡ [] }
    {
        QuietShelf {
            entries: Entries::new(alloc),
        }
    }

    /// Puts a file there, for tests.
    pub fn add(&mut self, name: &Name, bytes: &[u8]) -> Result<(), NoMemory>
        requires { length bytes.now ≤ MOST_BYTES }
        ensures ok { OnOk result (self.new ≡ record { name = name.now; bytes = bytes.now } ∷ self.old) }
        ensures err { OnErr result (self.new ≡ self.old) }
    {
        self.entries.put(name, bytes)?;
        Ok(())
    }
}

impl Shelf for QuietShelf {
    ghost file = { λ s name. Some (Some (unwrap_or (file_of s name) [])) };

    ghost fetch_faults = { λ _ _. 0 };

    ghost put_faults = { λ _. 0 };

    fn fetch(&mut self, alloc: Global, name: &Name) -> Result<Bytes, IoFault> {
        match self.entries.find(name) {
            None => Ok(Bytes::new(alloc)),
            Some(found) => Ok(Bytes::from_slice(alloc, found.as_slice())?),
        }
    }

    fn put(&mut self, _alloc: Global, name: &Name, bytes: &[u8]) -> Result<(), IoFault> {
        self.entries.put(name, bytes)?;
        Ok(())
    }
}

/// Bytes in memory. No put fails.
#[derive(Drop)]
pub struct QuietSink {
    bytes: Bytes,
}

impl Model for QuietSink {
    ghost use Rattle.std.specs.Prelude.{List, ℕ};

    ghost Value = { List ℕ };

    ghost view = { λ s. s.bytes };
}

impl QuietSink {
    pub fn new(alloc: Global) -> Self
        ensures { result ≡ [] }
    {
        QuietSink {
            bytes: Bytes::new(alloc),
        }
    }

    pub fn bytes(&self) -> &[u8]
        ensures { result.now ≡ self.now }
    {
        self.bytes.as_slice()
    }
}

impl Sink for QuietSink {
    ghost written = { λ s. Some s };

    ghost faults = { λ _. 0 };

    fn put(&mut self, _alloc: Global, bytes: &[u8]) -> Result<(), IoFault> {
        self.bytes.extend_from_slice(bytes)?;
        Ok(())
    }
}
