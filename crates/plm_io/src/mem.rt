//! A shelf and a sink in memory, which fail at the calls whose numbers they were given.
ghost use Rattle.std.specs.Prelude.{◌≡◌, ◌≢◌, ℕ, ◌≤◌, ◌<◌, ◌↔◌, List, [], ◌∷◌, ◌++◌, length, Option, Some, None, IfSome, IfOk, OnOk, OnErr, IsErrOf, IsTrue, Contains, option_map, option_copied};
ghost use Rattle.std.specs.Io.KnownBytes.{Appends};
ghost use Rattle.plm_io.specs.Causes.{HasCause, AppendsFront};
ghost use Rattle.plm_io.specs.Files.{file_of};
ghost use Rattle.plm_io.specs.MemState.{FetchFails, next_count};

use crate::entries::Entries;
use crate::traits::{IoFault, MOST_BYTES, Shelf, Sink};
use pl_atoms::{Bytes, Items, Name, NoMemory};
use std::alloc::Global;
use std::marker::Model;

/// Numbers of calls, counted from 0.
pub type CallList = Items<u64>;

/// Files in memory. A fetch fails exactly where nothing is under the name or the call's number is
/// among those that fail, and a put exactly where its number is. Calls of both kinds are counted
/// from 0 together. A failed call changes no file.
#[derive(Drop)]
pub struct MemShelf {
    entries: Entries,
    fails: CallList,
    calls: u64,
    fetch_faults: u64,
    put_faults: u64,
}

impl Model for MemShelf {
    ghost use Rattle.plm_io.specs.MemState.{ShelfState};

    ghost Value = { ShelfState };

    ghost view = { λ s. record { entries = s.entries; fails = s.fails; calls = s.calls; fetch_faults = s.fetch_faults; put_faults = s.put_faults } };
}

impl MemShelf {
    pub fn new(alloc: Global, fails: CallList) -> Self
        ensures { result ≡ record { entries = []; fails = fails; calls = 0; fetch_faults = 0; put_faults = 0 } }
    {
        MemShelf {
            entries: Entries::new(alloc),
            fails,
            calls: 0,
            fetch_faults: 0,
            put_faults: 0,
        }
    }

    /// Puts a file there, for tests.
    pub fn add(&mut self, name: &Name, bytes: &[u8]) -> Result<(), NoMemory>
        requires { length bytes.now ≤ MOST_BYTES }
        ensures ok { OnOk result (self.new ≡ record self.old { entries = record { name = name.now; bytes = bytes.now } ∷ self.old.entries }) }
        ensures err { OnErr result (self.new ≡ self.old) }
    {
        self.entries.put(name, bytes)?;
        Ok(())
    }

    /// The bytes under a name.
    pub fn get(&self, name: &Name) -> Option<&[u8]>
        ensures { option_map (λ bytes. bytes.now) result ≡ file_of self.now.entries name.now }
    {
        let found = self.entries.find(name)?;
        Some(found.as_slice())
    }

    /// Whether the next call fails, and counts it.
    fn next_call_fails(&mut self) -> bool
        ensures fails { IsTrue result ↔ Contains self.old.fails self.old.calls }
        ensures counted { self.new ≡ record self.old { calls = next_count self.old.calls } }
    {
        let fails = self.fails.as_slice().contains(&self.calls);
        self.calls = self.calls.saturating_add(1);
        fails
    }
}

impl Shelf for MemShelf {
    ghost file = { λ s name. Some (file_of s.entries name) };

    ghost fetch_faults = { λ s _. s.fetch_faults };

    ghost put_faults = { λ s. s.put_faults };

    fn fetch(&mut self, alloc: Global, name: &Name) -> Result<Bytes, IoFault>
        ensures found { IfOk result (λ bytes. file_of self.old.entries name.now ≡ Some bytes) }
        ensures limit { IfOk result (λ bytes. length bytes ≤ MOST_BYTES) }
        ensures files { ◌≡◌ {A = List ℕ → Option (Option (List ℕ))} (λ other. Some (file_of self.new.entries other)) (λ other. Some (file_of self.old.entries other)) }
        ensures cause { HasCause self.old.fetch_faults self.new.fetch_faults result }
        ensures counts { (other : List ℕ) → self.old.fetch_faults ≤ self.new.fetch_faults }
        ensures puts { self.new.put_faults ≡ self.old.put_faults }
        ensures exact { IsErrOf result IoFault.Failed ↔ FetchFails self.old name.now }
        ensures entries { self.new.entries ≡ self.old.entries }
        ensures calls { self.new.calls ≡ next_count self.old.calls }
    {
        if self.next_call_fails() {
            self.fetch_faults = self.fetch_faults.saturating_add(1);
            return Err(IoFault::Failed);
        }
        match self.entries.find(name) {
            None => {
                self.fetch_faults = self.fetch_faults.saturating_add(1);
                Err(IoFault::Failed)
            }
            Some(found) => Ok(Bytes::from_slice(alloc, found.as_slice())?),
        }
    }

    fn put(&mut self, _alloc: Global, name: &Name, bytes: &[u8]) -> Result<(), IoFault>
        requires { length bytes.now ≤ MOST_BYTES }
        ensures stored { OnOk result (Some (file_of self.new.entries name.now) ≡ Some (Some bytes.now)) }
        ensures others { (other : List ℕ) → other ≢ name.now → Some (file_of self.new.entries other) ≡ Some (file_of self.old.entries other) }
        ensures cause { HasCause self.old.put_faults self.new.put_faults result }
        ensures fetches { ◌≡◌ {A = List ℕ → ℕ} (λ _. self.new.fetch_faults) (λ _. self.old.fetch_faults) }
        ensures exact { IsErrOf result IoFault.Failed ↔ Contains self.old.fails self.old.calls }
        ensures refused { OnErr result (self.new.entries ≡ self.old.entries) }
        ensures calls { self.new.calls ≡ next_count self.old.calls }
    {
        if self.next_call_fails() {
            self.put_faults = self.put_faults.saturating_add(1);
            return Err(IoFault::Failed);
        }
        self.entries.put(name, bytes)?;
        Ok(())
    }
}

/// Bytes in memory. A put fails exactly where its number, counted from 0, is among those that fail,
/// and then appends nothing.
#[derive(Drop)]
pub struct MemSink {
    bytes: Bytes,
    fails: CallList,
    calls: u64,
    faults: u64,
}

impl Model for MemSink {
    ghost use Rattle.plm_io.specs.MemState.{SinkState};

    ghost Value = { SinkState };

    ghost view = { λ s. record { bytes = s.bytes; fails = s.fails; calls = s.calls; faults = s.faults } };
}

impl MemSink {
    pub fn new(alloc: Global, fails: CallList) -> Self
        ensures { result ≡ record { bytes = []; fails = fails; calls = 0; faults = 0 } }
    {
        MemSink {
            bytes: Bytes::new(alloc),
            fails,
            calls: 0,
            faults: 0,
        }
    }

    pub fn bytes(&self) -> &[u8]
        ensures { result.now ≡ self.now.bytes }
    {
        self.bytes.as_slice()
    }
}

impl Sink for MemSink {
    ghost written = { λ s. Some s.bytes };

    ghost faults = { λ s. s.faults };

    fn put(&mut self, _alloc: Global, bytes: &[u8]) -> Result<(), IoFault>
        requires { 0 < length bytes.now }
        ensures all { OnOk result (Appends (Some self.old.bytes) (Some self.new.bytes) bytes.now) }
        ensures front { OnErr result (AppendsFront (Some self.old.bytes) (Some self.new.bytes) bytes.now) }
        ensures cause { HasCause self.old.faults self.new.faults result }
        ensures exact { IsErrOf result IoFault.Failed ↔ Contains self.old.fails self.old.calls }
        ensures refused { OnErr result (self.new.bytes ≡ self.old.bytes) }
        ensures calls { self.new.calls ≡ next_count self.old.calls }
    {
        let fails = self.fails.as_slice().contains(&self.calls);
        self.calls = self.calls.saturating_add(1);
        if fails {
            self.faults = self.faults.saturating_add(1);
            return Err(IoFault::Failed);
        }
        self.bytes.extend_from_slice(bytes)?;
        Ok(())
    }
}
