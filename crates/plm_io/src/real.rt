//! Real files and the standard output: the trusted edge. They tell no content.
ghost use Rattle.std.specs.Prelude.{◌≡◌, ℕ, ◌≤◌, ◌<◌, List, length, Option, None, IfOk, OnErr, IsErrOf};
ghost use Rattle.plm_io.specs.Causes.{HasCause};

use crate::traits::{IoFault, MOST_BYTES, Shelf, Sink};
use pl_atoms::{Bytes, Name};
use std::alloc::Global;
use std::fs;
use std::io::{Read, Write};
use std::rt::Files;

const PIECE: usize = 4096;

/// Real files, with one count of fetches for all names.
#[derive(Drop)]
pub struct FileShelf<'a, R: Files> {
    rt: &'a R,
    fetch_faults: u64,
    put_faults: u64,
}

impl<'a, R: Files> FileShelf<'a, R> {
    pub fn new(rt: &'a R) -> Self {
        FileShelf {
            rt,
            fetch_faults: 0,
            put_faults: 0,
        }
    }
}

impl<'a, R: Files> Shelf for FileShelf<'a, R> {
    ghost file = { λ _ _. None };

    ghost fetch_faults = { λ s _. s.fetch_faults };

    ghost put_faults = { λ s. s.put_faults };

    fn fetch(&mut self, alloc: Global, name: &Name) -> Result<Bytes, IoFault> {
        let result = read_file(alloc, self.rt, name);
        if let Err(IoFault::Failed) = &result {
            self.fetch_faults = self.fetch_faults.saturating_add(1);
        }
        result
    }

    fn put(&mut self, _alloc: Global, name: &Name, bytes: &[u8]) -> Result<(), IoFault> {
        let result = write_file(self.rt, name, bytes);
        if let Err(IoFault::Failed) = &result {
            self.put_faults = self.put_faults.saturating_add(1);
        }
        result
    }
}

/// All bytes of a file, at most `MOST_BYTES`.
fn read_file<R: Files>(alloc: Global, rt: &R, name: &Name) -> Result<Bytes, IoFault>
    ensures { IfOk result (λ bytes. length bytes ≤ MOST_BYTES) }
{
    match fs::open(rt, name.as_str()) {
        Ok(mut file) => read_all(alloc, &mut file),
        Err(_) => Err(IoFault::Failed),
    }
}

/// All that a reader gives, at most `MOST_BYTES`.
fn read_all<F: Read>(alloc: Global, file: &mut F) -> Result<Bytes, IoFault>
    ensures { IfOk result (λ bytes. length bytes ≤ MOST_BYTES) }
{
    let mut vec: Vec<u8> = Vec::new(alloc);
    let mut piece = [0u8; PIECE];
    while vec.len() <= MOST_BYTES {
        match file.read(&mut piece) {
            Err(_) => return Err(IoFault::Failed),
            Ok(0) => return Ok(Bytes::from_vec(vec)),
            Ok(count) => vec.extend_from_slice(&piece[..count])?,
        }
    }
    Err(IoFault::Failed)
}

/// Makes the bytes the whole of a file.
fn write_file<R: Files>(rt: &R, name: &Name, bytes: &[u8]) -> Result<(), IoFault> {
    match fs::create(rt, name.as_str()) {
        Ok(mut file) => write_all(&mut file, bytes),
        Err(_) => Err(IoFault::Failed),
    }
}

fn write_all<F: Write>(file: &mut F, bytes: &[u8]) -> Result<(), IoFault> {
    let mut rest = bytes;
    while !rest.is_empty() {
        match file.write(rest) {
            Err(_) | Ok(0) => return Err(IoFault::Failed),
            Ok(count) => rest = &rest[count..],
        }
    }
    Ok(())
}

/// The standard output.
#[derive(Drop)]
pub struct StdSink<'a, R: Print> {
    rt: &'a R,
    faults: u64,
}

impl<'a, R: Print> StdSink<'a, R> {
    pub fn new(rt: &'a R) -> Self {
        StdSink { rt, faults: 0 }
    }
}

impl<'a, R: Print> Sink for StdSink<'a, R> {
    ghost written = { λ _. None };

    ghost faults = { λ s. s.faults };

    fn put(&mut self, _alloc: Global, bytes: &[u8]) -> Result<(), IoFault> {
        let result = print_all(self.rt, bytes);
        if let Err(IoFault::Failed) = &result {
            self.faults = self.faults.saturating_add(1);
        }
        result
    }
}

fn print_all<R: Print>(rt: &R, bytes: &[u8]) -> Result<(), IoFault> {
    let mut rest = bytes;
    while !rest.is_empty() {
        match rt.write_some(rest) {
            Err(_) | Ok(0) => return Err(IoFault::Failed),
            Ok(count) => rest = &rest[count..],
        }
    }
    Ok(())
}
