//! What a command makes before anything is put or written.
ghost use Rattle.std.specs.Prelude.{◌≡◌, ◌≢◌, ◌<◌, ◌⊎◌, Some, None, length};
ghost use Rattle.std.specs.Io.KnownBytes.{Keeps};
ghost use Rattle.plm_io.specs.Causes.{Rose};
ghost use Rattle.plmod.specs.Meets.{Gives, Answers, IsWhole, HasStored, KeepsOthers};
ghost use Rattle.plmod.specs.MadeOutcome.{outcome_of, CanBeTold, IsReady};

use crate::status::Status;
use pl_atoms::{Bytes, Name};
use plm_io::{IoFault, Shelf, Sink};
use std::alloc::Global;

/// The line that a command writes, its status, and the bytes that it puts under the name that it was given, if any.
#[derive(Drop)]
pub struct Made {
    pub line: Bytes,
    pub status: Status,
    pub stored: Option<Bytes>,
}

/// Puts what was made under the name, if there is anything, and then writes the line.
pub fn finish<S: Shelf, O: Sink>(
    alloc: Global,
    made: &Made,
    name: &Name,
    shelf: &mut S,
    out: &mut O,
) -> Status
    requires { IsReady made.now }
    ensures output { Gives result (outcome_of made.now) (O.written out.old) (O.written out.new) }
    ensures stored { IsWhole result → HasStored (Some name.now) (outcome_of made.now).stored (S.file shelf.old) (S.file shelf.new) }
    ensures write_fault { result ≡ Status.WriteFault →
        (Rose (S.put_faults shelf.old) (S.put_faults shelf.new) × Keeps (O.written out.old) (O.written out.new))
        ⊎ (Rose (O.faults out.old) (O.faults out.new) × HasStored (Some name.now) (outcome_of made.now).stored (S.file shelf.old) (S.file shelf.new)) }
    ensures others { KeepsOthers (Some name.now) (S.file shelf.old) (S.file shelf.new) }
    ensures read { result ≢ Status.ReadFault }
    ensures used { result ≢ Status.Usage }
{
    match &made.stored {
        None => put_last(alloc, made.line.as_slice(), made.status, out),
        Some(bytes) => match shelf.put(alloc, name, bytes.as_slice()) {
            Ok(()) => put_last(alloc, made.line.as_slice(), made.status, out),
            Err(IoFault::Failed) => Status::WriteFault,
            Err(IoFault::NoMemory) => Status::NoMemory,
        },
    }
}

/// Writes the lines that were made, if there are any.
pub fn tell<O: Sink>(alloc: Global, made: &Made, out: &mut O) -> Status
    requires { CanBeTold made.now }
    ensures output { Gives result (outcome_of made.now) (O.written out.old) (O.written out.new) }
    ensures write_fault { result ≡ Status.WriteFault → Rose (O.faults out.old) (O.faults out.new) }
    ensures read { result ≢ Status.ReadFault }
    ensures used { result ≢ Status.Usage }
{
    let line = made.line.as_slice();
    if line.is_empty() {
        return made.status;
    }
    put_last(alloc, line, made.status, out)
}

/// Writes the last line of a command, and answers this status.
pub fn put_last<O: Sink>(alloc: Global, line: &[u8], status: Status, out: &mut O) -> Status
    requires some { 0 < length line.now }
    requires whole { IsWhole status }
    ensures output { Answers result status line.now (O.written out.old) (O.written out.new) }
    ensures write_fault { result ≡ Status.WriteFault → Rose (O.faults out.old) (O.faults out.new) }
    ensures read { result ≢ Status.ReadFault }
    ensures used { status ≢ Status.Usage → result ≢ Status.Usage }
{
    match out.put(alloc, line) {
        Ok(()) => status,
        Err(IoFault::Failed) => Status::WriteFault,
        Err(IoFault::NoMemory) => Status::NoMemory,
    }
}
