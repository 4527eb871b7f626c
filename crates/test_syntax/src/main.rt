//! Reads the terms of the file `texts` and writes each back in quotes on a line of its own, under the standard
//! operators: a worked check of the tokenizer, the reader and the writer together.
#![tactic(auto)]

ghost use Rattle.pl_reader.specs.Runs.{IsRead};

use pl_atoms::{Bytes, Name, Names, NoMemory};
use pl_ops::OpTable;
use pl_reader::{ReadFault, read};
use pl_tokens::{TokenFault, TokenRun, Tokens};
use pl_writer::{Quote, write_onto};
use plm_io::{FileShelf, Shelf, Sink, StdSink};
use prep_report::fault_line;
use std::alloc::Global;
use std::process::ExitCode;

fn main(rt: HostRuntime) -> ExitCode {
    match copy_back(&rt) {
        Ok(()) => ExitCode::from(0),
        Err(_) => ExitCode::from(1),
    }
}

/// Writes the lines of the file.
fn copy_back(rt: &HostRuntime) -> Result<(), NoMemory> {
    let name = Name::of(rt.alloc(), "texts")?;
    let Ok(text) = FileShelf::new(rt).fetch(rt.alloc(), &name) else {
        return Err(NoMemory);
    };
    let lines = written_back(rt.alloc(), text.as_slice())?;
    if lines.as_slice().is_empty() {
        return Ok(());
    }
    match StdSink::new(rt).put(rt.alloc(), lines.as_slice()) {
        Ok(()) => Ok(()),
        Err(_) => Err(NoMemory),
    }
}

/// A line for each term of the text, up to its first fault.
fn written_back(alloc: Global, text: &[u8]) -> Result<Bytes, NoMemory> {
    let table = OpTable::standard(alloc)?;
    let mut names = Names::new(alloc);
    let mut lines = Bytes::new(alloc);
    let mut tokens = Tokens::new(text);
    // each run takes at least one byte
    for _ in 0..text.len() {
        match tokens.next_run(alloc) {
            Ok(Some(run)) => push_term(alloc, &mut lines, &run, &table, &mut names)?,
            Ok(None) => break,
            Err(fault) => return with_fault(alloc, lines, fault),
        }
    }
    Ok(lines)
}

fn with_fault(alloc: Global, mut lines: Bytes, fault: TokenFault) -> Result<Bytes, NoMemory> {
    match fault {
        TokenFault::Fault { number, byte } => {
            let line = fault_line(alloc, b'P', number, b"texts", byte)?;
            lines.extend_from_slice(line.as_slice())?;
            Ok(lines)
        }
        TokenFault::NoMemory => Err(NoMemory),
    }
}

/// The line of a run.
fn push_term(
    alloc: Global,
    lines: &mut Bytes,
    run: &TokenRun,
    table: &OpTable,
    names: &mut Names,
) -> Result<(), NoMemory>
    requires { IsRead run.now }
{
    match read(alloc, run, table, names) {
        Ok(found) => write_onto(alloc, lines, &found.term, names, table, Quote::Quoted, 1200)?,
        Err(ReadFault::NoTerm) => lines.extend_from_slice(b"no term")?,
        Err(ReadFault::NoMemory) => return Err(NoMemory),
    }
    lines.push(b'\n')
}

#[cfg(test)]
mod tests;
