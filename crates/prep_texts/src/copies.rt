//! Copies of entries.
ghost use Rattle.std.specs.Prelude.{◌≡◌, ◌++◌, IfOk, OnOk};

use pl_atoms::NoMemory;
use pl_terms::{Term, TermBuf};
use std::alloc::Global;
use unit_model::{Entries, Entry, ModeList, What};

// A copy of a term.
fn term_copy(alloc: Global, term: &Term) -> Result<Term, NoMemory>
    ensures { IfOk result (λ copy. copy ≡ term.now) }
{
    let cells = term.cells();
    let mut copy = TermBuf::with_capacity(alloc, cells.len())?;
    'copying: for cell in cells {
        copy.push(*cell)?;
    }
    Ok(copy.end_whole())
}

// A copy of a list of modes.
fn modes_copy(alloc: Global, modes: &ModeList) -> Result<ModeList, NoMemory>
    ensures { IfOk result (λ copy. copy ≡ modes.now) }
{
    let mut copy = ModeList::new(alloc);
    'copying: for mode in modes.as_slice() {
        copy.push(*mode)?;
    }
    Ok(copy)
}

// A copy of what an entry says.
fn what_copy(alloc: Global, what: &What) -> Result<What, NoMemory>
    ensures { IfOk result (λ copy. copy ≡ what.now) }
{
    match what {
        What::Export(indicator) => Ok(What::Export(*indicator)),
        What::ReexportAll(name) => Ok(What::ReexportAll(*name)),
        What::Reexport(name, indicator) => Ok(What::Reexport(*name, *indicator)),
        What::Meta(name, modes) => Ok(What::Meta(*name, modes_copy(alloc, modes)?)),
        What::Operator(declared) => Ok(What::Operator(*declared)),
        What::ImportAll(name) => Ok(What::ImportAll(*name)),
        What::Import(name, indicator) => Ok(What::Import(*name, *indicator)),
        What::Clause(count, head, body) => Ok(What::Clause(
            *count,
            term_copy(alloc, head)?,
            term_copy(alloc, body)?,
        )),
    }
}

/// Puts copies of these entries last.
pub fn append(alloc: Global, into: &mut Entries, entries: &[Entry]) -> Result<(), NoMemory>
    ensures { OnOk result (into.new ≡ into.old ++ entries.now) }
{
    'appending: for entry in entries {
        let what = what_copy(alloc, &entry.what)?;
        into.push(Entry {
            byte: entry.byte,
            what,
        })?;
    }
    Ok(())
}
