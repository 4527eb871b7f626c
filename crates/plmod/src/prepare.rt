//! The command `prepare`.
ghost use Rattle.std.specs.Prelude.{◌≡◌, ◌+◌, ◌≤◌, length, map, Some, IfOk};
ghost use Rattle.unit_model.specs.Views.{entries_view, what_view, section_view};
ghost use Rattle.unit_format.specs.Views.{unit_facts};
ghost use Rattle.plmod.specs.Words.{Prepare};
ghost use Rattle.plmod.specs.Prepares.{PrepareGives, faulty as faulty_outcome, clause_count, clauses_in_entries, clauses_in_entry};
ghost use Rattle.plmod.specs.Gathering.{AreGathered, TextGives, UnitGives};
ghost use Rattle.plmod.specs.MadeOutcome.{outcome_of, IsReady};
ghost use Rattle.plmod.specs.Meets.{Meets};
ghost use Rattle.plmod.specs.Knowing.{PreparesKnown};

use crate::answer::{Made, finish};
use crate::fetch::{fetch_all, read_status};
use crate::status::Status;
use pl_atoms::{Bytes, Name, NoMemory};
use plm_io::{Shelf, Sink};
use prep_report::{fault_line, not_unit_line, prepared_line};
use prep_texts::{Known, PrepFault, prepare};
use std::alloc::Global;
use unit_format::{EncodeFault, Unit, UnitFault, decode, encode};
use unit_model::{Entry, Section, What};

/// The command `prepare`: makes a unit of a text, where the interfaces of units are known, and puts it.
pub fn prepare_text<S: Shelf, O: Sink>(
    alloc: Global,
    unit: &Name,
    text: &Name,
    known: &[Name],
    shelf: &mut S,
    out: &mut O,
) -> Status
    ensures meets { Meets (Some (Prepare unit.now text.now known.now)) result (record {
      file = S.file shelf.old;
      file_after = S.file shelf.new;
      fetches = S.fetch_faults shelf.old;
      fetches_after = S.fetch_faults shelf.new;
      puts = S.put_faults shelf.old;
      puts_after = S.put_faults shelf.new;
      written = O.written out.old;
      written_after = O.written out.new;
      faults = O.faults out.old;
      faults_after = O.faults out.new;
    }) }
{
    match shelf.fetch(alloc, text) {
        Ok(bytes) => prepare_known(alloc, unit, text, bytes.as_slice(), known, shelf, out),
        Err(fault) => read_status(fault),
    }
}

// What a list of files is, where they are to be units.
enum Gathered {
    // The place of the first that is none.
    NoUnit(usize),
    // What they let a text know.
    All(Known),
}

/// What comes of a text under this name, where these files are known.
fn made_of(
    alloc: Global,
    name: &Name,
    text: &[u8],
    known: &[Name],
    contents: &[Bytes],
) -> Result<Made, NoMemory>
    requires limit { length text.now ≤ 67108864 }
    requires each { length known.now ≡ length contents.now }
    ensures gives { IfOk result (λ made. PrepareGives name.now known.now text.now contents.now (outcome_of made)) }
    ensures ready { IfOk result IsReady }
{
    match gather(alloc, contents)? {
        Gathered::NoUnit(place) => Ok(Made {
            line: not_unit_line(alloc, known[place].as_bytes())?,
            status: Status::NotUnit,
            stored: None,
        }),
        Gathered::All(known) => text_made(alloc, name, text, &known),
    }
}

// What these files let a text know, or the first that is no unit.
fn gather(alloc: Global, contents: &[Bytes]) -> Result<Gathered, NoMemory>
    ensures { IfOk result (AreGathered contents.now) }
{
    let mut known = Known::new(alloc);
    for place in 0..contents.len() {
        match decode(alloc, contents[place].as_slice()) {
            Ok(unit) => known.add(&unit)?,
            Err(UnitFault::NotUnit) => return Ok(Gathered::NoUnit(place)),
            Err(UnitFault::NoMemory) => return Err(NoMemory),
        }
    }
    Ok(Gathered::All(known))
}

// What comes of a text, where this is known.
fn text_made(alloc: Global, name: &Name, text: &[u8], known: &Known) -> Result<Made, NoMemory>
    requires { length text.now ≤ 67108864 }
    ensures gives { IfOk result (λ made. TextGives name.now known.now text.now (outcome_of made)) }
    ensures ready { IfOk result IsReady }
{
    match prepare(alloc, text, known) {
        Ok(unit) => unit_made(alloc, name, text.len(), &unit),
        Err(PrepFault::Fault { number, byte }) => faulty(alloc, name, number, byte),
        Err(PrepFault::NoMemory) => Err(NoMemory),
    }
}

// What comes of a unit that was made of a text so long.
fn unit_made(alloc: Global, name: &Name, len: usize, unit: &Unit) -> Result<Made, NoMemory>
    ensures gives { IfOk result (λ made. UnitGives name.now len (unit_facts unit.now) (outcome_of made)) }
    ensures ready { IfOk result IsReady }
{
    match encode(alloc, unit) {
        Ok(bytes) => {
            let sections = unit.facts.sections.as_slice();
            Ok(Made {
                line: prepared_line(alloc, sections.len(), count_clauses(sections)?)?,
                status: Status::Done,
                stored: Some(bytes),
            })
        }
        Err(EncodeFault::TooLong) => faulty(alloc, name, 17, len),
        Err(EncodeFault::NoMemory) => Err(NoMemory),
    }
}

// The line of a text's fault.
fn faulty(alloc: Global, name: &Name, number: u8, byte: usize) -> Result<Made, NoMemory>
    ensures made { IfOk result (λ made. outcome_of made ≡ faulty_outcome name.now number byte) }
    ensures ready { IfOk result IsReady }
{
    Ok(Made {
        line: fault_line(alloc, b'P', number, name.as_bytes(), byte)?,
        status: Status::PrepFault,
        stored: None,
    })
}

// How many clauses the sections have. A count past the machine's numbers can't be kept.
fn count_clauses(sections: &[Section]) -> Result<usize, NoMemory>
    ensures { IfOk result (λ count. count ≡ clause_count (map section_view sections.now)) }
{
    let mut count = 0;
    for section in sections {
        count = with_clauses(section.entries.as_slice(), count)?;
    }
    Ok(count)
}

// A count, and the clauses among these entries.
fn with_clauses(entries: &[Entry], count: usize) -> Result<usize, NoMemory>
    ensures { IfOk result (λ more. more ≡ count + clauses_in_entries (entries_view entries.now)) }
{
    let mut total = count;
    for entry in entries {
        total = with_clause(entry, total)?;
    }
    Ok(total)
}

// A count, and one more where an entry is a clause.
fn with_clause(entry: &Entry, count: usize) -> Result<usize, NoMemory>
    ensures { IfOk result (λ more. more ≡ count + clauses_in_entry (what_view entry.now.what)) }
{
    match &entry.what {
        What::Clause(_, _, _) => one_more(count),
        _ => Ok(count),
    }
}

fn one_more(count: usize) -> Result<usize, NoMemory>
    ensures { IfOk result (λ more. more ≡ count + 1) }
{
    match count.checked_add(1) {
        Some(more) => Ok(more),
        None => Err(NoMemory),
    }
}

// The command, where the text has been read.
fn prepare_known<S: Shelf, O: Sink>(
    alloc: Global,
    unit: &Name,
    text: &Name,
    bytes: &[u8],
    known: &[Name],
    shelf: &mut S,
    out: &mut O,
) -> Status
    requires { length bytes.now ≤ 67108864 }
    ensures { PreparesKnown unit.now text.now bytes.now known.now result (record {
      file = S.file shelf.old;
      file_after = S.file shelf.new;
      fetches = S.fetch_faults shelf.old;
      fetches_after = S.fetch_faults shelf.new;
      puts = S.put_faults shelf.old;
      puts_after = S.put_faults shelf.new;
      written = O.written out.old;
      written_after = O.written out.new;
      faults = O.faults out.old;
      faults_after = O.faults out.new;
    }) }
{
    match fetch_all(alloc, shelf, known) {
        Ok(contents) => match made_of(alloc, text, bytes, known, contents.as_slice()) {
            Ok(made) => finish(alloc, &made, unit, shelf, out),
            Err(NoMemory) => Status::NoMemory,
        },
        Err(fault) => read_status(fault),
    }
}
