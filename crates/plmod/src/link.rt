//! The commands `link` and `show`.
ghost use Rattle.std.specs.Prelude.{◌≡◌, [], length, map, get_or, Some, IfOk};
ghost use Rattle.unit_format.specs.Views.{unit_facts};
ghost use Rattle.link_model.specs.Faults.{fault, first_link};
ghost use Rattle.prep_report.specs.Lines.{not_unit_text, linked_text};
ghost use Rattle.plmod.specs.declared.status.Status.TheVariants.{NotUnit};
ghost use Rattle.plmod.specs.Outcome.{told};
ghost use Rattle.mod_visible.specs.Visibility.{IsVisibility};
ghost use Rattle.plmod.specs.Links.{UnitsGive, linked_outcome, link_faulty, show_lines, link_lines};
ghost use Rattle.plmod.specs.Telling.{asked_of, lines_of, AreDecoded};
ghost use Rattle.plmod.specs.MadeOutcome.{outcome_of, CanBeTold};
ghost use Rattle.plmod.specs.Meets.{Meets};

use crate::answer::{Made, tell};
use crate::fetch::{fetch_all, read_status};
use crate::status::Status;
use mod_faults::first_fault;
use mod_linker::{LinkFault, link};
use mod_visible::Visibility;
use pl_atoms::{Bytes, Name, NoMemory};
use pl_store::Program;
use plm_io::{Shelf, Sink};
use prep_report::{fault_line, linked_line, not_unit_line, show_rows};
use std::alloc::Global;
use unit_format::{Unit, UnitFault, decode};

/// What is told of units without a link fault.
#[derive(Clone, Copy)]
pub enum Asked {
    /// What is visible in their modules.
    Rows,
    /// How many modules and procedures they have.
    Counts,
}

/// The commands `link` and `show`: tells what is asked of units, or their first link fault.
pub fn tell_units<S: Shelf, O: Sink>(
    alloc: Global,
    asked: Asked,
    units: &[Name],
    shelf: &mut S,
    out: &mut O,
) -> Status
    ensures meets { Meets (Some (asked_of asked units.now)) result (record {
      file = S.file shelf.old;
      file_after = S.file shelf.new;
      fetches = S.fetch_faults shelf.old;
      fetches_after = S.fetch_faults shelf.new;
      puts = S.put_faults shelf.old;
      puts_after = S.put_faults shelf.new;
      written = O.written out.old;
      written_after = O.written out.new;
      faults = O.faults out.old;
      faults_after = O.faults out.new;
    }) }
{
    match fetch_all(alloc, shelf, units) {
        Ok(contents) => match told_of(alloc, asked, units, contents.as_slice()) {
            Ok(made) => tell(alloc, &made, out),
            Err(NoMemory) => Status::NoMemory,
        },
        Err(fault) => read_status(fault),
    }
}

/// What a list of files is, where they are to be units.
#[derive(Drop)]
pub enum Decoded {
    /// The place of the first that is none.
    NoUnit(usize),
    /// The units.
    All(Vec<Unit>),
}

// What comes of the contents of the files under these names.
fn told_of(
    alloc: Global,
    asked: Asked,
    names: &[Name],
    contents: &[Bytes],
) -> Result<Made, NoMemory>
    requires { length names.now ≡ length contents.now }
    ensures gives { IfOk result (λ made. UnitsGive (lines_of asked) names.now contents.now (outcome_of made)) }
    ensures ready { IfOk result CanBeTold }
{
    match decode_all(alloc, contents)? {
        Decoded::NoUnit(place) => no_unit(alloc, names, place),
        Decoded::All(units) => units_told(alloc, asked, names, units.as_slice()),
    }
}

/// The units that these files are, or the first that is none.
pub fn decode_all(alloc: Global, contents: &[Bytes]) -> Result<Decoded, NoMemory>
    ensures { IfOk result (AreDecoded contents.now) }
{
    let mut units = Vec::new(alloc);
    for place in 0..contents.len() {
        match decode(alloc, contents[place].as_slice()) {
            Ok(unit) => units.push(unit)?,
            Err(UnitFault::NotUnit) => return Ok(Decoded::NoUnit(place)),
            Err(UnitFault::NoMemory) => return Err(NoMemory),
        }
    }
    Ok(Decoded::All(units))
}

/// The line of a file that is no unit.
pub fn no_unit(alloc: Global, names: &[Name], place: usize) -> Result<Made, NoMemory>
    ensures gives { IfOk result (λ made. outcome_of made ≡ told (not_unit_text (get_or names.now place [])) NotUnit) }
    ensures ready { IfOk result CanBeTold }
{
    Ok(Made {
        line: not_unit_line(alloc, word_of(names, place))?,
        status: Status::NotUnit,
        stored: None,
    })
}

// What comes of units from the files under these names.
fn units_told(alloc: Global, asked: Asked, names: &[Name], units: &[Unit]) -> Result<Made, NoMemory>
    ensures gives { IfOk result (λ made. outcome_of made ≡ linked_outcome (lines_of asked (map unit_facts units.now)) names.now (first_link (map unit_facts units.now))) }
    ensures ready { IfOk result CanBeTold }
{
    match asked {
        Asked::Rows => rows_told(alloc, names, units),
        Asked::Counts => counts_told(alloc, names, units),
    }
}

// What is visible in the modules of units, or their first link fault.
fn rows_told(alloc: Global, names: &[Name], units: &[Unit]) -> Result<Made, NoMemory>
    ensures gives { IfOk result (λ made. outcome_of made ≡ linked_outcome (show_lines (map unit_facts units.now)) names.now (first_link (map unit_facts units.now))) }
    ensures ready { IfOk result CanBeTold }
{
    let visibility = Visibility::of(alloc, units)?;
    match first_fault(alloc, units, &visibility)? {
        Some(fault) => faulty_link(alloc, names, fault.number, fault.unit, fault.byte),
        None => Ok(Made {
            line: row_lines(alloc, units, &visibility)?,
            status: Status::Done,
            stored: None,
        }),
    }
}

// How many modules and procedures the program of units has, or their first link fault.
fn counts_told(alloc: Global, names: &[Name], units: &[Unit]) -> Result<Made, NoMemory>
    ensures gives { IfOk result (λ made. outcome_of made ≡ linked_outcome (link_lines (map unit_facts units.now)) names.now (first_link (map unit_facts units.now))) }
    ensures ready { IfOk result CanBeTold }
{
    match link(alloc, units) {
        Ok(program) => Ok(Made {
            line: count_line(alloc, &program)?,
            status: Status::Done,
            stored: None,
        }),
        Err(LinkFault::Fault { number, unit, byte }) => {
            faulty_link(alloc, names, number, unit, byte)
        }
        Err(LinkFault::NoMemory) => Err(NoMemory),
    }
}

/// The line of a link fault, with the name of its unit.
pub fn faulty_link(
    alloc: Global,
    names: &[Name],
    number: u8,
    unit: usize,
    byte: usize,
) -> Result<Made, NoMemory>
    ensures gives { IfOk result (λ made. outcome_of made ≡ link_faulty names.now (fault unit byte number)) }
    ensures ready { IfOk result CanBeTold }
{
    Ok(Made {
        line: fault_line(alloc, b'L', number, word_of(names, unit), byte)?,
        status: Status::LinkFault,
        stored: None,
    })
}

/// The name at a place, or none behind the last.
pub fn word_of(names: &[Name], place: usize) -> &[u8]
    ensures { result.now ≡ get_or names.now place [] }
{
    if place < names.len() {
        names[place].as_bytes()
    } else {
        &[]
    }
}

// A line for each procedure that is visible in a module.
fn row_lines(alloc: Global, units: &[Unit], visibility: &Visibility) -> Result<Bytes, NoMemory>
    requires { IsVisibility (map unit_facts units.now) visibility.now }
    ensures { IfOk result (λ lines. lines ≡ show_lines (map unit_facts units.now)) }
{
    let rows = visibility.rows(alloc)?;
    show_rows(alloc, &rows, visibility.names())
}

/// The line of how many modules and procedures a program has.
pub fn count_line(alloc: Global, program: &Program) -> Result<Bytes, NoMemory>
    ensures { IfOk result (λ line. line ≡ linked_text (length program.now.modules) (length program.now.procedures)) }
{
    let tables = program.tables();
    linked_line(alloc, tables.modules(), tables.procedures())
}
