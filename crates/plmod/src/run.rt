//! The commands `run` and `all`.
ghost use Rattle.std.specs.Prelude.{◌≡◌, ◌≢◌, ◌≤◌, List, Some, None, IfOk, length, map, get_or, []};
ghost use Rattle.std.specs.List.{All};
ghost use Rattle.plm_io.specs.Causes.{Rose};
ghost use Rattle.unit_model.specs.Facts.{Facts};
ghost use Rattle.unit_model.specs.Directives.{Text};
ghost use Rattle.unit_format.specs.Views.{unit_facts};
ghost use Rattle.link_model.specs.Faults.{first_link};
ghost use Rattle.mod_linker.specs.Linking.{IsLinkOf};
ghost use Rattle.plmod.specs.Words.{Run, All as AllOf};
ghost use Rattle.plmod.specs.Outcome.{Outcome, told};
ghost use Rattle.pl_ops.specs.Standard.{standard};
ghost use Rattle.pl_ops.specs.Tables.{operator};
ghost use Rattle.prep_report.specs.Lines.{end_text};
ghost use Rattle.pl_machine.specs.Machine.{IsMachine};
ghost use Rattle.goal_runs.specs.Ends.{manner};
ghost use Rattle.plmod.specs.declared.status.Status.TheVariants.{GoalFault};
ghost use Rattle.plmod.specs.Prepares.{faulty};
ghost use Rattle.plmod.specs.Runs.{RunGives, AllGives, LinkedGives, GoalGives, goal_line, status_in};
ghost use Rattle.plmod.specs.MadeOutcome.{outcome_of, CanBeTold};
ghost use Rattle.plmod.specs.Meets.{Meets, Gives};
ghost use Rattle.plmod.specs.Last.{HasRun, HasRunOver, AreLinked, AreOfTexts, has_ended, Leaves, LeavesLast};

use crate::answer::{Made, put_last, tell};
use crate::fetch::{fetch_all, read_status};
use crate::last::machine_after;
use crate::link::{Decoded, decode_all, faulty_link, no_unit, word_of};
use crate::status::Status;
use crate::whole_texts::{WholeFault, whole};
use goal_runs::{Finished, GoalEnd, goals_are_decided, run_goal};
use mod_linker::{LinkFault, link};
use needs_laws::texts_are_one_whole;
use pl_atoms::{Bytes, Name, NoMemory};
use pl_machine::{End, Machine, RunFault, Show};
use pl_store::Program;
use plm_io::{Shelf, Sink};
use prep_report::{end_line, fault_line};
use std::alloc::Global;
use unit_format::Unit;

/// The command `run`: runs a goal over units, with a budget of steps.
pub fn run_units<S: Shelf, O: Sink>(
    alloc: Global,
    budget: u64,
    goal: &Name,
    units: &[Name],
    shelf: &mut S,
    out: &mut O,
    last: &mut Option<Machine>,
) -> Status
    requires { last.old ≡ None }
    ensures meets { Meets (Some (Run budget goal.now units.now)) result (record {
      file = S.file shelf.old;
      file_after = S.file shelf.new;
      fetches = S.fetch_faults shelf.old;
      fetches_after = S.fetch_faults shelf.new;
      puts = S.put_faults shelf.old;
      puts_after = S.put_faults shelf.new;
      written = O.written out.old;
      written_after = O.written out.new;
      faults = O.faults out.old;
      faults_after = O.faults out.new;
    }) }
    ensures leaves { LeavesLast (Some (Run budget goal.now units.now)) result (S.file shelf.old) last.new }
{
    match fetch_all(alloc, shelf, units) {
        Ok(contents) => run_contents(
            alloc,
            budget,
            goal.as_bytes(),
            units,
            contents.as_slice(),
            out,
            last,
        ),
        Err(fault) => read_status(fault),
    }
}

/// The command `all`: runs a goal over texts, with a budget of steps.
pub fn run_texts<S: Shelf, O: Sink>(
    alloc: Global,
    budget: u64,
    goal: &Name,
    texts: &[Name],
    shelf: &mut S,
    out: &mut O,
    last: &mut Option<Machine>,
) -> Status
    requires { last.old ≡ None }
    ensures meets { Meets (Some (AllOf budget goal.now texts.now)) result (record {
      file = S.file shelf.old;
      file_after = S.file shelf.new;
      fetches = S.fetch_faults shelf.old;
      fetches_after = S.fetch_faults shelf.new;
      puts = S.put_faults shelf.old;
      puts_after = S.put_faults shelf.new;
      written = O.written out.old;
      written_after = O.written out.new;
      faults = O.faults out.old;
      faults_after = O.faults out.new;
    }) }
    ensures leaves { LeavesLast (Some (AllOf budget goal.now texts.now)) result (S.file shelf.old) last.new }
{
    match fetch_all(alloc, shelf, texts) {
        Ok(contents) => run_whole(
            alloc,
            budget,
            goal.as_bytes(),
            texts,
            contents.as_slice(),
            out,
            last,
        ),
        Err(fault) => read_status(fault),
    }
}

// Runs a goal over files of these names, which are to be units.
fn run_contents<O: Sink>(
    alloc: Global,
    budget: u64,
    goal: &[u8],
    names: &[Name],
    contents: &[Bytes],
    out: &mut O,
    last: &mut Option<Machine>,
) -> Status
    requires same { length names.now ≡ length contents.now }
    requires none { last.old ≡ None }
    ensures output { (o : Outcome) → RunGives names.now contents.now budget goal.now o → Gives result o (O.written out.old) (O.written out.new) }
    ensures write_fault { result ≡ Status.WriteFault → Rose (O.faults out.old) (O.faults out.new) }
    ensures read { result ≢ Status.ReadFault }
    ensures used { result ≢ Status.Usage }
    ensures leaves { Leaves (has_ended result) (HasRunOver (AreLinked contents.now) budget goal.now) last.new }
{
    match decode_all(alloc, contents) {
        Ok(Decoded::NoUnit(place)) => told_or_not(alloc, no_unit(alloc, names, place), out),
        Ok(Decoded::All(units)) => {
            run_linked(alloc, budget, goal, names, units.as_slice(), out, last)
        }
        Err(NoMemory) => Status::NoMemory,
    }
}

// Runs a goal over units from files of these names.
fn run_linked<O: Sink>(
    alloc: Global,
    budget: u64,
    goal: &[u8],
    names: &[Name],
    units: &[Unit],
    out: &mut O,
    last: &mut Option<Machine>,
) -> Status
    requires { last.old ≡ None }
    ensures output { (o : Outcome) → LinkedGives names.now (map unit_facts units.now) budget goal.now (first_link (map unit_facts units.now)) o → Gives result o (O.written out.old) (O.written out.new) }
    ensures write_fault { result ≡ Status.WriteFault → Rose (O.faults out.old) (O.faults out.new) }
    ensures read { result ≢ Status.ReadFault }
    ensures used { result ≢ Status.Usage }
    ensures leaves { Leaves (has_ended result) (λ m. (first_link (map unit_facts units.now) ≡ None) × HasRun (map unit_facts units.now) budget goal.now m) last.new }
{
    match link(alloc, units) {
        Ok(program) => run_program(alloc, program, budget, goal, out, last),
        Err(LinkFault::Fault { number, unit, byte }) => {
            told_or_not(alloc, faulty_link(alloc, names, number, unit, byte), out)
        }
        Err(LinkFault::NoMemory) => Status::NoMemory,
    }
}

// Runs a goal over texts from files of these names.
fn run_whole<O: Sink>(
    alloc: Global,
    budget: u64,
    goal: &[u8],
    names: &[Name],
    contents: &[Bytes],
    out: &mut O,
    last: &mut Option<Machine>,
) -> Status
    requires short { All (λ t. length t ≤ 67108864) contents.now }
    requires none { last.old ≡ None }
    ensures output { (o : Outcome) → AllGives names.now contents.now budget goal.now o → Gives result o (O.written out.old) (O.written out.new) }
    ensures write_fault { result ≡ Status.WriteFault → Rose (O.faults out.old) (O.faults out.new) }
    ensures read { result ≢ Status.ReadFault }
    ensures used { result ≢ Status.Usage }
    ensures leaves { Leaves (has_ended result) (HasRunOver (AreOfTexts contents.now) budget goal.now) last.new }
{
    texts_are_one_whole();
    match whole(alloc, contents) {
        Ok(program) => run_program(alloc, program, budget, goal, out, last),
        Err(WholeFault::Prep { number, text, byte }) => {
            told_or_not(alloc, faulty_text(alloc, names, number, text, byte), out)
        }
        Err(WholeFault::Link { number, unit, byte }) => {
            told_or_not(alloc, faulty_link(alloc, names, number, unit, byte), out)
        }
        Err(WholeFault::NoMemory) => Status::NoMemory,
    }
}

/// The line of a text's fault, with the name of its file.
pub fn faulty_text(
    alloc: Global,
    names: &[Name],
    number: u8,
    text: usize,
    byte: usize,
) -> Result<Made, NoMemory>
    ensures gives { IfOk result (λ made. outcome_of made ≡ faulty (get_or names.now text []) number byte) }
    ensures ready { IfOk result CanBeTold }
{
    Ok(Made {
        line: fault_line(alloc, b'P', number, word_of(names, text), byte)?,
        status: Status::PrepFault,
        stored: None,
    })
}

/// Writes what was made, unless memory ran out.
pub fn told_or_not<O: Sink>(alloc: Global, made: Result<Made, NoMemory>, out: &mut O) -> Status
    requires { IfOk made CanBeTold }
    ensures output { (o : Outcome) → IfOk made (λ m. outcome_of m ≡ o) → Gives result o (O.written out.old) (O.written out.new) }
    ensures write_fault { result ≡ Status.WriteFault → Rose (O.faults out.old) (O.faults out.new) }
    ensures read { result ≢ Status.ReadFault }
    ensures used { result ≢ Status.Usage }
{
    match made {
        Ok(made) => tell(alloc, &made, out),
        Err(NoMemory) => Status::NoMemory,
    }
}

// Runs a goal over a linked program, and writes its events and its end.
fn run_program<O: Sink>(
    alloc: Global,
    program: Program,
    budget: u64,
    goal: &[u8],
    out: &mut O,
    last: &mut Option<Machine>,
) -> Status
    requires { last.old ≡ None }
    ensures output { (us : List (Facts Text)) (o : Outcome) → IsLinkOf us program → GoalGives us budget goal.now o → Gives result o (O.written out.old) (O.written out.new) }
    ensures write_fault { result ≡ Status.WriteFault → Rose (O.faults out.old) (O.faults out.new) }
    ensures read { result ≢ Status.ReadFault }
    ensures used { result ≢ Status.Usage }
    ensures leaves { Leaves (has_ended result) (λ m. (us : List (Facts Text)) → IsLinkOf us program → HasRun us budget goal.now m) last.new }
{
    goals_are_decided();
    match run_goal(alloc, program, budget, goal, Show::Lines, out) {
        Ok(GoalEnd::NoGoal { number, byte }) => {
            told_or_not(alloc, faulty_goal(alloc, number, byte), out)
        }
        Ok(GoalEnd::Ended(finished)) => {
            let status = told_or_not(alloc, end_of(alloc, &finished), out);
            *last = machine_after(status, finished);
            status
        }
        Err(RunFault::WriteFault) => Status::WriteFault,
        Err(RunFault::NoMemory) => Status::NoMemory,
    }
}

/// The line of a goal's fault.
pub fn faulty_goal(alloc: Global, number: u8, byte: usize) -> Result<Made, NoMemory>
    ensures gives { IfOk result (λ made. outcome_of made ≡ told (goal_line number byte) GoalFault) }
    ensures ready { IfOk result CanBeTold }
{
    Ok(Made {
        line: fault_line(alloc, b'P', number, b"goal", byte)?,
        status: Status::GoalFault,
        stored: None,
    })
}

/// The line of a run's end.
pub fn end_of(alloc: Global, finished: &Finished) -> Result<Made, NoMemory>
    requires { IsMachine finished.now.machine }
    ensures gives { IfOk result (λ made. outcome_of made ≡ told (end_text (operator standard) finished.now.machine.compiled.names finished.now.end) (status_in (manner finished.now.end))) }
    ensures ready { IfOk result CanBeTold }
{
    let machine = &finished.machine;
    Ok(Made {
        line: end_line(alloc, &finished.end, machine.names(), machine.table())?,
        status: status_after(&finished.end),
        stored: None,
    })
}

fn status_after(end: &End) -> Status
    ensures { result ≡ status_in (manner end.now) }
{
    match end {
        End::Exhausted | End::Halted(_) => Status::Done,
        End::Uncaught(_) => Status::Uncaught,
        End::Spent => Status::Spent,
    }
}
