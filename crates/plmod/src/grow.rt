//! The command `grow`: a program that grows with its number of modules.
ghost use Rattle.std.specs.Prelude.{◌≡◌, ◌≢◌, ◌≤◌, ◌<◌, ◌-◌, ◌++◌, codes, decimal, List, None, IfOk, OnOk, length, map, []};
ghost use Rattle.std.specs.List.{All};
ghost use Rattle.plm_io.specs.Causes.{Rose};
ghost use Rattle.pl_ops.specs.Standard.{standard};
ghost use Rattle.pl_ops.specs.Tables.{operator};
ghost use Rattle.unit_model.specs.Facts.{Facts};
ghost use Rattle.unit_model.specs.Directives.{Text};
ghost use Rattle.unit_format.specs.Views.{unit_facts};
ghost use Rattle.link_model.specs.Faults.{first_link};
ghost use Rattle.link_model.specs.Texts.{linked, WholeIs};
ghost use Rattle.mod_linker.specs.Linking.{IsLinkOf};
ghost use Rattle.prep_report.specs.Lines.{count_text, end_text};
ghost use Rattle.pl_machine.specs.Machine.{IsMachine};
ghost use Rattle.goal_runs.specs.Ends.{manner};
ghost use Rattle.plmod.specs.Outcome.{Outcome, told};
ghost use Rattle.plmod.specs.Growing.{grow_texts, grow_goal, last_text, interface_lines, body_lines, import_line, fact_line, rule_line, only_after_first};
ghost use Rattle.plmod.specs.Links.{link_lines};
ghost use Rattle.plmod.specs.Runs.{GrowGives, CountGives, status_in};
ghost use Rattle.plmod.specs.Together.{ArePrepared};
ghost use Rattle.plmod.specs.MadeOutcome.{outcome_of, CanBeTold};
ghost use Rattle.plmod.specs.Meets.{Gives};
ghost use Rattle.plmod.specs.Last.{HasRun, HasRunOver, AreOfTexts, has_ended, Leaves};

use crate::answer::Made;
use crate::last::machine_after;
use crate::link::{count_line, faulty_link};
use crate::run::{end_of, faulty_goal, faulty_text, told_or_not};
use crate::status::Status;
use crate::whole_texts::{Together, prepare_together};
use goal_runs::{Finished, GoalEnd, goals_are_decided, run_goal};
use itoa::Buffer;
use mod_linker::{LinkFault, link};
use needs_laws::texts_are_one_whole;
use pl_atoms::{Bytes, NoMemory};
use pl_machine::{Machine, RunFault, Show};
use pl_store::Program;
use plm_io::{IoFault, Sink};
use prep_report::count_line as answers_line;
use search_model::ByteLists;
use std::alloc::Global;
use unit_format::Unit;

/// Makes the texts of so many modules, prepares and links them, and counts the answers and steps of a goal that calls them all.
pub fn grow<O: Sink>(
    alloc: Global,
    count: u64,
    budget: u64,
    out: &mut O,
    last: &mut Option<Machine>,
) -> Status
    requires { last.old ≡ None }
    ensures output { (o : Outcome) → GrowGives count budget o → Gives result o (O.written out.old) (O.written out.new) }
    ensures write_fault { result ≡ Status.WriteFault → Rose (O.faults out.old) (O.faults out.new) }
    ensures read { result ≢ Status.ReadFault }
    ensures used { result ≢ Status.Usage }
    ensures leaves { Leaves (has_ended result) (HasRunOver (AreOfTexts (grow_texts count)) budget grow_goal) last.new }
{
    texts_are_one_whole();
    match units_of(alloc, count) {
        Ok(
            Together::Faulty {
                number,
                text: _,
                byte,
            },
        ) => { told_or_not(alloc, faulty_text(alloc, &[], number, 0, byte), out) }
        Ok(Together::All(units)) => grow_units(alloc, count, budget, units.as_slice(), out, last),
        Err(NoMemory) => Status::NoMemory,
    }
}

// The units of the texts of so many modules.
fn units_of(alloc: Global, count: u64) -> Result<Together, NoMemory>
    ensures { IfOk result (ArePrepared (grow_texts count)) }
{
    let texts = texts_of(alloc, count)?;
    prepare_together(alloc, texts.as_slice())
}

// The texts of so many modules, and the one that imports the last.
fn texts_of(alloc: Global, count: u64) -> Result<ByteLists, NoMemory>
    ensures texts { IfOk result (λ ts. ts ≡ grow_texts count) }
    ensures short { IfOk result (λ ts. All (λ t. length t ≤ 67108864) ts) }
{
    let mut texts = ByteLists::new(alloc);
    for before in 0..count {
        let mut text = Bytes::new(alloc);
        push_interface(&mut text, before + 1)?;
        push_body(&mut text, before + 1)?;
        texts.push(text)?;
    }
    let mut last = Bytes::new(alloc);
    push_last(&mut last, count)?;
    texts.push(last)?;
    Ok(texts)
}

// A word, and a number in decimal digits.
fn push_numbered(text: &mut Bytes, word: &[u8], number: u64) -> Result<(), NoMemory>
    ensures { OnOk result (text.new ≡ text.old ++ (word.now ++ decimal number)) }
{
    let mut buffer = Buffer::new();
    text.extend_from_slice(word)?;
    text.extend_from_slice(buffer.format(number).as_bytes())?;
    Ok(())
}

fn push_interface(text: &mut Bytes, number: u64) -> Result<(), NoMemory>
    ensures { OnOk result (text.new ≡ text.old ++ interface_lines number) }
{
    push_numbered(text, b":- module(m", number)?;
    push_numbered(text, b").\n:- export(p", number)?;
    push_numbered(text, b"/1).\n:- end_module(m", number)?;
    text.extend_from_slice(b").\n")?;
    Ok(())
}

fn push_body(text: &mut Bytes, number: u64) -> Result<(), NoMemory>
    requires { 0 < number }
    ensures { OnOk result (text.new ≡ text.old ++ body_lines number) }
{
    push_directive(text, b":- body(m", number)?;
    push_needed(text, number)?;
    push_fact(text, number)?;
    push_rule(text, number)?;
    push_directive(text, b":- end_body(m", number)?;
    Ok(())
}

// A directive that ends with a number.
fn push_directive(text: &mut Bytes, word: &[u8], number: u64) -> Result<(), NoMemory>
    ensures { OnOk result (text.new ≡ text.old ++ (word.now ++ decimal number ++ codes ").\n")) }
{
    push_numbered(text, word, number)?;
    text.extend_from_slice(b").\n")?;
    Ok(())
}

// The directive that imports the procedure of the module before, if there is one.
fn push_needed(text: &mut Bytes, number: u64) -> Result<(), NoMemory>
    requires { 0 < number }
    ensures { OnOk result (text.new ≡ text.old ++ only_after_first number (import_line (number - 1))) }
{
    if 1 < number {
        push_import(text, number - 1)?;
    }
    Ok(())
}

fn push_fact(text: &mut Bytes, number: u64) -> Result<(), NoMemory>
    ensures { OnOk result (text.new ≡ text.old ++ fact_line number) }
{
    push_numbered(text, b"p", number)?;
    push_numbered(text, b"(", number)?;
    text.extend_from_slice(b").\n")?;
    Ok(())
}

// The clause that calls the procedure of the module before, if there is one.
fn push_rule(text: &mut Bytes, number: u64) -> Result<(), NoMemory>
    requires { 0 < number }
    ensures { OnOk result (text.new ≡ text.old ++ only_after_first number (rule_line number)) }
{
    if 1 < number {
        push_numbered(text, b"p", number)?;
        push_numbered(text, b"(X) :- p", number - 1)?;
        text.extend_from_slice(b"(X).\n")?;
    }
    Ok(())
}

// The directive that imports the procedure of a number.
fn push_import(text: &mut Bytes, number: u64) -> Result<(), NoMemory>
    ensures { OnOk result (text.new ≡ text.old ++ import_line number) }
{
    push_numbered(text, b":- import(m", number)?;
    push_numbered(text, b", [p", number)?;
    text.extend_from_slice(b"/1]).\n")?;
    Ok(())
}

fn push_last(text: &mut Bytes, number: u64) -> Result<(), NoMemory>
    ensures { OnOk result (text.new ≡ text.old ++ last_text number) }
{
    push_import(text, number)?;
    push_numbered(text, b"go(X) :- p", number)?;
    text.extend_from_slice(b"(X).\n")?;
    Ok(())
}

// Links units, and counts the answers and steps of the goal.
fn grow_units<O: Sink>(
    alloc: Global,
    count: u64,
    budget: u64,
    units: &[Unit],
    out: &mut O,
    last: &mut Option<Machine>,
) -> Status
    requires whole { WholeIs (grow_texts count) (linked (map unit_facts units.now) (first_link (map unit_facts units.now))) }
    requires none { last.old ≡ None }
    ensures output { (o : Outcome) → GrowGives count budget o → Gives result o (O.written out.old) (O.written out.new) }
    ensures write_fault { result ≡ Status.WriteFault → Rose (O.faults out.old) (O.faults out.new) }
    ensures read { result ≢ Status.ReadFault }
    ensures used { result ≢ Status.Usage }
    ensures leaves { Leaves (has_ended result) (HasRunOver (AreOfTexts (grow_texts count)) budget grow_goal) last.new }
{
    texts_are_one_whole();
    match link(alloc, units) {
        Ok(program) => grow_program(alloc, budget, program, out, last),
        Err(LinkFault::Fault { number, unit, byte }) => {
            told_or_not(alloc, faulty_link(alloc, &[], number, unit, byte), out)
        }
        Err(LinkFault::NoMemory) => Status::NoMemory,
    }
}

// Tells how many modules and procedures the program has, and runs the goal.
fn grow_program<O: Sink>(
    alloc: Global,
    budget: u64,
    program: Program,
    out: &mut O,
    last: &mut Option<Machine>,
) -> Status
    requires { last.old ≡ None }
    ensures output { (us : List (Facts Text)) (o : Outcome) → IsLinkOf us program → CountGives (link_lines us) us budget o → Gives result o (O.written out.old) (O.written out.new) }
    ensures write_fault { result ≡ Status.WriteFault → Rose (O.faults out.old) (O.faults out.new) }
    ensures read { result ≢ Status.ReadFault }
    ensures used { result ≢ Status.Usage }
    ensures leaves { Leaves (has_ended result) (λ m. (us : List (Facts Text)) → IsLinkOf us program → HasRun us budget grow_goal m) last.new }
{
    let line = match count_line(alloc, &program) {
        Ok(line) => line,
        Err(NoMemory) => return Status::NoMemory,
    };
    match out.put(alloc, line.as_slice()) {
        Ok(()) => count_run(alloc, budget, program, out, last),
        Err(fault) => write_status(fault),
    }
}

// Runs the goal, and tells its answers and steps and how it ended.
fn count_run<O: Sink>(
    alloc: Global,
    budget: u64,
    program: Program,
    out: &mut O,
    last: &mut Option<Machine>,
) -> Status
    requires { last.old ≡ None }
    ensures output { (us : List (Facts Text)) (o : Outcome) → IsLinkOf us program → CountGives [] us budget o → Gives result o (O.written out.old) (O.written out.new) }
    ensures write_fault { result ≡ Status.WriteFault → Rose (O.faults out.old) (O.faults out.new) }
    ensures read { result ≢ Status.ReadFault }
    ensures used { result ≢ Status.Usage }
    ensures leaves { Leaves (has_ended result) (λ m. (us : List (Facts Text)) → IsLinkOf us program → HasRun us budget grow_goal m) last.new }
{
    goals_are_decided();
    match run_goal(alloc, program, budget, b"go(X).", Show::Count, out) {
        Ok(GoalEnd::NoGoal { number, byte }) => {
            told_or_not(alloc, faulty_goal(alloc, number, byte), out)
        }
        Ok(GoalEnd::Ended(finished)) => {
            let status = told_or_not(alloc, counts_of(alloc, &finished), out);
            *last = machine_after(status, finished);
            status
        }
        Err(RunFault::WriteFault) => Status::WriteFault,
        Err(RunFault::NoMemory) => Status::NoMemory,
    }
}

// The lines of a run's answers and steps, and of its end.
fn counts_of(alloc: Global, finished: &Finished) -> Result<Made, NoMemory>
    requires { IsMachine finished.now.machine }
    ensures gives { IfOk result (λ made. outcome_of made ≡ told (count_text finished.now.machine.answers (finished.now.machine.budget - finished.now.machine.left)
        ++ end_text (operator standard) finished.now.machine.compiled.names finished.now.end) (status_in (manner finished.now.end))) }
    ensures ready { IfOk result CanBeTold }
{
    let made = end_of(alloc, finished)?;
    let machine = &finished.machine;
    let mut line = answers_line(alloc, machine.answers(), machine.steps())?;
    line.extend_from_slice(made.line.as_slice())?;
    Ok(Made {
        line,
        status: made.status,
        stored: None,
    })
}

fn write_status(fault: IoFault) -> Status
    ensures failed { fault ≡ IoFault.Failed → result ≡ Status.WriteFault }
    ensures memory { fault ≡ IoFault.NoMemory → result ≡ Status.NoMemory }
{
    match fault {
        IoFault::Failed => Status::WriteFault,
        IoFault::NoMemory => Status::NoMemory,
    }
}
