//! Moves and runs of two goals, and the records of a machine.
ghost use Rattle.std.specs.Prelude.{◌≡◌, [], false, true, length, IfOk};
ghost use Rattle.pl_terms.specs.Occurrence.{from_to};
ghost use Rattle.pl_machine.specs.Machine.{IsMachine};

use pl_atoms::Bytes;
use pl_machine::{End, Machine, Progress, RunFault, Show};
use pl_store::Program;
use pl_terms::{Cell, ReadTerm, Term, TermBuf, VarNames};
use plm_io::{CallList, MemSink};
use std::alloc::Global;
use std::test::Fail;

// `(X = 1 ; X = 2), (Y = 1 ; Y = 2)`
fn four_answers(alloc: Global, program: &mut Program) -> Result<Term, Fail> {
    program.add_module(b"user")?;
    let and = program.intern(b",")?;
    let or = program.intern(b";")?;
    let equals = program.intern(b"=")?;
    let mut cells = TermBuf::new(alloc);
    cells.push(Cell::Comp(and, 2))?;
    for variable in 0..2 {
        cells.push(Cell::Comp(or, 2))?;
        for value in 1..3 {
            cells.push(Cell::Comp(equals, 2))?;
            cells.push(Cell::Var(variable))?;
            cells.push(Cell::Int(value))?;
        }
    }
    whole(cells)
}

// `write(x), fail ; write(y)`
fn two_writes(alloc: Global, program: &mut Program) -> Result<Term, Fail> {
    program.add_module(b"user")?;
    let and = program.intern(b",")?;
    let or = program.intern(b";")?;
    let write = program.intern(b"write")?;
    let mut cells = TermBuf::new(alloc);
    cells.push(Cell::Comp(or, 2))?;
    cells.push(Cell::Comp(and, 2))?;
    cells.push(Cell::Comp(write, 1))?;
    cells.push(Cell::Name(program.intern(b"x")?))?;
    cells.push(Cell::Name(program.intern(b"fail")?))?;
    cells.push(Cell::Comp(write, 1))?;
    cells.push(Cell::Name(program.intern(b"y")?))?;
    whole(cells)
}

fn whole(cells: TermBuf) -> Result<Term, Fail> {
    let Ok(term) = cells.end() else {
        return Err(Fail::new("no term"));
    };
    Ok(term)
}

// Whether these numbers are none, or 0 and 1.
fn counts_up(numbers: &[usize]) -> bool
    ensures { result ≡ true → numbers.now ≡ from_to 0 (length numbers.now) }
{
    if numbers.is_empty() {
        return true;
    }
    numbers == [0, 1].as_slice()
}

// A machine over a program, with no names of variables.
fn machine_over(alloc: Global, program: Program, term: Term) -> Result<Machine, Fail>
    ensures machine { IfOk result IsMachine }
    ensures over { IfOk result (λ m. m.over ≡ false) }
{
    let found = term.variables(alloc)?;
    if !counts_up(found.as_slice()) {
        return Err(Fail::new("other variables"));
    }
    let goal = ReadTerm {
        term,
        names: VarNames::new(alloc),
        byte: 0,
    };
    Ok(Machine::new(alloc, program, &goal, 1000)?)
}

fn answering(alloc: Global) -> Result<Machine, Fail>
    ensures machine { IfOk result IsMachine }
    ensures over { IfOk result (λ m. m.over ≡ false) }
{
    let mut program = Program::new(alloc);
    let term = four_answers(alloc, &mut program)?;
    machine_over(alloc, program, term)
}

fn writing(alloc: Global) -> Result<Machine, Fail>
    ensures machine { IfOk result IsMachine }
    ensures over { IfOk result (λ m. m.over ≡ false) }
{
    let mut program = Program::new(alloc);
    let term = two_writes(alloc, &mut program)?;
    machine_over(alloc, program, term)
}

// What stands after one more move, and the bytes that it shows.
fn moved(alloc: Global, machine: &mut Machine) -> Result<(&'static str, Bytes), Fail>
    requires { IsMachine machine.old }
    ensures { IfOk result (λ r. IsMachine machine.new) }
{
    let mut text = Bytes::new(alloc);
    if machine.has_ended() {
        return Ok(("over", text));
    }
    let stands = match machine.advance(alloc, &mut text)? {
        Progress::Goal => "goal",
        Progress::Shown => "shown",
        Progress::Ended(End::Exhausted) => "exhausted",
        Progress::Ended(_) => "ended",
    };
    Ok((stands, text))
}

// One more move, which comes to this, shows these bytes, and leaves so many records.
fn moves_to(
    alloc: Global,
    machine: &mut Machine,
    stands: &'static str,
    bytes: &[u8],
    choices: usize,
) -> Result<(), Fail>
    requires { IsMachine machine.old }
    ensures { IfOk result (λ r. IsMachine machine.new) }
{
    let (now, text) = moved(alloc, machine)?;
    if now != stands || text.as_slice() != bytes || machine.choices() != choices {
        return Err(Fail::new("another move"));
    }
    Ok(())
}

// The moves of the two writes, one after another, and the steps that they took.
fn steps_of_moves(alloc: Global, machine: &mut Machine) -> Result<u64, Fail>
    requires { IsMachine machine.old }
{
    moves_to(alloc, machine, "goal", b"", 1)?;
    moves_to(alloc, machine, "shown", b"x", 1)?;
    moves_to(alloc, machine, "goal", b"", 0)?;
    moves_to(alloc, machine, "shown", b"y", 0)?;
    moves_to(alloc, machine, "shown", b"true ;\n", 0)?;
    moves_to(alloc, machine, "exhausted", b"", 0)?;
    Ok(machine.steps())
}

#[test]
fn one_goal_a_move(rt: HostRuntime) -> Result<(), Fail> {
    let mut machine = writing(rt.alloc())?;
    let steps = steps_of_moves(rt.alloc(), &mut machine);
    assert!(rt; machine.has_ended());
    assert_eq!(rt; steps?, 4);
    Ok(())
}

// How a machine that counts its answers ran: the answers, steps, peak and records.
fn counted(
    alloc: Global,
    machine: &mut Machine,
    out: &mut MemSink,
) -> Result<(u64, u64, usize, usize), Fail>
    requires machine { IsMachine machine.old }
    requires over { machine.old.over ≡ false }
{
    match machine.run(alloc, out, Show::Count)? {
        End::Exhausted => Ok((
            machine.answers(),
            machine.steps(),
            machine.peak(),
            machine.choices(),
        )),
        _ => Err(Fail::new("another end")),
    }
}

#[test]
fn runs_to_the_end(rt: HostRuntime) -> Result<(), Fail> {
    let mut out = MemSink::new(rt.alloc(), CallList::new(rt.alloc()));
    let mut machine = answering(rt.alloc())?;
    let counts = counted(rt.alloc(), &mut machine, &mut out);
    assert!(rt; machine.has_ended());
    assert_eq!(rt; out.bytes(), b"".as_slice());
    assert_eq!(rt; counts?, (4, 9, 2, 0));
    Ok(())
}

// The steps that a run has taken where its output fails.
fn steps_at_fault(alloc: Global, machine: &mut Machine, out: &mut MemSink) -> Result<u64, Fail>
    requires machine { IsMachine machine.old }
    requires over { machine.old.over ≡ false }
{
    match machine.run(alloc, out, Show::Lines) {
        Err(RunFault::WriteFault) => Ok(machine.steps()),
        _ => Err(Fail::new("the output holds")),
    }
}

/// A call of the output that fails, what was put before it, and the steps taken then.
type Break = (u64, &'static [u8], u64);

const BREAKS: [Break; 3] = [(0, b"", 2), (1, b"x", 4), (2, b"xy", 4)];

// What was put, and the steps taken, where a call of the output fails.
fn broken_at(alloc: Global, call: u64) -> Result<(MemSink, u64), Fail> {
    let mut fails = CallList::new(alloc);
    fails.push(call)?;
    let mut out = MemSink::new(alloc, fails);
    let mut machine = writing(alloc)?;
    let steps = steps_at_fault(alloc, &mut machine, &mut out);
    Ok((out, steps?))
}

#[test]
fn a_failed_put_ends_the_run(rt: HostRuntime) -> Result<(), Fail> {
    for (call, bytes, steps) in BREAKS {
        let (out, taken) = broken_at(rt.alloc(), call)?;
        assert_eq!(rt; taken, steps);
        assert_eq!(rt; out.bytes(), bytes);
    }
    Ok(())
}

// Goes back, where there is a record.
fn goes_back(machine: &mut Machine) -> bool
    requires { IsMachine machine.old }
    ensures { result ≡ false → machine.new.path.choices.items ≡ [] }
{
    machine.back()
}

// Cuts where there is no record.
fn cuts_none(machine: &mut Machine)
    requires { machine.old.path.choices.items ≡ [] }
{
    machine.cut(0);
}

// The records of a machine with none, after one more was reserved and the rest of the calls from outside.
fn records_from_outside(machine: &mut Machine) -> Result<(usize, usize), Fail>
    requires { IsMachine machine.old }
{
    machine.reserve_choice()?;
    if goes_back(machine) {
        return Err(Fail::new("a record"));
    }
    cuts_none(machine);
    Ok((machine.choices(), machine.tables().modules()))
}

#[test]
fn records_of_a_new_machine(rt: HostRuntime) -> Result<(), Fail> {
    let mut machine = writing(rt.alloc())?;
    let records = records_from_outside(&mut machine);
    assert_eq!(rt; records?, (0, 1));
    Ok(())
}
