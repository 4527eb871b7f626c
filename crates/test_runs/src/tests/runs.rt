//! A goal that is run over a program of no units.
ghost use Rattle.std.specs.Prelude.{IfOk};
ghost use Rattle.pl_machine.specs.Machine.{IsMachine};

use goal_runs::{Finished, GoalEnd, run_goal};
use mod_linker::{LinkFault, link};
use pl_machine::{End, RunFault, Show};
use pl_store::Program;
use plm_io::{CallList, MemSink, Sink};
use std::alloc::Global;
use std::test::Fail;

// The program of no units.
fn empty_program(alloc: Global) -> Result<Program, Fail> {
    match link(alloc, &[]) {
        Ok(program) => Ok(program),
        Err(LinkFault::Fault { .. }) => Err(Fail::new("a fault of no unit")),
        Err(LinkFault::NoMemory) => Err(Fail::new("no memory")),
    }
}

// The run of a goal to its end.
fn finished<O: Sink>(
    alloc: Global,
    program: Program,
    goal: &[u8],
    out: &mut O,
) -> Result<Finished, Fail>
    ensures { IfOk result (λ f. IsMachine f.machine) }
{
    match run_goal(alloc, program, 100, goal, Show::Lines, out) {
        Ok(GoalEnd::NoGoal { .. }) => Err(Fail::new("no goal")),
        Ok(GoalEnd::Ended(finished)) => Ok(finished),
        Err(RunFault::WriteFault) => Err(Fail::new("a write failed")),
        Err(RunFault::NoMemory) => Err(Fail::new("no memory")),
    }
}

// Whether all alternatives were tried, the steps and the answers.
fn counts(run: &Finished) -> (bool, u64, u64)
    requires { IsMachine run.now.machine }
{
    let exhausted = matches!(run.end, End::Exhausted);
    (exhausted, run.machine.steps(), run.machine.answers())
}

// The counts of a goal's run over the program of no units.
fn run_alone<O: Sink>(alloc: Global, goal: &[u8], out: &mut O) -> Result<(bool, u64, u64), Fail> {
    let program = empty_program(alloc)?;
    let run = finished(alloc, program, goal, out)?;
    Ok(counts(&run))
}

#[test]
fn a_goal_is_run(rt: HostRuntime) -> Result<(), Fail> {
    let mut out = MemSink::new(rt.alloc(), CallList::new(rt.alloc()));
    let (exhausted, steps, answers) = run_alone(rt.alloc(), b"X = 1.", &mut out)?;
    assert!(rt; exhausted);
    assert_eq!(rt; steps, 1);
    assert_eq!(rt; answers, 1);
    assert_eq!(rt; out.bytes(), b"X = 1 ;\n".as_slice());
    Ok(())
}
