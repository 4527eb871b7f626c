//! Runs of goals.
ghost use Rattle.std.specs.Prelude.{◌≡◌, ◌<◌, ◌≤◌, List, ℕ, length, map, IfOk, OnOk, OnErr, IsErrOf};
ghost use Rattle.std.specs.List.{All};
ghost use Rattle.std.specs.Io.KnownBytes.{Keeps, Appends};
ghost use Rattle.plm_io.specs.Causes.{Rose, AppendsFront};
ghost use Rattle.pl_terms.specs.Trees.{Tree};
ghost use Rattle.pl_terms.specs.Occurrence.{variables, from_to};
ghost use Rattle.pl_terms.specs.Order.{texts_of};
ghost use Rattle.pl_terms.specs.NameBounds.{NamesBelow};
ghost use Rattle.unit_model.specs.Facts.{Facts};
ghost use Rattle.unit_model.specs.Directives.{Text};
ghost use Rattle.goal_model.specs.Program.{Program as ProgramOf};
ghost use Rattle.pl_store.specs.Facts.{IsLinked};
ghost use Rattle.pl_machine.specs.Machine.{IsMachine};
ghost use Rattle.mod_linker.specs.Linking.{IsLinkOf, SaysSameFurther};
ghost use Rattle.goal_runs.specs.Goals.{GoalsAreDecided};
ghost use Rattle.pl_atoms.specs.Names.{AreDistinct};
ghost use Rattle.goal_runs.specs.Runs.{Ends, Shows, HasMachine, IsFinished, Says, run_by, bytes_of, events_text, run_over};

use crate::{GoalFault, goals_are_decided, read_goal};
use mod_linker::says_same_further;
use naming_laws::runs_by_texts;
use pl_atoms::Names;
use pl_machine::{End, Machine, RunFault, Show};
use pl_store::Program;
use pl_store::laws::facts_stay;
use pl_terms::ReadTerm;
use plm_io::Sink;
use std::alloc::Global;

/// A run that has ended: its machine, and how it ended.
#[derive(Drop)]
pub struct Finished {
    pub machine: Machine,
    pub end: End,
}

/// What comes of a goal.
#[derive(Drop)]
pub enum GoalEnd {
    /// It is none: the fault's number and its byte.
    NoGoal { number: u8, byte: usize },
    /// Its run has ended.
    Ended(Finished),
}

/// Reads a goal under the standard operators, and runs it over a linked program with a budget of steps. What is shown of the events
/// of the run goes to the output as it is made.
///
/// WriteFault: a put on the output failed. NoMemory: a growth was refused. A front of the events may have been written.
pub fn run_goal<O: Sink>(
    alloc: Global,
    program: Program,
    budget: u64,
    goal: &[u8],
    show: Show,
    out: &mut O,
) -> Result<GoalEnd, RunFault>
    ensures ends { IfOk result (λ g. (us : List (Facts Text)) → IsLinkOf us program → Ends us budget goal.now show (O.written out.old) (O.written out.new) g) }
    ensures machine { IfOk result HasMachine }
    ensures front { OnErr result ((us : List (Facts Text)) → IsLinkOf us program → (bytes : List ℕ) → Shows us budget goal.now show bytes → AppendsFront (O.written out.old) (O.written out.new) bytes) }
    ensures later { O.faults out.old ≤ O.faults out.new }
    ensures cause { IsErrOf result RunFault.WriteFault → Rose (O.faults out.old) (O.faults out.new) }
{
    goals_are_decided();
    says_same_further();
    read_and_run(alloc, program, budget, goal, show, out)
}

// Reads a goal and runs it, where the laws of goals and of linked programs are known.
fn read_and_run<O: Sink>(
    alloc: Global,
    program: Program,
    budget: u64,
    goal: &[u8],
    show: Show,
    out: &mut O,
) -> Result<GoalEnd, RunFault>
    requires decided { GoalsAreDecided }
    requires further { SaysSameFurther }
    ensures ends { IfOk result (λ g. (us : List (Facts Text)) → IsLinkOf us program → Ends us budget goal.now show (O.written out.old) (O.written out.new) g) }
    ensures machine { IfOk result HasMachine }
    ensures front { OnErr result ((us : List (Facts Text)) → IsLinkOf us program → (bytes : List ℕ) → Shows us budget goal.now show bytes → AppendsFront (O.written out.old) (O.written out.new) bytes) }
    ensures later { O.faults out.old ≤ O.faults out.new }
    ensures cause { IsErrOf result RunFault.WriteFault → Rose (O.faults out.old) (O.faults out.new) }
{
    let (old, tables) = program.into_parts();
    let mut names = old;
    match read_goal(alloc, goal, &mut names) {
        Ok(term) => {
            facts_stay();
            each_once(&names);
            let finished = run_term(
                alloc,
                Program::from_parts(names, tables),
                &term,
                budget,
                show,
                out,
            )?;
            Ok(GoalEnd::Ended(finished))
        }
        Err(GoalFault::Fault { number, byte }) => Ok(GoalEnd::NoGoal { number, byte }),
        Err(GoalFault::NoMemory) => Err(RunFault::NoMemory),
    }
}

// No name stands twice in a table, as `len` tells.
fn each_once(names: &Names)
    ensures { AreDistinct names.now }
{
    let _count = names.len();
}

// Runs a goal whose names are those of the program.
fn run_term<O: Sink>(
    alloc: Global,
    program: Program,
    goal: &ReadTerm,
    budget: u64,
    show: Show,
    out: &mut O,
) -> Result<Finished, RunFault>
    requires variables { variables goal.now.term ≡ from_to 0 (length (variables goal.now.term)) }
    requires numbers { All (λ v. v.number < length (variables goal.now.term)) goal.now.names }
    requires below { NamesBelow (length program.names) goal.now.term }
    requires linked { IsLinked program }
    requires further { SaysSameFurther }
    ensures finished { IfOk result (λ f. (q : ProgramOf Text) → Says program q → IsFinished q budget f (run_by q program.names goal.now budget)) }
    ensures shown { OnOk result ((q : ProgramOf Text) → Says program q → Appends (O.written out.old) (O.written out.new) (bytes_of show goal.now (run_by q program.names goal.now budget))) }
    ensures front { OnErr result ((q : ProgramOf Text) → Says program q → AppendsFront (O.written out.old) (O.written out.new) (bytes_of show goal.now (run_by q program.names goal.now budget))) }
    ensures machine { IfOk result (λ f. IsMachine f.machine) }
    ensures later { O.faults out.old ≤ O.faults out.new }
    ensures cause { IsErrOf result RunFault.WriteFault → Rose (O.faults out.old) (O.faults out.new) }
{
    runs_by_texts();
    let mut machine = Machine::new(alloc, program, goal, budget)?;
    let end = machine.run(alloc, out, show)?;
    Ok(Finished { machine, end })
}
