//! Machines.
ghost use Rattle.std.specs.Prelude.{◌≡◌, ◌<◌, ◌≤◌, ◌-◌, ℕ, [], None, All, IfOk, OnOk, codes, length};
ghost use Rattle.pl_terms.specs.Trees.{Tree};
ghost use Rattle.pl_terms.specs.Occurrence.{variables, from_to};
ghost use Rattle.pl_unify.specs.State.{IsRef, tree_at};
ghost use Rattle.pl_ops.specs.Standard.{standard};
ghost use Rattle.pl_ops.specs.Tables.{operator};
ghost use Rattle.goal_model.specs.Bodies.{goal_of};
ghost use Rattle.goal_constructs.specs.Calling.{IsCalled, IsPlace};
ghost use Rattle.goal_state.specs.declared.compiled.CompiledProgram.{CompiledProgram as CompiledOf};
ghost use Rattle.goal_state.specs.Denotation.{naming, state_of};
ghost use Rattle.goal_state.specs.Well.{IsCompiled, IsWell};
ghost use Rattle.pl_machine.specs.Machine.{IsMachine};
ghost use Rattle.goal_moves.specs.Control.{Grew};
ghost use Rattle.pl_machine.specs.Starting.{IsStart, IsFresh, Begins, outermost};

use crate::compiled::compiled_of;
use goal_constructs::Called;
use goal_moves::{Going, Rest, enter_goals, raise};
use goal_state::{CompiledProgram, Frames, Path, Setting};
use pl_atoms::{Bytes, Names, NoMemory};
use pl_ops::OpTable;
use pl_store::Program;
use pl_terms::{ReadTerm, Term, VarName};
use pl_unify::{Ref, Store};
use std::alloc::Global;

/// A run of a goal over a linked program, with a budget of steps.
#[derive(Drop)]
pub struct Machine {
    pub(crate) compiled: CompiledProgram,
    pub(crate) table: OpTable,
    pub(crate) path: Path,
    pub(crate) variables: Vec<VarName>,
    pub(crate) going: Going,
    pub(crate) budget: u64,
    pub(crate) left: u64,
    pub(crate) answers: u64,
    pub(crate) peak: usize,
    pub(crate) over: bool,
}

impl Machine {
    /// A machine that stands before its first goal. The goal's variables are numbered from 0 in order of first occurrence, and its names
    /// are those of the program. Names are added to the program's table.
    ///
    /// The only error is want of memory.
    pub fn new(
        alloc: Global,
        program: Program,
        goal: &ReadTerm,
        budget: u64,
    ) -> Result<Machine, NoMemory>
        requires variables { variables goal.now.term ≡ from_to 0 (length (variables goal.now.term)) }
        requires names { All (λ v. v.number < length (variables goal.now.term)) goal.now.names }
        ensures { IfOk result (IsStart program goal.now budget) }
    {
        let compiled = compiled_of(alloc, program)?;
        let table = OpTable::standard(alloc)?;
        let variables = named(alloc, goal.names.as_slice())?;
        let (path, going) = standing(alloc, &compiled, &goal.term)?;
        Ok(Machine {
            compiled,
            table,
            path,
            variables,
            going,
            budget,
            left: budget,
            answers: 0,
            peak: 0,
            over: false,
        })
    }

    /// How many goals were activated.
    pub fn steps(&self) -> u64
        requires { IsMachine self.now }
        ensures { result ≡ self.now.budget - self.now.left }
    {
        self.budget - self.left
    }

    /// The names of the program, with those of the run.
    pub fn names(&self) -> &Names
        ensures { result.now ≡ self.now.compiled.names }
    {
        &self.compiled.names
    }

    /// The operators under which terms are shown: the standard ones.
    pub fn table(&self) -> &OpTable
        requires { IsMachine self.now }
        ensures { operator result.now ≡ operator standard }
    {
        &self.table
    }

    /// How many answers were shown.
    pub fn answers(&self) -> u64
        ensures { result ≡ self.now.answers }
    {
        self.answers
    }

    /// How many records of alternatives there are.
    pub fn choices(&self) -> usize
        ensures { result ≡ length self.now.path.choices.items }
    {
        self.path.choices.len()
    }

    /// The most records of alternatives that there were after an activation.
    pub fn peak(&self) -> usize
        ensures { result ≡ self.now.peak }
    {
        self.peak
    }
}

// The named variables of a goal.
fn named(alloc: Global, names: &[VarName]) -> Result<Vec<VarName>, NoMemory>
    ensures { IfOk result (λ variables. variables.items ≡ names.now) }
{
    let mut variables = Vec::new(alloc);
    for variable in names {
        let name = Bytes::from_slice(alloc, variable.name.as_slice())?;
        variables.push(VarName {
            name,
            number: variable.number,
        })?;
    }
    Ok(variables)
}

// A path that stands where a goal's run begins, and how it goes on.
fn standing(
    alloc: Global,
    compiled: &CompiledProgram,
    goal: &Term,
) -> Result<(Path, Going), NoMemory>
    requires compiled { IsCompiled compiled.now }
    requires variables { variables goal.now ≡ from_to 0 (length (variables goal.now)) }
    ensures well { IfOk result (λ r. IsWell compiled.now r.0) }
    ensures low { IfOk result (λ r. r.0.depth ≤ 0) }
    ensures width { IfOk result (λ r. r.0.width ≡ length (variables goal.now)) }
    ensures begins { IfOk result (λ r. (left : ℕ) → Begins compiled.now r.0 goal.now left r.1) }
{
    let mut store = Store::new(alloc);
    let term = store.load(goal, 0)?;
    let width = store.next_var();
    let mut path = first_path(alloc, store, width);
    let going = start(alloc, compiled, &mut path, term)?;
    Ok((path, going))
}

// A path that stands nowhere, over a store with the goal's variables.
fn first_path(alloc: Global, store: Store, width: usize) -> Path
    requires { width ≡ store.state.next }
    ensures path { (b : CompiledOf) → IsWell b result }
    ensures store { result.store ≡ store }
    ensures width { result.width ≡ width }
    ensures depth { result.depth ≡ 0 }
    ensures choices { result.choices.items ≡ [] }
    ensures template { result.template ≡ None }
    ensures frames { result.frames ≡ [] }
{
    let _store = store.next_var();
    Path {
        store,
        frames: Frames::new(alloc),
        choices: Vec::new(alloc),
        gathered: Vec::new(alloc),
        template: None,
        width,
        f: 0,
        pc: 0,
        depth: 0,
    }
}

// Goes to the goals of a term, which is converted; an error of the conversion is thrown (ISO/IEC 13211-1, 7.6.2).
fn start(
    alloc: Global,
    compiled: &CompiledProgram,
    path: &mut Path,
    term: Ref,
) -> Result<Going, NoMemory>
    requires compiled { IsCompiled compiled.now }
    requires well { IsWell compiled.now path.old }
    requires term { IsRef (state_of path.old) term }
    ensures well { IfOk result (λ g. IsWell compiled.now path.new) }
    ensures low { IfOk result (λ g. path.new.depth ≤ path.old.depth) }
    ensures width { IfOk result (λ g. path.new.width ≡ path.old.width) }
    ensures begins { IfOk result (λ g. (left : ℕ) → IsFresh path.old (tree_at (state_of path.old) term) → Begins compiled.now path.new (tree_at (state_of path.old) term) left g) }
{
    let called = converted(alloc, compiled, path, term)?;
    begin(alloc, compiled, path, called)
}

// A term as `call/1` takes it for a goal.
fn converted(
    alloc: Global,
    compiled: &CompiledProgram,
    path: &mut Path,
    term: Ref,
) -> Result<Called, NoMemory>
    requires compiled { IsCompiled compiled.now }
    requires term { IsRef (state_of path.old) term }
    ensures grew { OnOk result (Grew path.old path.new) }
    ensures place { IfOk result (λ r. IsPlace (state_of path.new) r) }
    ensures goal { IfOk result (λ r. IsCalled (state_of path.new) (goal_of (naming compiled.now) (tree_at (state_of path.old) term) ((naming compiled.now).name (codes "call")) 1) r) }
{
    let name = compiled.constructs.names().call;
    let called = compiled
        .constructs
        .goal_of(alloc, &mut path.store, term, name, 1)?;
    let _store = path.store.next_var();
    Ok(called)
}

// Goes to the goals of a converted term, or throws the ball of its error.
fn begin(
    alloc: Global,
    compiled: &CompiledProgram,
    path: &mut Path,
    called: Called,
) -> Result<Going, NoMemory>
    requires compiled { IsCompiled compiled.now }
    requires well { IsWell compiled.now path.old }
    requires place { IsPlace (state_of path.old) called }
    ensures well { IfOk result (λ g. IsWell compiled.now path.new) }
    ensures low { IfOk result (λ g. path.new.depth ≤ path.old.depth) }
    ensures width { IfOk result (λ g. path.new.width ≡ path.old.width) }
    ensures begins { IfOk result (λ g. (goal : Tree ℕ) (left : ℕ) → IsFresh path.old goal → IsCalled (state_of path.old) (goal_of (naming compiled.now) goal ((naming compiled.now).name (codes "call")) 1) called → Begins compiled.now path.new goal left g) }
{
    let rest = Rest { f: 0, pc: 0 };
    match called {
        Called::Ball(ball) => raise(alloc, compiled, path, ball, rest),
        Called::Goal(goal) => {
            let setting = outermost(compiled);
            enter_goals(alloc, compiled, path, goal, setting, rest)?;
            Ok(Going::On)
        }
    }
}

// Where the goals of a run stand: in no clause, with everything in `user`.
fn outermost(compiled: &CompiledProgram) -> Setting
    ensures { result ≡ outermost compiled.now }
{
    let user = compiled.constructs.names().user_word;
    Setting {
        clause: 0,
        base: 0,
        lookup: user,
        context: user,
        caller: user,
        depth: 0,
    }
}
