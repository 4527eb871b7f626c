//! The activation of goals (ISO/IEC 13211-1, 7.7.6).
ghost use Rattle.std.specs.Prelude.{◌≡◌, ◌+◌, ◌<◌, ◌≤◌, ◌∷◌, ◌++◌, [], ℕ, length, reverse, true, false, Some, IfOk, OnOk};
ghost use Rattle.pl_terms.specs.Trees.{Tree};
ghost use Rattle.pl_terms.specs.Occurrence.{canon};
ghost use Rattle.pl_unify.specs.State.{tree_at, IsRef};
ghost use Rattle.solver_model.specs.Search.{Call, Cut, Pop, Fail, Over, Failed, pops};
ghost use Rattle.goal_model.specs.Bodies.{flat};
ghost use Rattle.goal_code.specs.Continuations.{items_from};
ghost use Rattle.goal_state.specs.Frames.{env_of, part_item, running};
ghost use Rattle.goal_constructs.specs.Goals.{IsRow};
ghost use Rattle.goal_state.specs.Denotation.{linked, naming, bodies, state_of, items_here, search_at, answers_of};
ghost use Rattle.goal_state.specs.Well.{IsCompiled, IsWell, IsWellWith, floor_of};
ghost use Rattle.pl_ops.specs.Standard.{standard};
ghost use Rattle.pl_ops.specs.Tables.{operator};
ghost use Rattle.goal_code.specs.Runs.{goal_of, next_of};
ghost use Rattle.pl_unify.specs.Code.{code_tree_in};
ghost use Rattle.goal_moves.specs.Control.{Grew, GoalHere};
ghost use Rattle.goal_moves.specs.Moves.{goal_items, called, thrown, tried, resumed, IsReady, IsTrying, Moved, Entered, here, IsCode, Activated};
ghost use Rattle.goal_moves.specs.Untried.{Leaves};

use crate::active::{Active, Rest};
use crate::builtins::do_row;
use crate::code_control::{cut_from_code, either_from_code, if_from_code};
use crate::code_goals::goal_from_code;
use crate::collecting::collecting;
use crate::going::Going;
use crate::procedures::call_procedure;
use crate::term_control::{
    calling, catching, commit, either, from_context, if_then, if_then_else, in_module, negation,
    once, repeat, throwing,
};
use goal_code::Instruction;
use goal_constructs::GoalRow;
use goal_state::{CompiledProgram, Path, Setting};
use pl_atoms::{Bytes, NoMemory};
use pl_ops::OpTable;
use pl_store::ClauseId;
use pl_unify::Ref;
use std::alloc::Global;

/// Activates a goal that is a term. What it writes is put onto `text`.
pub fn activate_term(
    alloc: Global,
    compiled: &mut CompiledProgram,
    table: &OpTable,
    path: &mut Path,
    active: Active,
    text: &mut Bytes,
) -> Result<Going, NoMemory>
    requires compiled { IsCompiled compiled.old }
    requires table { operator table.now ≡ operator standard }
    requires ready { IsReady compiled.old path.old active }
    ensures compiled { OnOk result (compiled.new ≡ compiled.old) }
    ensures activated { IfOk result (λ g. Activated compiled.old path.old path.new (called compiled.old path.old active.node (goal_items compiled.old path.old active)) text.old text.new g) }
    ensures untried { IfOk result (λ g. Leaves compiled.old path.old path.new (called compiled.old path.old active.node (goal_items compiled.old path.old active))) }
{
    match compiled.constructs.row(&path.store, active.goal) {
        GoalRow::Commit => Ok(commit(compiled, path, active)),
        GoalRow::IfThenElse(condition, then, otherwise) => {
            if_then_else(alloc, compiled, path, active, condition, then, otherwise)
        }
        GoalRow::IfThen(condition, then) => if_then(alloc, compiled, path, active, condition, then),
        GoalRow::Either(left, right) => either(alloc, compiled, path, active, left, right),
        GoalRow::Negation(goal) => negation(alloc, compiled, path, active, goal),
        GoalRow::Once(goal) => once(alloc, compiled, path, active, goal),
        GoalRow::Calling => calling(alloc, compiled, path, active),
        GoalRow::InModule(home, goal) => in_module(alloc, compiled, path, active, home, goal),
        GoalRow::FromContext(goal, context) => {
            from_context(alloc, compiled, path, active, goal, context)
        }
        GoalRow::Repeat => repeat(compiled, path, active),
        GoalRow::Throwing(ball) => throwing(alloc, compiled, path, active, ball),
        GoalRow::Catching(goal, catcher, recovery) => {
            catching(alloc, compiled, path, active, goal, catcher, recovery)
        }
        GoalRow::Collecting(template, goal, list) => {
            collecting(alloc, compiled, path, active, template, goal, list)
        }
        GoalRow::Plain(row) => do_row(alloc, compiled, table, path, active, row, text),
        GoalRow::User => call_procedure(alloc, compiled, path, active),
    }
}

/// Activates the goal of an instruction, which stands first on the path. What it writes is put onto `text`.
pub fn activate_code(
    alloc: Global,
    compiled: &mut CompiledProgram,
    table: &OpTable,
    path: &mut Path,
    instruction: Instruction,
    setting: Setting,
    node: usize,
    text: &mut Bytes,
) -> Result<Going, NoMemory>
    requires compiled { IsCompiled compiled.old }
    requires table { operator table.now ≡ operator standard }
    requires well { IsWellWith compiled.old path.old (reverse path.old.choices.items) node }
    requires depth { path.old.depth ≡ node + 1 }
    requires code { IsCode compiled.old path.old instruction setting }
    ensures compiled { OnOk result (compiled.new ≡ compiled.old) }
    ensures activated { IfOk result (λ g. Activated compiled.old path.old path.new (called compiled.old path.old node (items_here compiled.old path.old path.old.f path.old.pc)) text.old text.new g) }
    ensures untried { IfOk result (λ g. Leaves compiled.old path.old path.new (called compiled.old path.old node (items_here compiled.old path.old path.old.f path.old.pc))) }
{
    match instruction {
        Instruction::Goal { .. } => goal_from_code(
            alloc,
            compiled,
            table,
            path,
            instruction,
            setting,
            node,
            text,
        ),
        Instruction::Cut { next, .. } => Ok(cut_from_code(compiled, path, next, setting, node)),
        Instruction::Either { left, right, .. } => {
            either_from_code(compiled, path, left, right, setting, node)
        }
        Instruction::If {
            condition,
            otherwise,
            next,
            ..
        } => if_from_code(compiled, path, condition, otherwise, next, setting, node),
        Instruction::EndIf { .. } => unreachable!(),
    }
}

/// Puts the goal of an instruction, which stands first on the path, into the store.
pub(crate) fn goal_here(
    compiled: &CompiledProgram,
    path: &mut Path,
    instruction: Instruction,
    setting: Setting,
    node: usize,
) -> Result<Active, NoMemory>
    requires compiled { IsCompiled compiled.now }
    requires well { IsWellWith compiled.now path.old (reverse path.old.choices.items) node }
    requires depth { path.old.depth ≡ node + 1 }
    requires code { IsCode compiled.now path.old instruction setting }
    ensures here { IfOk result (λ a. GoalHere compiled.now path.old path.new node a) }
    ensures tree { IfOk result (λ a. tree_at (state_of path.new) a.goal ≡ code_tree_in (state_of path.old) setting.base (bodies compiled.now setting.clause).words (goal_of instruction)) }
{
    let _frame = path.frames.get(path.f);
    let (f, pc) = path.frames.after(path.f, next_of(instruction));
    let goal = build_goal(compiled, path, instruction, setting)?;
    let rest = Rest { f, pc };
    Ok(Active {
        goal,
        setting,
        rest,
        node,
    })
}

// Puts the term of an instruction of a clause into the store. The clause's variables were made when the clause was taken, so that
// none is new.
fn build_goal(
    compiled: &CompiledProgram,
    path: &mut Path,
    instruction: Instruction,
    setting: Setting,
) -> Result<Ref, NoMemory>
    requires clause { setting.clause < length compiled.now.codes }
    requires place { goal_of instruction < length (bodies compiled.now setting.clause).words }
    requires base { setting.base ≤ (state_of path.old).next }
    ensures grew { OnOk result (Grew path.old path.new) }
    ensures place { IfOk result (λ at. IsRef (state_of path.new) at) }
    ensures tree { IfOk result (λ at. tree_at (state_of path.new) at ≡ code_tree_in (state_of path.old) setting.base (bodies compiled.now setting.clause).words (goal_of instruction)) }
{
    let body = &compiled.codes.get(ClauseId(setting.clause)).body;
    let before = path.store.next_var();
    let goal = path
        .store
        .build_place(body, place_of(instruction), setting.base)?;
    let after = path.store.next_var();
    if after != before {
        return Err(NoMemory);
    }
    Ok(goal)
}

// Where the term of an instruction stands.
pub(crate) fn place_of(instruction: Instruction) -> usize
    ensures { result ≡ goal_of instruction }
{
    match instruction {
        Instruction::Goal { goal, .. } => goal,
        Instruction::Cut { goal, .. } => goal,
        Instruction::Either { goal, .. } => goal,
        Instruction::If { goal, .. } => goal,
        Instruction::EndIf { .. } => 0,
    }
}

// The place that follows an instruction.
pub(crate) fn next_of(instruction: Instruction) -> usize
    ensures { result ≡ next_of instruction }
{
    match instruction {
        Instruction::Goal { next, .. } => next,
        Instruction::Cut { next, .. } => next,
        Instruction::Either { next, .. } => next,
        Instruction::If { next, .. } => next,
        Instruction::EndIf { next } => next,
    }
}
