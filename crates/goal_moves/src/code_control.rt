//! Control constructs of clauses' bodies, which run from their instructions (ISO/IEC 13211-1, 7.8).
ghost use Rattle.std.specs.Prelude.{◌≡◌, ◌+◌, ◌≤◌, length, reverse, Some, None, IfOk, OnOk};
ghost use Rattle.goal_state.specs.declared.compiled.CompiledProgram.{CompiledProgram as CompiledOf};
ghost use Rattle.goal_state.specs.Denotation.{bodies, state_of, items_here};
ghost use Rattle.goal_state.specs.Well.{IsCompiled, IsWellWith, floor_of};
ghost use Rattle.goal_moves.specs.Branching.{AtCut, AtEither, AtIf, condition_from};
ghost use Rattle.goal_moves.specs.Moves.{called, Moved, Entered, here};
ghost use Rattle.goal_moves.specs.Untried.{Leaves};

use crate::active::Rest;
use crate::enter::enter_body;
use crate::going::Going;
use crate::term_control::{open_here, reaching};
use goal_state::{ChoiceKind, CompiledProgram, Path, Setting};
use pl_atoms::NoMemory;

/// `!` (ISO/IEC 13211-1, 7.8.4): cuts to the depth of the setting and goes on at `next`.
pub fn cut_from_code(
    compiled: &CompiledProgram,
    path: &mut Path,
    next: usize,
    setting: Setting,
    node: usize,
) -> Going
    requires compiled { IsCompiled compiled.now }
    requires well { IsWellWith compiled.now path.old (reverse path.old.choices.items) node }
    requires depth { path.old.depth ≡ node + 1 }
    requires code { AtCut compiled.now path.old next setting }
    ensures moved { Moved compiled.now path.old path.new (called compiled.now path.old node (items_here compiled.now path.old path.old.f path.old.pc)) result }
    ensures untried { Leaves compiled.now path.old path.new (called compiled.now path.old node (items_here compiled.now path.old path.old.f path.old.pc)) }
{
    let _ = compiled;
    let _ = node;
    let _frame = path.frames.get(path.f);
    path.cut(setting.depth);
    path.pc = next;
    Going::On
}

/// `P ; Q` (ISO/IEC 13211-1, 7.8.6): goes on at the left side, with the right side for later.
/// NoMemory: there is no room for the record of the right side.
pub fn either_from_code(
    compiled: &CompiledProgram,
    path: &mut Path,
    left: usize,
    right: usize,
    setting: Setting,
    node: usize,
) -> Result<Going, NoMemory>
    requires compiled { IsCompiled compiled.now }
    requires well { IsWellWith compiled.now path.old (reverse path.old.choices.items) node }
    requires depth { path.old.depth ≡ node + 1 }
    requires code { AtEither compiled.now path.old left right setting }
    ensures moved { IfOk result (λ g. Moved compiled.now path.old path.new (called compiled.now path.old node (items_here compiled.now path.old path.old.f path.old.pc)) g) }
    ensures untried { IfOk result (λ g. Leaves compiled.now path.old path.new (called compiled.now path.old node (items_here compiled.now path.old path.old.f path.old.pc))) }
{
    let _ = compiled;
    let _frame = path.frames.get(path.f);
    let other = at_place(path, right);
    open_here(path, ChoiceKind::Branch, other, setting, node)?;
    path.pc = left;
    Ok(Going::On)
}

/// `C -> T ; E` and `C -> T` (ISO/IEC 13211-1, 7.8.8 and 7.8.7): goes on at the condition, with `E` for later, if there is one.
/// NoMemory: there is no room for the record of `E` or the frame of the condition.
pub fn if_from_code(
    compiled: &CompiledProgram,
    path: &mut Path,
    condition: usize,
    otherwise: Option<usize>,
    next: usize,
    setting: Setting,
    node: usize,
) -> Result<Going, NoMemory>
    requires compiled { IsCompiled compiled.now }
    requires well { IsWellWith compiled.now path.old (reverse path.old.choices.items) node }
    requires depth { path.old.depth ≡ node + 1 }
    requires code { AtIf compiled.now path.old condition otherwise next setting }
    ensures moved { IfOk result (λ g. Moved compiled.now path.old path.new (called compiled.now path.old node (items_here compiled.now path.old path.old.f path.old.pc)) g) }
    ensures untried { IfOk result (λ g. Leaves compiled.now path.old path.new (called compiled.now path.old node (items_here compiled.now path.old path.old.f path.old.pc))) }
{
    match otherwise {
        Some(other) => if_then_else(compiled, path, condition, other, next, setting, node),
        None => if_then(compiled, path, condition, next, setting, node),
    }
}

// The same with another part.
fn if_then_else(
    compiled: &CompiledProgram,
    path: &mut Path,
    condition: usize,
    otherwise: usize,
    next: usize,
    setting: Setting,
    node: usize,
) -> Result<Going, NoMemory>
    requires compiled { IsCompiled compiled.now }
    requires well { IsWellWith compiled.now path.old (reverse path.old.choices.items) node }
    requires depth { path.old.depth ≡ node + 1 }
    requires code { AtIf compiled.now path.old condition (Some otherwise) next setting }
    ensures moved { IfOk result (λ g. Moved compiled.now path.old path.new (called compiled.now path.old node (items_here compiled.now path.old path.old.f path.old.pc)) g) }
    ensures untried { IfOk result (λ g. Leaves compiled.now path.old path.new (called compiled.now path.old node (items_here compiled.now path.old path.old.f path.old.pc))) }
{
    let _ = compiled;
    let _frame = path.frames.get(path.f);
    let other = at_place(path, otherwise);
    open_here(path, ChoiceKind::Branch, other, setting, node)?;
    enter_condition(path, condition, next, setting)?;
    Ok(Going::On)
}

// The same without another part.
fn if_then(
    compiled: &CompiledProgram,
    path: &mut Path,
    condition: usize,
    next: usize,
    setting: Setting,
    node: usize,
) -> Result<Going, NoMemory>
    requires compiled { IsCompiled compiled.now }
    requires well { IsWellWith compiled.now path.old (reverse path.old.choices.items) node }
    requires depth { path.old.depth ≡ node + 1 }
    requires code { AtIf compiled.now path.old condition None next setting }
    ensures moved { IfOk result (λ g. Moved compiled.now path.old path.new (called compiled.now path.old node (items_here compiled.now path.old path.old.f path.old.pc)) g) }
    ensures untried { IfOk result (λ g. Leaves compiled.now path.old path.new (called compiled.now path.old node (items_here compiled.now path.old path.old.f path.old.pc))) }
{
    let _ = compiled;
    let _ = node;
    let _frame = path.frames.get(path.f);
    enter_condition(path, condition, next, setting)?;
    Ok(Going::On)
}

// A place of the frame that stands first.
fn at_place(path: &Path, pc: usize) -> Rest
    ensures { result ≡ record { f = path.now.f; pc = pc } }
{
    Rest { f: path.f, pc }
}

// Enters a condition, whose cuts are its own. At its end the frame around it goes on.
fn enter_condition(
    path: &mut Path,
    condition: usize,
    next: usize,
    setting: Setting,
) -> Result<(), NoMemory>
    requires first { path.old.f ≤ length path.old.frames }
    requires floor { floor_of (reverse path.old.choices.items) ≤ length path.old.frames }
    requires base { setting.base ≤ (state_of path.old).next }
    ensures { OnOk result ((b : CompiledOf) → Entered b path.old path.new (record { f = path.old.f; pc = next }) (here path.new) (condition_from (bodies b) (state_of path.old) setting path.old.depth (items_here b path.old path.old.f) next condition)) }
{
    let inner = reaching(setting, path.depth);
    let after = at_place(path, next);
    enter_body(path, condition, inner, after)
}
