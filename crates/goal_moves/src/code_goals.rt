//! Goals of clauses whose targets are kept with the code.
ghost use Rattle.std.specs.Prelude.{◌≡◌, ◌+◌, reverse, IfOk, OnOk};
ghost use Rattle.pl_ops.specs.Standard.{standard};
ghost use Rattle.pl_ops.specs.Tables.{operator};
ghost use Rattle.goal_code.specs.Runs.{goal_of, next_of};
ghost use Rattle.goal_state.specs.Denotation.{items_here};
ghost use Rattle.goal_state.specs.Well.{IsCompiled, IsWellWith};
ghost use Rattle.goal_moves.specs.Goals.{IsOfTarget};
ghost use Rattle.goal_moves.specs.Moves.{goal_items, called, IsReady, IsCode, Activated};
ghost use Rattle.goal_moves.specs.Untried.{Leaves};

use crate::activation::{activate_term, goal_here};
use crate::active::Active;
use crate::builtins::do_row;
use crate::code_values::{do_value_goal, value_goal};
use crate::going::Going;
use crate::procedures::call_clauses;
use clause_code::Target;
use goal_code::Instruction;
use goal_state::{CompiledProgram, Path, Setting};
use pl_atoms::{Bytes, NameId, NoMemory};
use pl_ops::OpTable;
use std::alloc::Global;

/// Activates the goal of a `Goal` instruction, which stands first on the path, by what is kept of what it leads to. What it writes
/// is put onto `text`.
pub(crate) fn goal_from_code(
    alloc: Global,
    compiled: &mut CompiledProgram,
    table: &OpTable,
    path: &mut Path,
    instruction: Instruction,
    setting: Setting,
    node: usize,
    text: &mut Bytes,
) -> Result<Going, NoMemory>
    requires compiled { IsCompiled compiled.old }
    requires table { operator table.now ≡ operator standard }
    requires well { IsWellWith compiled.old path.old (reverse path.old.choices.items) node }
    requires depth { path.old.depth ≡ node + 1 }
    requires code { IsCode compiled.old path.old instruction setting }
    requires plain { instruction ≡ Instruction.Goal (goal_of instruction) (next_of instruction) }
    ensures compiled { OnOk result (compiled.new ≡ compiled.old) }
    ensures activated { IfOk result (λ g. Activated compiled.old path.old path.new (called compiled.old path.old node (items_here compiled.old path.old path.old.f path.old.pc)) text.old text.new g) }
    ensures untried { IfOk result (λ g. Leaves compiled.old path.old path.new (called compiled.old path.old node (items_here compiled.old path.old path.old.f path.old.pc))) }
{
    let target = compiled.targets.get(setting.clause, path.pc);
    if let Some(goal) = value_goal(compiled, path, instruction, setting, target) {
        return do_value_goal(compiled, path, instruction, setting, node, goal);
    }
    let home = compiled.targets.home(setting.clause);
    let active = goal_here(compiled, path, instruction, setting, node)?;
    run_target(alloc, compiled, table, path, active, target, home, text)
}

// Activates a goal whose target is kept for where it is looked up from the module `home`. Elsewhere its procedure is looked up anew.
fn run_target(
    alloc: Global,
    compiled: &mut CompiledProgram,
    table: &OpTable,
    path: &mut Path,
    active: Active,
    target: Target,
    home: NameId,
    text: &mut Bytes,
) -> Result<Going, NoMemory>
    requires compiled { IsCompiled compiled.old }
    requires table { operator table.now ≡ operator standard }
    requires ready { IsReady compiled.old path.old active }
    requires target { IsOfTarget compiled.old path.old active home.0 target }
    ensures compiled { OnOk result (compiled.new ≡ compiled.old) }
    ensures activated { IfOk result (λ g. Activated compiled.old path.old path.new (called compiled.old path.old active.node (goal_items compiled.old path.old active)) text.old text.new g) }
    ensures untried { IfOk result (λ g. Leaves compiled.old path.old path.new (called compiled.old path.old active.node (goal_items compiled.old path.old active))) }
{
    match target {
        Target::Plain(row) => do_row(alloc, compiled, table, path, active, row, text),
        Target::User(Some(proc)) if home.0 == active.setting.lookup.0 => {
            call_clauses(alloc, compiled, path, active, proc)
        }
        _ => activate_term(alloc, compiled, table, path, active, text),
    }
}
