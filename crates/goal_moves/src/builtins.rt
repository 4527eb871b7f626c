//! Goals of built-in predicates that are no control constructs.
ghost use Rattle.std.specs.Prelude.{◌≡◌, map, All, IfOk, OnOk};
ghost use Rattle.builtin_model.specs.Lists.{listed};
ghost use Rattle.pl_unify.specs.State.{tree_at, IsRef};
ghost use Rattle.pl_ops.specs.Standard.{standard};
ghost use Rattle.pl_ops.specs.Tables.{operator};
ghost use Rattle.goal_constructs.specs.Goals.{IsRow, arguments_of};
ghost use Rattle.goal_constructs.specs.declared.row.GoalRow.TheVariants as GoalRow;
ghost use Rattle.goal_state.specs.Denotation.{naming, state_of};
ghost use Rattle.goal_state.specs.Well.{IsCompiled};
ghost use Rattle.goal_moves.specs.Moves.{goal_items, called, IsReady, Activated};
ghost use Rattle.goal_moves.specs.Untried.{Leaves};

use crate::active::Active;
use crate::going::Going;
use crate::raising::raise;
use goal_state::{CompiledProgram, Path};
use pl_atoms::{Bytes, NoMemory};
use pl_builtins::{Outcome, call};
use pl_ops::OpTable;
use pl_unify::{Ref, Store, View};
use smallvec::SmallVec;
use std::alloc::Global;

/// Does what the built-in predicate of a row of the table of built-in procedures does. What it writes is put onto `text`.
pub fn do_row(
    alloc: Global,
    compiled: &mut CompiledProgram,
    table: &OpTable,
    path: &mut Path,
    active: Active,
    row: usize,
    text: &mut Bytes,
) -> Result<Going, NoMemory>
    requires compiled { IsCompiled compiled.old }
    requires table { operator table.now ≡ operator standard }
    requires ready { IsReady compiled.old path.old active }
    requires row { IsRow (naming compiled.old) (state_of path.old) active.goal (GoalRow.Plain row) }
    ensures compiled { OnOk result (compiled.new ≡ compiled.old) }
    ensures activated { IfOk result (λ g. Activated compiled.old path.old path.new (called compiled.old path.old active.node (goal_items compiled.old path.old active)) text.old text.new g) }
    ensures untried { IfOk result (λ g. Leaves compiled.old path.old path.new (called compiled.old path.old active.node (goal_items compiled.old path.old active))) }
{
    let args = arguments(alloc, &path.store, active.goal)?;
    let caller = active.setting.caller;
    let outcome = call(
        alloc,
        &mut path.store,
        &mut compiled.names,
        table,
        row,
        args.as_slice(),
        caller,
        text,
    )?;
    let _store = path.store.next_var();
    match outcome {
        Outcome::Yes => {
            path.f = active.rest.f;
            path.pc = active.rest.pc;
            Ok(Going::On)
        }
        Outcome::No => Ok(Going::Fails),
        Outcome::Error(ball) => raise(alloc, compiled, path, ball, active.rest),
        Outcome::Halt(status) => Ok(Going::Halts(status)),
    }
}

// The places of a goal's arguments, which take no memory of their own where they are few.
fn arguments(alloc: Global, store: &Store, goal: Ref) -> Result<SmallVec<Ref, 8>, NoMemory>
    requires { IsRef store.now.state goal }
    ensures places { IfOk result (λ args. All (λ r. IsRef store.now.state r) args.items) }
    ensures trees { IfOk result (λ args. map (tree_at store.now.state) args.items ≡ listed (arguments_of (tree_at store.now.state goal))) }
{
    let mut args = SmallVec::new(alloc);
    let View::Comp(_, count) = store.view(goal) else {
        return Ok(args);
    };
    for k in 0..count {
        args.push(store.arg(goal, k))?;
    }
    Ok(args)
}
