//! Goals of clauses that are done by the values in their code, without their terms: `is` and the comparisons of values (ISO/IEC
//! 13211-1, 8.6 and 8.7).
ghost use Rattle.std.specs.Prelude.{◌≡◌, ◌+◌, ◌<◌, ◌≤◌, ℕ, List, length, reverse, IfOk, IfSome};
ghost use Rattle.pl_unify.specs.State.{IsStore};
ghost use Rattle.builtin_model.specs.declared.row.Row.TheVariants as Builtin;
ghost use Rattle.pl_builtin_ends.specs.Meets.{Meets};
ghost use Rattle.goal_code.specs.Runs.{goal_of, next_of};
ghost use Rattle.clause_code.specs.Targets.{target_at};
ghost use Rattle.goal_state.specs.Denotation.{bodies, state_of, items_here};
ghost use Rattle.goal_state.specs.Well.{IsCompiled, IsWellWith};
ghost use Rattle.goal_moves.specs.Moves.{called, IsCode, Activated};
ghost use Rattle.goal_moves.specs.Values.{IsPair, DoesBy, IsValueGoal, value_deed, HasPlace};
ghost use Rattle.goal_moves.specs.Untried.{Leaves};

use crate::activation::{next_of, place_of};
use crate::going::Going;
use builtin_model::{Relation, Row};
use clause_code::Target;
use goal_code::Instruction;
use goal_state::{CompiledProgram, Path, Setting};
use pl_arith::value_in_code;
use pl_atoms::{Names, NoMemory};
use pl_builtin_ends::{Done, whether};
use pl_builtins::{holds, row_of, unify_code_int};
use pl_store::ClauseId;
use pl_unify::{Code, Store, View};

/// What a goal does whose values are seen in its code.
#[derive(Clone, Copy, Debug)]
pub(crate) enum ValueGoal {
    /// It succeeds or fails: a comparison of values.
    Compares(bool),
    /// It unifies what the code has at a place with a value: `is`.
    Assigns(usize, i64),
}

/// What the goal of an instruction does by the values in its code, where its target is this one.
///
/// None: the goal is no `is` and no comparison of values, or a value is not seen from the code.
pub(crate) fn value_goal(
    compiled: &CompiledProgram,
    path: &Path,
    instruction: Instruction,
    setting: Setting,
    target: Target,
) -> Option<ValueGoal>
    requires compiled { IsCompiled compiled.now }
    requires code { IsCode compiled.now path.now instruction setting }
    requires plain { instruction ≡ Instruction.Goal (goal_of instruction) (next_of instruction) }
    requires target { target ≡ target_at compiled.now.targets setting.clause path.now.pc }
    ensures { IfSome result (λ goal. IsValueGoal compiled.now path.now instruction setting goal) }
{
    let Target::Plain(number) = target else {
        return None;
    };
    let row = row_of(number)?;
    let body = &compiled.codes.get(ClauseId(setting.clause)).body;
    by_values(
        &path.store,
        &compiled.names,
        body,
        place_of(instruction),
        setting.base,
        row,
    )
}

// What the goal of a row does whose term stands at a place of the code.
fn by_values(
    store: &Store,
    names: &Names,
    code: &Code,
    place: usize,
    base: usize,
    row: Row,
) -> Option<ValueGoal>
    requires { place < length code.now.words }
    ensures { IfSome result (λ goal. DoesBy names.now store.now.state base code.now.words place row goal) }
{
    match row {
        Row::Value(relation) => compared(store, names, code, place, base, relation),
        Row::Is => assigned(store, names, code, place, base),
        _ => None,
    }
}

// What a comparison of values does.
fn compared(
    store: &Store,
    names: &Names,
    code: &Code,
    place: usize,
    base: usize,
    relation: Relation,
) -> Option<ValueGoal>
    requires { place < length code.now.words }
    ensures { IfSome result (λ goal. DoesBy names.now store.now.state base code.now.words place (Builtin.Value relation) goal) }
{
    let _places = code.len();
    let left = two_arguments(code, place)?;
    let x = value_in_code(store, names, code, left, base)?;
    let y = value_in_code(store, names, code, left + 1, base)?;
    Some(ValueGoal::Compares(holds(relation, x, y)))
}

// What `is` does.
fn assigned(
    store: &Store,
    names: &Names,
    code: &Code,
    place: usize,
    base: usize,
) -> Option<ValueGoal>
    requires { place < length code.now.words }
    ensures { IfSome result (λ goal. DoesBy names.now store.now.state base code.now.words place Builtin.Is goal) }
{
    let _places = code.len();
    let left = two_arguments(code, place)?;
    let value = value_in_code(store, names, code, left + 1, base)?;
    Some(ValueGoal::Assigns(left, value))
}

// The place of the first of a compound's two arguments, which the second follows.
fn two_arguments(code: &Code, place: usize) -> Option<usize>
    requires { place < length code.now.words }
    ensures { IfSome result (λ left. IsPair code.now.words place left) }
{
    match code.view(place) {
        View::Comp(_, 2) => Some(code.arguments(place)),
        _ => None,
    }
}

/// Does a goal by its values: the goal of an instruction, which stands first on the path.
/// NoMemory: there is no room for what `is` binds.
pub(crate) fn do_value_goal(
    compiled: &CompiledProgram,
    path: &mut Path,
    instruction: Instruction,
    setting: Setting,
    node: usize,
    goal: ValueGoal,
) -> Result<Going, NoMemory>
    requires compiled { IsCompiled compiled.now }
    requires well { IsWellWith compiled.now path.old (reverse path.old.choices.items) node }
    requires depth { path.old.depth ≡ node + 1 }
    requires code { IsCode compiled.now path.old instruction setting }
    requires goal { IsValueGoal compiled.now path.old instruction setting goal }
    ensures activated { IfOk result (λ g. (text : List ℕ) → Activated compiled.now path.old path.new (called compiled.now path.old node (items_here compiled.now path.old path.old.f path.old.pc)) text text g) }
    ensures untried { IfOk result (λ g. Leaves compiled.now path.old path.new (called compiled.now path.old node (items_here compiled.now path.old path.old.f path.old.pc))) }
{
    let _ = node;
    let _frame = path.frames.get(path.f);
    let (f, pc) = path.frames.after(path.f, next_of(instruction));
    let body = &compiled.codes.get(ClauseId(setting.clause)).body;
    let done = do_in_store(&mut path.store, body, setting.base, goal)?;
    let _store = path.store.next_var();
    if let Done::Yes = done {
        path.f = f;
        path.pc = pc;
        Ok(Going::On)
    } else {
        Ok(Going::Fails)
    }
}

// Does in the store what a goal does by its values.
fn do_in_store(
    store: &mut Store,
    code: &Code,
    base: usize,
    goal: ValueGoal,
) -> Result<Done, NoMemory>
    requires place { HasPlace code.now.words goal }
    requires base { base ≤ store.old.state.next }
    ensures { IfOk result (λ done. Meets store.old.state store.new.state (value_deed store.old.state base code.now.words goal) done) }
{
    match goal {
        ValueGoal::Compares(succeeds) => Ok(whether(succeeds)),
        ValueGoal::Assigns(place, value) => unify_code_int(store, code, place, base, value),
    }
}
