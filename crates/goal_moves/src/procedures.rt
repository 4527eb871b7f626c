//! Goals of the procedures of the program (ISO/IEC 13211-1, 7.7.7 to 7.7.10).
ghost use Rattle.std.specs.Prelude.{◌≡◌, ◌+◌, ◌<◌, ◌≤◌, ◌∷◌, ◌++◌, [], ℕ, length, reverse, true, false, Some, IfOk, OnOk};
ghost use Rattle.pl_terms.specs.Trees.{Tree};
ghost use Rattle.pl_terms.specs.Occurrence.{canon};
ghost use Rattle.pl_unify.specs.State.{tree_at, IsRef};
ghost use Rattle.solver_model.specs.Search.{Call, Cut, Pop, Fail, Over, Failed, pops};
ghost use Rattle.goal_model.specs.Bodies.{flat};
ghost use Rattle.goal_code.specs.Continuations.{items_from};
ghost use Rattle.goal_state.specs.Frames.{env_of, part_item, running};
ghost use Rattle.goal_constructs.specs.Goals.{IsRow};
ghost use Rattle.goal_state.specs.Denotation.{linked, naming, bodies, state_of, items_here, search_at, answers_of};
ghost use Rattle.goal_state.specs.Well.{IsCompiled, IsWell, IsWellWith, floor_of};
ghost use Rattle.goal_moves.specs.declared.going.Going.TheVariants.{Fails};
ghost use Rattle.goal_constructs.specs.declared.row.GoalRow.TheVariants as GoalRow;
ghost use Rattle.pl_unify.specs.State.{IsStore, Extends};
ghost use Rattle.unifier_model.specs.Substitution.{raise as raise_by};
ghost use Rattle.unifier_model.specs.Mgu.{mgu};
ghost use Rattle.std.specs.Prelude.{None as Nothing};
ghost use Rattle.clause_code.specs.Heads.{Took};
ghost use Rattle.goal_model.specs.Choices.{key_of as goal_key, argument_key};
ghost use Rattle.pl_store.specs.Linked.{clause_at, key_view};
ghost use Rattle.goal_state.specs.Well.{IsGoalOf};
ghost use Rattle.std.specs.Prelude.{is_some};
ghost use Rattle.pl_unify.specs.State.{Grows};
ghost use Rattle.pl_unify.specs.Shape.{root};
ghost use Rattle.clause_code.specs.Heads.{IsNamed};
ghost use Rattle.goal_model.specs.Environments.{body_place};
ghost use Rattle.pl_store.specs.Linked.{procedure_at, visible_in};
ghost use Rattle.pl_store.specs.Rules.{indicator_of as goal_indicator};
ghost use Rattle.goal_moves.specs.Clauses.{IsProcedureOf, passed_goal, NothingFits, FitsNext, WasTried, TriedLeaves, body_rest, IsProper};
ghost use Rattle.goal_moves.specs.Moves.{goal_items, called, thrown, tried, resumed, IsReady, IsTrying, Moved, Entered, here, IsCode, Activated};
ghost use Rattle.goal_moves.specs.Untried.{Leaves, TriesLeave};

use crate::active::{Active, Rest};
use crate::enter::enter_body;
use crate::going::Going;
use crate::raising::raise;
use clause_code::try_head;
use goal_state::{ChoiceKind, CompiledProgram, Path, Setting};
use mod_meta::qualify;
use pl_atoms::{NameId, NoMemory};
use pl_store::{ClauseId, Key, ProcId};
use pl_unify::{Ref, Store, View};
use std::alloc::Global;

/// What clauses are tried for: a goal with its arguments qualified, the setting in which their bodies run, whose depth is that of the
/// goal's node, and what follows the goal.
#[derive(Clone, Copy, Debug)]
pub struct Attempt {
    pub goal: Ref,
    pub setting: Setting,
    pub rest: Rest,
}

// What trying a clause gives: it was taken, another one is next, or none is left.
enum Tried {
    Taken,
    Next(ClauseId),
    Gone,
}

/// Activates a goal of a procedure of the program.
pub fn call_procedure(
    alloc: Global,
    compiled: &CompiledProgram,
    path: &mut Path,
    active: Active,
) -> Result<Going, NoMemory>
    requires compiled { IsCompiled compiled.now }
    requires ready { IsReady compiled.now path.old active }
    requires row { IsRow (naming compiled.now) (state_of path.old) active.goal GoalRow.User }
    ensures moved { IfOk result (λ g. Moved compiled.now path.old path.new (called compiled.now path.old active.node (goal_items compiled.now path.old active)) g) }
    ensures untried { IfOk result (λ g. Leaves compiled.now path.old path.new (called compiled.now path.old active.node (goal_items compiled.now path.old active))) }
{
    let (name, arity) = name_and_arity(&path.store, active.goal);
    let lookup = active.setting.lookup;
    match compiled.tables.procedure(lookup, name, arity) {
        None => throw_unknown(alloc, compiled, path, active, name, arity),
        Some(proc) => call_clauses(alloc, compiled, path, active, proc),
    }
}

// Throws the error of a procedure that is not visible.
fn throw_unknown(
    alloc: Global,
    compiled: &CompiledProgram,
    path: &mut Path,
    active: Active,
    name: NameId,
    arity: u8,
) -> Result<Going, NoMemory>
    requires compiled { IsCompiled compiled.now }
    requires ready { IsReady compiled.now path.old active }
    requires row { IsRow (naming compiled.now) (state_of path.old) active.goal GoalRow.User }
    requires goal { goal_indicator (tree_at (state_of path.old) active.goal) ≡ Some (record { name = name.0; arity = arity }) }
    requires unseen { visible_in compiled.now.tables.rows active.setting.lookup.0 (record { name = name.0; arity = arity }) ≡ Nothing }
    ensures moved { IfOk result (λ g. Moved compiled.now path.old path.new (called compiled.now path.old active.node (goal_items compiled.now path.old active)) g) }
    ensures untried { IfOk result (λ g. Leaves compiled.now path.old path.new (called compiled.now path.old active.node (goal_items compiled.now path.old active))) }
{
    let lookup = active.setting.lookup;
    let ball = compiled
        .constructs
        .no_procedure(&mut path.store, name, arity, lookup)?;
    let _next = path.store.next_var();
    raise(alloc, compiled, path, ball, active.rest)
}

/// Activates a goal of a visible procedure.
pub(crate) fn call_clauses(
    alloc: Global,
    compiled: &CompiledProgram,
    path: &mut Path,
    active: Active,
    proc: ProcId,
) -> Result<Going, NoMemory>
    requires compiled { IsCompiled compiled.now }
    requires ready { IsReady compiled.now path.old active }
    requires row { IsRow (naming compiled.now) (state_of path.old) active.goal GoalRow.User }
    requires seen { IsProcedureOf compiled.now path.old active proc.0 }
    ensures moved { IfOk result (λ g. Moved compiled.now path.old path.new (called compiled.now path.old active.node (goal_items compiled.now path.old active)) g) }
    ensures untried { IfOk result (λ g. Leaves compiled.now path.old path.new (called compiled.now path.old active.node (goal_items compiled.now path.old active))) }
{
    let goal = passed(alloc, compiled, path, active, proc)?;
    let key = key_of(&path.store, goal);
    let Some(first) = compiled.tables.first(proc, key) else {
        return Ok(Going::Fails);
    };
    let attempt = Attempt {
        goal,
        setting: body_setting(compiled, proc, active.setting.context, active.node),
        rest: active.rest,
    };
    try_from(compiled, path, &attempt, key, first)
}

// The goal as its procedure gets it.
fn passed(
    alloc: Global,
    compiled: &CompiledProgram,
    path: &mut Path,
    active: Active,
    proc: ProcId,
) -> Result<Ref, NoMemory>
    requires compiled { IsCompiled compiled.now }
    requires goal { IsRef (state_of path.old) active.goal }
    requires store { IsStore (state_of path.old) }
    requires seen { IsProcedureOf compiled.now path.old active proc.0 }
    ensures others { path.new ≡ record path.old { store = path.new.store } }
    ensures store { OnOk result (IsStore (state_of path.new)) }
    ensures grows { Grows (state_of path.old) (state_of path.new) }
    ensures next { (state_of path.new).next ≡ (state_of path.old).next }
    ensures place { IfOk result (λ at. IsRef (state_of path.new) at) }
    ensures tree { IfOk result (λ at. tree_at (state_of path.new) at ≡ passed_goal compiled.now (tree_at (state_of path.old) active.goal) active.setting.context.0 proc.0) }
{
    let Some(modes) = compiled.tables.modes(proc) else {
        let _next = path.store.next_var();
        return Ok(active.goal);
    };
    let colon = compiled.constructs.names().colon;
    let context = active.setting.context;
    let goal = qualify(alloc, &mut path.store, active.goal, modes, context, colon)?;
    let _next = path.store.next_var();
    Ok(goal)
}

// Where the bodies of a procedure's clauses run that is called in a context (ISO/IEC 13211-2, 6.1).
fn body_setting(compiled: &CompiledProgram, proc: ProcId, context: NameId, node: usize) -> Setting
    requires { proc.0 < length (linked compiled.now).procedures }
    ensures env { env_of result ≡ body_place (procedure_at (linked compiled.now) proc.0).home context.0 (is_some (procedure_at (linked compiled.now) proc.0).modes) }
    ensures base { result.base ≡ 0 }
    ensures depth { result.depth ≡ node }
{
    let home = compiled.tables.home(proc);
    let caller = if compiled.tables.modes(proc).is_some() {
        context
    } else {
        home
    };
    Setting {
        clause: 0,
        base: 0,
        lookup: home,
        context: home,
        caller,
        depth: node,
    }
}

// The name and the number of arguments of a goal.
fn name_and_arity(store: &Store, goal: Ref) -> (NameId, u8)
    requires place { IsRef store.now.state goal }
    requires named { IsNamed (root (tree_at store.now.state goal)) }
    ensures { goal_indicator (tree_at store.now.state goal) ≡ Some (record { name = result.0.0; arity = result.1 }) }
{
    match store.view(goal) {
        View::Comp(name, arity) => (name, arity),
        View::Name(name) => (name, 0),
        _ => unreachable!(),
    }
}

/// Tries clauses from one on, until one is taken. A record is opened where another one is left that may be taken.
pub fn try_clauses(
    compiled: &CompiledProgram,
    path: &mut Path,
    attempt: Attempt,
    first: ClauseId,
) -> Result<Going, NoMemory>
    requires compiled { IsCompiled compiled.now }
    requires trying { IsTrying compiled.now path.old attempt first.0 }
    ensures moved { IfOk result (λ g. Moved compiled.now path.old path.new (tried compiled.now path.old attempt first.0) g) }
    ensures gone { IfOk result (λ g. g ≡ Fails → path.new.choices ≡ path.old.choices) }
    ensures untried { IfOk result (λ g. TriesLeave compiled.now path.old path.new attempt first.0) }
{
    let key = key_of(&path.store, attempt.goal);
    try_from(compiled, path, &attempt, key, first)
}

// As `try_clauses`, with what is known of the goal's first argument.
fn try_from(
    compiled: &CompiledProgram,
    path: &mut Path,
    attempt: &Attempt,
    key: Key,
    first: ClauseId,
) -> Result<Going, NoMemory>
    requires compiled { IsCompiled compiled.now }
    requires trying { IsTrying compiled.now path.old attempt.now first.0 }
    requires key { key_view key ≡ goal_key (tree_at (state_of path.old) attempt.now.goal) }
    ensures moved { IfOk result (λ g. Moved compiled.now path.old path.new (tried compiled.now path.old attempt.now first.0) g) }
    ensures gone { IfOk result (λ g. g ≡ Fails → path.new.choices ≡ path.old.choices) }
    ensures untried { IfOk result (λ g. TriesLeave compiled.now path.old path.new attempt.now first.0) }
{
    let mut clause = first;
    loop {
        match try_clause(compiled, path, attempt, key, clause)? {
            Tried::Taken => return Ok(Going::On),
            Tried::Gone => return Ok(Going::Fails),
            Tried::Next(next) => clause = next,
        }
    }
}

// Tries a clause. A record is opened where another one is left that may be taken.
fn try_clause(
    compiled: &CompiledProgram,
    path: &mut Path,
    attempt: &Attempt,
    key: Key,
    clause: ClauseId,
) -> Result<Tried, NoMemory>
    requires compiled { IsCompiled compiled.now }
    requires trying { IsTrying compiled.now path.old attempt.now clause.0 }
    requires key { key_view key ≡ goal_key (tree_at (state_of path.old) attempt.now.goal) }
    ensures moved { IfOk result (λ t. WasTried compiled.now path.old path.new attempt.now clause.0 t) }
    ensures untried { IfOk result (λ t. TriedLeaves compiled.now path.old path.new attempt.now clause.0 t) }
{
    match compiled.tables.next(clause, key) {
        None => try_last(compiled, path, attempt, clause),
        Some(next) => try_one(compiled, path, attempt, clause, next),
    }
}

// Tries the last clause that may be taken.
fn try_last(
    compiled: &CompiledProgram,
    path: &mut Path,
    attempt: &Attempt,
    clause: ClauseId,
) -> Result<Tried, NoMemory>
    requires compiled { IsCompiled compiled.now }
    requires trying { IsTrying compiled.now path.old attempt.now clause.0 }
    requires last { NothingFits compiled.now path.old attempt.now clause.0 }
    ensures moved { IfOk result (λ t. WasTried compiled.now path.old path.new attempt.now clause.0 t) }
    ensures untried { IfOk result (λ t. TriedLeaves compiled.now path.old path.new attempt.now clause.0 t) }
{
    let base = path.store.next_var();
    if !try_clause_head(compiled, path, attempt.goal, clause)? {
        return Ok(Tried::Gone);
    }
    take(compiled, path, attempt, clause, base)?;
    Ok(Tried::Taken)
}

// Tries a clause, with another one left that may be taken.
fn try_one(
    compiled: &CompiledProgram,
    path: &mut Path,
    attempt: &Attempt,
    clause: ClauseId,
    next: ClauseId,
) -> Result<Tried, NoMemory>
    requires compiled { IsCompiled compiled.now }
    requires trying { IsTrying compiled.now path.old attempt.now clause.0 }
    requires next { FitsNext compiled.now path.old attempt.now clause.0 next.0 }
    ensures moved { IfOk result (λ t. WasTried compiled.now path.old path.new attempt.now clause.0 t) }
    ensures untried { IfOk result (λ t. TriedLeaves compiled.now path.old path.new attempt.now clause.0 t) }
{
    let base = path.store.next_var();
    let mark = path.store.mark();
    if !try_clause_head(compiled, path, attempt.goal, clause)? {
        path.store.undo(&mark);
        return Ok(Tried::Next(next));
    }
    let kind = ChoiceKind::Clauses {
        clause: next,
        goal: attempt.goal,
    };
    path.open_record(
        kind,
        mark,
        attempt.rest.f,
        attempt.rest.pc,
        attempt.setting,
        attempt.setting.depth,
    )?;
    take(compiled, path, attempt, clause, base)?;
    Ok(Tried::Taken)
}

// Unifies the goal with a clause's head.
fn try_clause_head(
    compiled: &CompiledProgram,
    path: &mut Path,
    goal: Ref,
    clause: ClauseId,
) -> Result<bool, NoMemory>
    requires compiled { IsCompiled compiled.now }
    requires store { IsStore (state_of path.old) }
    requires goal { IsRef (state_of path.old) goal }
    requires fits { IsGoalOf (linked compiled.now) clause.0 (tree_at (state_of path.old) goal) }
    ensures others { path.new ≡ record path.old { store = path.new.store } }
    ensures store { OnOk result (IsStore (state_of path.new)) }
    ensures extends { Extends (state_of path.old) (state_of path.new) }
    ensures yes { IfOk result (λ yes. yes ≡ true → Took (state_of path.old) (state_of path.new) (tree_at (state_of path.old) goal) (clause_at (linked compiled.now) clause.0).clause.head (clause_at (linked compiled.now) clause.0).clause.width) }
    ensures no { IfOk result (λ yes. yes ≡ false → mgu ((tree_at (state_of path.old) goal, raise_by (state_of path.old).next (clause_at (linked compiled.now) clause.0).clause.head) ∷ []) ≡ Nothing) }
{
    see_head(compiled, clause);
    let code = compiled.codes.get(clause);
    let taken = try_head(&mut path.store, goal, &code.head)?;
    let _next = path.store.next_var();
    Ok(taken)
}

// Shows that the head of a clause has arguments where it is a compound, as each term has.
fn see_head(compiled: &CompiledProgram, clause: ClauseId)
    requires clause { clause.0 < length (linked compiled.now).clauses }
    ensures { IsProper (clause_at (linked compiled.now) clause.0).clause.head }
{
    let (_, head, _) = compiled.tables.clause(clause);
    let _cells = head.cells();
}

// Goes on with the body of a clause whose head was unified, with its variables numbered from `base` on.
fn take(
    compiled: &CompiledProgram,
    path: &mut Path,
    attempt: &Attempt,
    clause: ClauseId,
    base: usize,
) -> Result<(), NoMemory>
    requires clause { clause.0 < length compiled.now.codes }
    requires rest { attempt.now.rest.f ≤ length path.old.frames }
    requires floor { floor_of (reverse path.old.choices.items) ≤ length path.old.frames }
    requires base { base ≤ (state_of path.old).next }
    ensures { OnOk result (Entered compiled.now path.old path.new attempt.now.rest (here path.new) (body_rest compiled.now path.old attempt.now clause.0 base)) }
{
    let setting = Setting {
        clause: clause.0,
        base,
        lookup: attempt.setting.lookup,
        context: attempt.setting.context,
        caller: attempt.setting.caller,
        depth: attempt.setting.depth,
    };
    let start = compiled.codes.get(clause).goals.start();
    enter_body(path, start, setting, attempt.rest)
}

// What is known of a goal's first argument.
fn key_of(store: &Store, goal: Ref) -> Key
    requires { IsRef store.now.state goal }
    ensures { key_view result ≡ goal_key (tree_at store.now.state goal) }
{
    match store.view(goal) {
        View::Comp(_, arity) if arity > 0 => key_of_argument(store, store.arg(goal, 0)),
        _ => Key::Any,
    }
}

// What is known of an argument.
fn key_of_argument(store: &Store, argument: Ref) -> Key
    requires { IsRef store.now.state argument }
    ensures { key_view result ≡ argument_key (tree_at store.now.state argument) }
{
    match store.view(argument) {
        View::Var(_) => Key::Any,
        View::Int(value) => Key::Int(value),
        View::Name(name) => Key::Name(name),
        View::Comp(name, arity) => Key::Comp(name, arity),
    }
}
