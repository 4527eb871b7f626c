//! Control constructs whose goals are terms (ISO/IEC 13211-1, 7.8; ISO/IEC 13211-2, 6.4).
ghost use Rattle.std.specs.Prelude.{◌≡◌, ◌+◌, ◌<◌, ◌≤◌, ◌∷◌, ◌++◌, [], ℕ, length, reverse, true, false, Some, Ok, IfOk, OnOk};
ghost use Rattle.pl_unify.specs.State.{tree_at, IsRef};
ghost use Rattle.goal_model.specs.Bodies.{flat, goal_of, called as called_goal};
ghost use Rattle.pl_terms.specs.Trees.{atom};
ghost use Rattle.goal_model.specs.Rows.{name_of, arity_of};
ghost use Rattle.goal_model.specs.Table.{module_of, ball_of};
ghost use Rattle.pl_store.specs.Runs.{program_of};
ghost use Rattle.goal_state.specs.Frames.{env_of};
ghost use Rattle.goal_constructs.specs.Goals.{IsRow, called_term, more_arguments};
ghost use Rattle.goal_constructs.specs.Calling.{IsCalled};
ghost use Rattle.goal_state.specs.Denotation.{linked, naming, state_of, items_here};
ghost use Rattle.goal_state.specs.Well.{IsCompiled, IsWell, floor_of};
ghost use Rattle.goal_constructs.specs.declared.row.GoalRow.TheVariants as GoalRow;
ghost use Rattle.goal_moves.specs.declared.term_control.Named.TheVariants as Named;
ghost use Rattle.goal_moves.specs.Control.{Grew, OpenedHere, IsNamed, no_atom, Runs, committing, condition_items};
ghost use Rattle.goal_moves.specs.Moves.{goal_items, called, IsReady, Moved, Entered, here};
ghost use Rattle.goal_moves.specs.Untried.{Leaves};

use crate::active::{Active, Rest};
use crate::enter::{enter_goals, enter_part};
use crate::going::Going;
use crate::raising::raise;
use goal_constructs::Called;
use goal_state::{ChoiceKind, CompiledProgram, Part, Path, Setting};
use pl_atoms::{NameId, NoMemory};
use pl_unify::{Ref, View};
use std::alloc::Global;

// The setting with another depth to which cuts cut.
pub(crate) fn reaching(setting: Setting, depth: usize) -> Setting
    ensures { result ≡ record setting { depth = depth } }
{
    Setting { depth, ..setting }
}

// Where the goals among the arguments of control constructs run.
pub(crate) fn argument_setting(setting: Setting, depth: usize) -> Setting
    ensures { result ≡ record setting { lookup = setting.context; depth = depth } }
{
    Setting {
        lookup: setting.context,
        depth,
        ..setting
    }
}

// The name and the number of arguments of the construct that a goal is.
pub(crate) fn construct_of(compiled: &CompiledProgram, path: &Path, goal: Ref) -> (NameId, u8)
    requires compiled { IsCompiled compiled.now }
    requires goal { IsRef (state_of path.now) goal }
    ensures name { result.0.0 ≡ name_of (naming compiled.now) (tree_at (state_of path.now) goal) }
    ensures arity { result.1 ≡ arity_of (naming compiled.now) (tree_at (state_of path.now) goal) }
{
    match path.store.view(goal) {
        View::Comp(name, arity) => (name, arity),
        View::Name(name) => (name, 0),
        View::Var(_) => (compiled.constructs.names().call, 1),
        View::Int(_) => (compiled.constructs.names().call, 1),
    }
}

// A term as the construct of the active goal takes it for a goal.
pub(crate) fn taken_for_goal(
    alloc: Global,
    compiled: &CompiledProgram,
    path: &mut Path,
    active: Active,
    term: Ref,
) -> Result<Called, NoMemory>
    requires compiled { IsCompiled compiled.now }
    requires goal { IsRef (state_of path.old) active.goal }
    requires term { IsRef (state_of path.old) term }
    ensures grew { OnOk result (Grew path.old path.new) }
    ensures goal { IfOk result (λ r. IsCalled (state_of path.new) (goal_of (naming compiled.now) (tree_at (state_of path.old) term) (name_of (naming compiled.now) (tree_at (state_of path.old) active.goal)) (arity_of (naming compiled.now) (tree_at (state_of path.old) active.goal))) r) }
{
    let (name, arity) = construct_of(compiled, path, active.goal);
    let called = compiled
        .constructs
        .goal_of(alloc, &mut path.store, term, name, arity)?;
    let _next = path.store.next_var();
    Ok(called)
}

// The active goal as the goal that it calls, with the arguments that it adds.
fn taken_for_call(
    alloc: Global,
    compiled: &CompiledProgram,
    path: &mut Path,
    active: Active,
) -> Result<Called, NoMemory>
    requires compiled { IsCompiled compiled.now }
    requires goal { IsRef (state_of path.old) active.goal }
    ensures grew { OnOk result (Grew path.old path.new) }
    ensures goal { IfOk result (λ r. IsCalled (state_of path.new) (called_goal (naming compiled.now) (called_term (tree_at (state_of path.old) active.goal)) (more_arguments (tree_at (state_of path.old) active.goal)) (name_of (naming compiled.now) (tree_at (state_of path.old) active.goal)) (arity_of (naming compiled.now) (tree_at (state_of path.old) active.goal))) r) }
{
    let (name, arity) = construct_of(compiled, path, active.goal);
    let constructs = &compiled.constructs;
    let taken = constructs.called(alloc, &mut path.store, active.goal, name, arity)?;
    let _next = path.store.next_var();
    Ok(taken)
}

// Opens a record that goes back to the state as it is, with a frame that goes on at a place.
pub(crate) fn open_here(
    path: &mut Path,
    kind: ChoiceKind,
    at: Rest,
    setting: Setting,
    node: usize,
) -> Result<(), NoMemory>
    requires place { at.f ≤ length path.old.frames }
    requires floor { floor_of (reverse path.old.choices.items) ≤ length path.old.frames }
    ensures { OnOk result (OpenedHere path.old path.new kind at.f at.pc setting node) }
{
    let mark = path.store.mark();
    path.open_record(kind, mark, at.f, at.pc, setting, node)
}

// Where a path stands.
fn stand_of(path: &Path) -> Rest
    ensures { result ≡ here path.now }
{
    Rest {
        f: path.f,
        pc: path.pc,
    }
}

// Enters a condition, then a cut of its alternatives and the goals behind the arrow, and then what follows.
fn enter_condition(
    alloc: Global,
    compiled: &CompiledProgram,
    path: &mut Path,
    active: Active,
    condition: Ref,
    then: Ref,
) -> Result<(), NoMemory>
    requires compiled { IsCompiled compiled.now }
    requires places { IsRef (state_of path.old) condition × IsRef (state_of path.old) then }
    requires depth { path.old.depth ≡ active.node + 1 }
    requires rest { active.rest.f ≤ length path.old.frames }
    requires well { IsWell compiled.now path.old }
    requires base { active.setting.base ≤ (state_of path.old).next }
    ensures { OnOk result (Entered compiled.now path.old path.new active.rest (here path.new) (condition_items compiled.now path.old active condition then (items_here compiled.now path.old active.rest.f active.rest.pc))) }
{
    let inner = reaching(active.setting, path.depth);
    enter_goals(alloc, compiled, path, then, active.setting, active.rest)?;
    let after = stand_of(path);
    let outer = reaching(active.setting, active.node);
    let cut = enter_part(path, Part::Cut, outer, after)?;
    enter_goals(alloc, compiled, path, condition, inner, cut)
}

/// `!` (ISO/IEC 13211-1, 7.8.4).
pub fn commit(compiled: &CompiledProgram, path: &mut Path, active: Active) -> Going
    requires compiled { IsCompiled compiled.now }
    requires ready { IsReady compiled.now path.old active }
    requires row { IsRow (naming compiled.now) (state_of path.old) active.goal GoalRow.Commit }
    ensures moved { Moved compiled.now path.old path.new (called compiled.now path.old active.node (goal_items compiled.now path.old active)) result }
    ensures untried { Leaves compiled.now path.old path.new (called compiled.now path.old active.node (goal_items compiled.now path.old active)) }
{
    let _ = compiled;
    path.cut(active.setting.depth);
    path.f = active.rest.f;
    path.pc = active.rest.pc;
    Going::On
}

/// `C -> T ; E` (ISO/IEC 13211-1, 7.8.8).
pub fn if_then_else(
    alloc: Global,
    compiled: &CompiledProgram,
    path: &mut Path,
    active: Active,
    condition: Ref,
    then: Ref,
    otherwise: Ref,
) -> Result<Going, NoMemory>
    requires compiled { IsCompiled compiled.now }
    requires ready { IsReady compiled.now path.old active }
    requires row { IsRow (naming compiled.now) (state_of path.old) active.goal (GoalRow.IfThenElse condition then otherwise) }
    ensures moved { IfOk result (λ g. Moved compiled.now path.old path.new (called compiled.now path.old active.node (goal_items compiled.now path.old active)) g) }
    ensures untried { IfOk result (λ g. Leaves compiled.now path.old path.new (called compiled.now path.old active.node (goal_items compiled.now path.old active))) }
{
    enter_goals(
        alloc,
        compiled,
        path,
        otherwise,
        active.setting,
        active.rest,
    )?;
    let other = stand_of(path);
    open_here(path, ChoiceKind::Branch, other, active.setting, active.node)?;
    enter_condition(alloc, compiled, path, active, condition, then)?;
    Ok(Going::On)
}

/// `C -> T` (ISO/IEC 13211-1, 7.8.7).
pub fn if_then(
    alloc: Global,
    compiled: &CompiledProgram,
    path: &mut Path,
    active: Active,
    condition: Ref,
    then: Ref,
) -> Result<Going, NoMemory>
    requires compiled { IsCompiled compiled.now }
    requires ready { IsReady compiled.now path.old active }
    requires row { IsRow (naming compiled.now) (state_of path.old) active.goal (GoalRow.IfThen condition then) }
    ensures moved { IfOk result (λ g. Moved compiled.now path.old path.new (called compiled.now path.old active.node (goal_items compiled.now path.old active)) g) }
    ensures untried { IfOk result (λ g. Leaves compiled.now path.old path.new (called compiled.now path.old active.node (goal_items compiled.now path.old active))) }
{
    enter_condition(alloc, compiled, path, active, condition, then)?;
    Ok(Going::On)
}

/// `P ; Q` (ISO/IEC 13211-1, 7.8.6).
pub fn either(
    alloc: Global,
    compiled: &CompiledProgram,
    path: &mut Path,
    active: Active,
    left: Ref,
    right: Ref,
) -> Result<Going, NoMemory>
    requires compiled { IsCompiled compiled.now }
    requires ready { IsReady compiled.now path.old active }
    requires row { IsRow (naming compiled.now) (state_of path.old) active.goal (GoalRow.Either left right) }
    ensures moved { IfOk result (λ g. Moved compiled.now path.old path.new (called compiled.now path.old active.node (goal_items compiled.now path.old active)) g) }
    ensures untried { IfOk result (λ g. Leaves compiled.now path.old path.new (called compiled.now path.old active.node (goal_items compiled.now path.old active))) }
{
    enter_goals(alloc, compiled, path, right, active.setting, active.rest)?;
    let other = stand_of(path);
    open_here(path, ChoiceKind::Branch, other, active.setting, active.node)?;
    enter_goals(alloc, compiled, path, left, active.setting, active.rest)?;
    Ok(Going::On)
}

/// `repeat` (ISO/IEC 13211-1, 8.15.3).
pub fn repeat(
    compiled: &CompiledProgram,
    path: &mut Path,
    active: Active,
) -> Result<Going, NoMemory>
    requires compiled { IsCompiled compiled.now }
    requires ready { IsReady compiled.now path.old active }
    requires row { IsRow (naming compiled.now) (state_of path.old) active.goal GoalRow.Repeat }
    ensures moved { IfOk result (λ g. Moved compiled.now path.old path.new (called compiled.now path.old active.node (goal_items compiled.now path.old active)) g) }
    ensures untried { IfOk result (λ g. Leaves compiled.now path.old path.new (called compiled.now path.old active.node (goal_items compiled.now path.old active))) }
{
    let _ = compiled;
    let again = enter_part(path, Part::Goal(active.goal), active.setting, active.rest)?;
    open_here(path, ChoiceKind::Branch, again, active.setting, active.node)?;
    path.f = active.rest.f;
    path.pc = active.rest.pc;
    Ok(Going::On)
}

// Enters a goal, then a cut of its alternatives, and then what follows.
fn enter_committing(
    alloc: Global,
    compiled: &CompiledProgram,
    path: &mut Path,
    active: Active,
    body: Ref,
    after: Rest,
) -> Result<(), NoMemory>
    requires compiled { IsCompiled compiled.now }
    requires place { IsRef (state_of path.old) body }
    requires depth { path.old.depth ≡ active.node + 1 }
    requires rest { after.f ≤ length path.old.frames }
    requires well { IsWell compiled.now path.old }
    requires base { active.setting.base ≤ (state_of path.old).next }
    ensures { OnOk result (Entered compiled.now path.old path.new after (here path.new) (committing compiled.now path.old active body (items_here compiled.now path.old after.f after.pc))) }
{
    let inner = argument_setting(active.setting, path.depth);
    let outer = reaching(active.setting, active.node);
    let cut = enter_part(path, Part::Cut, outer, after)?;
    enter_goals(alloc, compiled, path, body, inner, cut)
}

/// `\\+ G` (ISO/IEC 13211-1, 8.15.1).
pub fn negation(
    alloc: Global,
    compiled: &CompiledProgram,
    path: &mut Path,
    active: Active,
    goal: Ref,
) -> Result<Going, NoMemory>
    requires compiled { IsCompiled compiled.now }
    requires ready { IsReady compiled.now path.old active }
    requires row { IsRow (naming compiled.now) (state_of path.old) active.goal (GoalRow.Negation goal) }
    ensures moved { IfOk result (λ g. Moved compiled.now path.old path.new (called compiled.now path.old active.node (goal_items compiled.now path.old active)) g) }
    ensures untried { IfOk result (λ g. Leaves compiled.now path.old path.new (called compiled.now path.old active.node (goal_items compiled.now path.old active))) }
{
    let taken = taken_for_goal(alloc, compiled, path, active, goal)?;
    match taken {
        Called::Goal(body) => {
            let kind = ChoiceKind::Branch;
            open_here(path, kind, active.rest, active.setting, active.node)?;
            let fail = enter_part(path, Part::Fail, active.setting, active.rest)?;
            enter_committing(alloc, compiled, path, active, body, fail)?;
            Ok(Going::On)
        }
        Called::Ball(ball) => raise(alloc, compiled, path, ball, active.rest),
    }
}

/// `once(G)` (ISO/IEC 13211-1, 8.15.2).
pub fn once(
    alloc: Global,
    compiled: &CompiledProgram,
    path: &mut Path,
    active: Active,
    goal: Ref,
) -> Result<Going, NoMemory>
    requires compiled { IsCompiled compiled.now }
    requires ready { IsReady compiled.now path.old active }
    requires row { IsRow (naming compiled.now) (state_of path.old) active.goal (GoalRow.Once goal) }
    ensures moved { IfOk result (λ g. Moved compiled.now path.old path.new (called compiled.now path.old active.node (goal_items compiled.now path.old active)) g) }
    ensures untried { IfOk result (λ g. Leaves compiled.now path.old path.new (called compiled.now path.old active.node (goal_items compiled.now path.old active))) }
{
    let taken = taken_for_goal(alloc, compiled, path, active, goal)?;
    match taken {
        Called::Goal(body) => {
            enter_committing(alloc, compiled, path, active, body, active.rest)?;
            Ok(Going::On)
        }
        Called::Ball(ball) => raise(alloc, compiled, path, ball, active.rest),
    }
}

// Runs what a term was taken for in a setting, or throws the ball of its error.
fn run_taken(
    alloc: Global,
    compiled: &CompiledProgram,
    path: &mut Path,
    active: Active,
    taken: Called,
    setting: Setting,
) -> Result<Going, NoMemory>
    requires compiled { IsCompiled compiled.now }
    requires ready { IsReady compiled.now path.old active }
    requires runs { Runs compiled.now path.old active setting taken }
    ensures moved { IfOk result (λ g. Moved compiled.now path.old path.new (called compiled.now path.old active.node (goal_items compiled.now path.old active)) g) }
    ensures untried { IfOk result (λ g. Leaves compiled.now path.old path.new (called compiled.now path.old active.node (goal_items compiled.now path.old active))) }
{
    match taken {
        Called::Goal(body) => {
            enter_goals(alloc, compiled, path, body, setting, active.rest)?;
            Ok(Going::On)
        }
        Called::Ball(ball) => raise(alloc, compiled, path, ball, active.rest),
    }
}

/// `call(G, ..)`, and a variable or an integer that stands for a goal (ISO/IEC 13211-1, 7.8.3).
pub fn calling(
    alloc: Global,
    compiled: &CompiledProgram,
    path: &mut Path,
    active: Active,
) -> Result<Going, NoMemory>
    requires compiled { IsCompiled compiled.now }
    requires ready { IsReady compiled.now path.old active }
    requires row { IsRow (naming compiled.now) (state_of path.old) active.goal GoalRow.Calling }
    ensures moved { IfOk result (λ g. Moved compiled.now path.old path.new (called compiled.now path.old active.node (goal_items compiled.now path.old active)) g) }
    ensures untried { IfOk result (λ g. Leaves compiled.now path.old path.new (called compiled.now path.old active.node (goal_items compiled.now path.old active))) }
{
    let setting = argument_setting(active.setting, path.depth);
    let taken = taken_for_call(alloc, compiled, path, active)?;
    run_taken(alloc, compiled, path, active, taken, setting)
}

// A term as the name of a module, or the ball of its error.
enum Named {
    Module(NameId),
    Ball(Ref),
}

// A term as the name of a module, for the construct of the active goal.
fn module_of(
    compiled: &CompiledProgram,
    path: &mut Path,
    active: Active,
    place: Ref,
) -> Result<Named, NoMemory>
    requires compiled { IsCompiled compiled.now }
    requires goal { IsRef (state_of path.old) active.goal }
    requires place { IsRef (state_of path.old) place }
    ensures grew { OnOk result (Grew path.old path.new) }
    ensures named { IfOk result (λ r. IsNamed (state_of path.new) (module_of (naming compiled.now) (program_of (linked compiled.now)) (tree_at (state_of path.old) place) active.setting.lookup.0 (name_of (naming compiled.now) (tree_at (state_of path.old) active.goal)) (arity_of (naming compiled.now) (tree_at (state_of path.old) active.goal))) r) }
{
    let (name, arity) = construct_of(compiled, path, active.goal);
    let constructs = &compiled.constructs;
    match path.store.view(place) {
        View::Name(home) => module_named(compiled, path, home, active.setting.lookup),
        View::Var(_) => {
            let ball = constructs.uninstantiated(&mut path.store, name, arity)?;
            let _next = path.store.next_var();
            Ok(Named::Ball(ball))
        }
        View::Int(_) => no_atom(compiled, path, place, name, arity),
        View::Comp(_, _) => no_atom(compiled, path, place, name, arity),
    }
}

// The ball of a term that is no atom.
fn no_atom(
    compiled: &CompiledProgram,
    path: &mut Path,
    place: Ref,
    name: NameId,
    arity: u8,
) -> Result<Named, NoMemory>
    requires compiled { IsCompiled compiled.now }
    requires place { IsRef (state_of path.old) place }
    ensures grew { OnOk result (Grew path.old path.new) }
    ensures named { IfOk result (λ r. IsNamed (state_of path.new) (no_atom (naming compiled.now) (tree_at (state_of path.old) place) name.0 arity) r) }
{
    let constructs = &compiled.constructs;
    let ball = constructs.not_an_atom(&mut path.store, place, name, arity)?;
    let _next = path.store.next_var();
    Ok(Named::Ball(ball))
}

// The module of a name, or the ball of its absence.
fn module_named(
    compiled: &CompiledProgram,
    path: &mut Path,
    home: NameId,
    lookup: NameId,
) -> Result<Named, NoMemory>
    requires compiled { IsCompiled compiled.now }
    ensures grew { OnOk result (Grew path.old path.new) }
    ensures named { IfOk result (λ r. (f k : ℕ) → IsNamed (state_of path.new) (module_of (naming compiled.now) (program_of (linked compiled.now)) (atom home.0) lookup.0 f k) r) }
{
    let exists = is_module(compiled, home);
    if exists {
        return same_module(path, home);
    }
    let ball = compiled
        .constructs
        .no_module(&mut path.store, home, lookup)?;
    let _next = path.store.next_var();
    Ok(Named::Ball(ball))
}

// The module of a name, where nothing is added.
fn same_module(path: &mut Path, home: NameId) -> Result<Named, NoMemory>
    ensures grew { Grew path.old path.new }
    ensures named { result ≡ Ok (Named.Module home) }
{
    let _next = path.store.next_var();
    Ok(Named::Module(home))
}

// Whether a name is that of a module.
fn is_module(compiled: &CompiledProgram, name: NameId) -> bool
    requires { IsCompiled compiled.now }
    ensures { result ≡ (program_of (linked compiled.now)).exists name.0 }
{
    if name.0 < compiled.names.len() {
        return compiled.tables.exists(&compiled.names, name);
    }
    false
}

/// `M:G` (ISO/IEC 13211-2, 6.4).
pub fn in_module(
    alloc: Global,
    compiled: &CompiledProgram,
    path: &mut Path,
    active: Active,
    home: Ref,
    goal: Ref,
) -> Result<Going, NoMemory>
    requires compiled { IsCompiled compiled.now }
    requires ready { IsReady compiled.now path.old active }
    requires row { IsRow (naming compiled.now) (state_of path.old) active.goal (GoalRow.InModule home goal) }
    ensures moved { IfOk result (λ g. Moved compiled.now path.old path.new (called compiled.now path.old active.node (goal_items compiled.now path.old active)) g) }
    ensures untried { IfOk result (λ g. Leaves compiled.now path.old path.new (called compiled.now path.old active.node (goal_items compiled.now path.old active))) }
{
    let named = module_of(compiled, path, active, home)?;
    match named {
        Named::Module(home) => {
            let setting = Setting {
                lookup: home,
                context: home,
                depth: path.depth,
                ..active.setting
            };
            let taken = taken_for_goal(alloc, compiled, path, active, goal)?;
            run_taken(alloc, compiled, path, active, taken, setting)
        }
        Named::Ball(ball) => raise(alloc, compiled, path, ball, active.rest),
    }
}

/// `G @ M` (ISO/IEC 13211-2, 6.4).
pub fn from_context(
    alloc: Global,
    compiled: &CompiledProgram,
    path: &mut Path,
    active: Active,
    goal: Ref,
    context: Ref,
) -> Result<Going, NoMemory>
    requires compiled { IsCompiled compiled.now }
    requires ready { IsReady compiled.now path.old active }
    requires row { IsRow (naming compiled.now) (state_of path.old) active.goal (GoalRow.FromContext goal context) }
    ensures moved { IfOk result (λ g. Moved compiled.now path.old path.new (called compiled.now path.old active.node (goal_items compiled.now path.old active)) g) }
    ensures untried { IfOk result (λ g. Leaves compiled.now path.old path.new (called compiled.now path.old active.node (goal_items compiled.now path.old active))) }
{
    let named = module_of(compiled, path, active, context)?;
    match named {
        Named::Module(context) => {
            let setting = Setting {
                context,
                depth: path.depth,
                ..active.setting
            };
            let taken = taken_for_goal(alloc, compiled, path, active, goal)?;
            run_taken(alloc, compiled, path, active, taken, setting)
        }
        Named::Ball(ball) => raise(alloc, compiled, path, ball, active.rest),
    }
}

// What is thrown for the argument of `throw`: the term, or the ball of its error where it is a variable.
fn ball_of(
    compiled: &CompiledProgram,
    path: &mut Path,
    active: Active,
    term: Ref,
) -> Result<Ref, NoMemory>
    requires compiled { IsCompiled compiled.now }
    requires goal { IsRef (state_of path.old) active.goal }
    requires term { IsRef (state_of path.old) term }
    ensures grew { OnOk result (Grew path.old path.new) }
    ensures place { IfOk result (λ at. IsRef (state_of path.new) at) }
    ensures ball { IfOk result (λ at. tree_at (state_of path.new) at ≡ ball_of (naming compiled.now) (tree_at (state_of path.old) term) (name_of (naming compiled.now) (tree_at (state_of path.old) active.goal)) (arity_of (naming compiled.now) (tree_at (state_of path.old) active.goal))) }
{
    match path.store.view(term) {
        View::Var(_) => {
            let (name, arity) = construct_of(compiled, path, active.goal);
            let constructs = &compiled.constructs;
            let ball = constructs.uninstantiated(&mut path.store, name, arity)?;
            let _next = path.store.next_var();
            Ok(ball)
        }
        View::Int(_) => same_ball(path, term),
        View::Name(_) => same_ball(path, term),
        View::Comp(_, _) => same_ball(path, term),
    }
}

// A term that is thrown as it is.
fn same_ball(path: &mut Path, term: Ref) -> Result<Ref, NoMemory>
    requires { IsRef (state_of path.old) term }
    ensures grew { OnOk result (Grew path.old path.new) }
    ensures place { IfOk result (λ at. IsRef (state_of path.new) at) }
    ensures ball { IfOk result (λ at. tree_at (state_of path.new) at ≡ tree_at (state_of path.old) term) }
{
    let _next = path.store.next_var();
    Ok(term)
}

/// `throw(B)` (ISO/IEC 13211-1, 7.8.10).
pub fn throwing(
    alloc: Global,
    compiled: &CompiledProgram,
    path: &mut Path,
    active: Active,
    ball: Ref,
) -> Result<Going, NoMemory>
    requires compiled { IsCompiled compiled.now }
    requires ready { IsReady compiled.now path.old active }
    requires row { IsRow (naming compiled.now) (state_of path.old) active.goal (GoalRow.Throwing ball) }
    ensures moved { IfOk result (λ g. Moved compiled.now path.old path.new (called compiled.now path.old active.node (goal_items compiled.now path.old active)) g) }
    ensures untried { IfOk result (λ g. Leaves compiled.now path.old path.new (called compiled.now path.old active.node (goal_items compiled.now path.old active))) }
{
    let ball = ball_of(compiled, path, active, ball)?;
    raise(alloc, compiled, path, ball, active.rest)
}

/// `catch(G, C, R)` (ISO/IEC 13211-1, 7.8.9).
pub fn catching(
    alloc: Global,
    compiled: &CompiledProgram,
    path: &mut Path,
    active: Active,
    goal: Ref,
    catcher: Ref,
    recovery: Ref,
) -> Result<Going, NoMemory>
    requires compiled { IsCompiled compiled.now }
    requires ready { IsReady compiled.now path.old active }
    requires row { IsRow (naming compiled.now) (state_of path.old) active.goal (GoalRow.Catching goal catcher recovery) }
    ensures moved { IfOk result (λ g. Moved compiled.now path.old path.new (called compiled.now path.old active.node (goal_items compiled.now path.old active)) g) }
    ensures untried { IfOk result (λ g. Leaves compiled.now path.old path.new (called compiled.now path.old active.node (goal_items compiled.now path.old active))) }
{
    let (name, _) = construct_of(compiled, path, active.goal);
    let inner = argument_setting(active.setting, path.depth);
    let taken = taken_for_goal(alloc, compiled, path, active, goal)?;
    let kind = ChoiceKind::Catch {
        name,
        catcher,
        recovery,
    };
    open_here(path, kind, active.rest, inner, active.node)?;
    let outer = reaching(active.setting, active.node);
    let exit = enter_part(path, Part::Exit, outer, active.rest)?;
    match taken {
        Called::Goal(body) => {
            enter_goals(alloc, compiled, path, body, inner, exit)?;
            Ok(Going::On)
        }
        Called::Ball(ball) => raise(alloc, compiled, path, ball, exit),
    }
}
