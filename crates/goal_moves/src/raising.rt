//! Balls (ISO/IEC 13211-1, 7.8.9 and 7.8.10).
ghost use Rattle.std.specs.Prelude.{◌≡◌, ◌+◌, ◌<◌, ◌≤◌, ◌∷◌, ℕ, length, reverse, true, false, IfOk, MatchBool};
ghost use Rattle.pl_terms.specs.Occurrence.{canon};
ghost use Rattle.pl_unify.specs.State.{State, tree_at, IsRef};
ghost use Rattle.solver_model.specs.Search.{has, pops};
ghost use Rattle.solver_model.specs.Configurations.{Falling};
ghost use Rattle.goal_model.specs.Table.{Items};
ghost use Rattle.goal_code.specs.Continuations.{items_from};
ghost use Rattle.goal_state.specs.Frames.{running, place_get};
ghost use Rattle.goal_constructs.specs.Calling.{IsPlace};
ghost use Rattle.goal_state.specs.Denotation.{language_of, bodies, state_of, items_here, setting_in};
ghost use Rattle.goal_state.specs.Well.{IsCompiled, IsWell, IsWellWith, floor_of};
ghost use Rattle.goal_state.specs.declared.choice.ChoiceKind.TheVariants as Kind;
ghost use Rattle.goal_moves.specs.Moves.{thrown, Moved};
ghost use Rattle.goal_moves.specs.Throwing.{exits_here, Leads, Wends, Hands, Recovers};
ghost use Rattle.goal_moves.specs.Untried.{TakesOff};

use crate::activation::next_of;
use crate::active::Rest;
use crate::collecting::copy_of;
use crate::enter::enter_goals;
use crate::going::Going;
use crate::standing::instruction;
use goal_code::Instruction;
use goal_constructs::Called;
use goal_state::{Choice, ChoiceKind, CompiledProgram, Part, Path, Setting};
use pl_atoms::{NameId, NoMemory};
use pl_builtin_terms::numbered;
use pl_terms::Term;
use pl_unify::Ref;
use std::alloc::Global;

// What a record does with a ball: it takes it, it passes it on, or its recovery is no goal and another ball takes the place of the
// first. A place tells which exits are active further outward.
#[derive(Drop)]
enum Passing {
    Takes,
    Passes(Rest),
    Raises(Term, Rest),
}

// One step outward to the exit of a catch: to a lower frame, over the exit, or no further, as the exit is not active.
#[derive(Clone, Copy, Debug)]
enum Way {
    Down(Rest),
    Exit(Rest),
    Past,
}

/// Throws the term at a place of the store, where the rest would have followed the goal that throws it.
pub fn raise(
    alloc: Global,
    compiled: &CompiledProgram,
    path: &mut Path,
    ball: Ref,
    rest: Rest,
) -> Result<Going, NoMemory>
    requires compiled { IsCompiled compiled.now }
    requires well { IsWell compiled.now path.old }
    requires ball { IsRef (state_of path.old) ball }
    ensures moved { IfOk result (λ g. Moved compiled.now path.old path.new (thrown compiled.now path.old (canon (tree_at (state_of path.old) ball)) (pops (items_here compiled.now path.old rest.f rest.pc))) g) }
    ensures fewer { IfOk result (λ g. TakesOff path.old path.new) }
{
    let copy = path.store.copy_out(alloc, ball)?;
    let term = numbered(alloc, &copy)?;
    throw(alloc, compiled, path, term, rest)
}

// Hands a ball outward, record by record.
fn throw(
    alloc: Global,
    compiled: &CompiledProgram,
    path: &mut Path,
    term: Term,
    rest: Rest,
) -> Result<Going, NoMemory>
    requires compiled { IsCompiled compiled.now }
    requires well { IsWell compiled.now path.old }
    ensures moved { IfOk result (λ g. Moved compiled.now path.old path.new (thrown compiled.now path.old term (exits_here compiled.now path.old rest)) g) }
    ensures fewer { IfOk result (λ g. TakesOff path.old path.new) }
{
    let mut ball = term;
    let mut at = rest;
    while let Some(choice) = path.choices.pop() {
        match pass(alloc, compiled, path, choice, &ball, at)? {
            Passing::Takes => return Ok(Going::On),
            Passing::Passes(next) => at = next,
            Passing::Raises(other, next) => {
                ball = other;
                at = next;
            }
        }
    }
    match Box::new(alloc, ball) {
        Ok(ball) => Ok(Going::Uncaught(ball)),
        Err(_) => Err(NoMemory),
    }
}

// Hands a ball to a record that was taken off.
fn pass(
    alloc: Global,
    compiled: &CompiledProgram,
    path: &mut Path,
    choice: Choice,
    ball: &Term,
    at: Rest,
) -> Result<Passing, NoMemory>
    requires compiled { IsCompiled compiled.now }
    requires well { IsWellWith compiled.now path.old (choice ∷ reverse path.old.choices.items) path.old.depth }
    ensures { IfOk result (λ r. Hands compiled.now path.old path.new choice ball.now at r) }
{
    match choice.kind {
        ChoiceKind::Clauses { .. } => {
            path.depth = choice.depth;
            Ok(Passing::Passes(at))
        }
        ChoiceKind::Branch => {
            path.depth = choice.depth;
            Ok(Passing::Passes(at))
        }
        ChoiceKind::Collect { .. } => {
            path.leave(choice);
            let (f, pc) = path.frames.after(choice.rest, 0);
            path.depth = choice.depth;
            Ok(Passing::Passes(Rest { f, pc }))
        }
        ChoiceKind::Catch {
            name,
            catcher,
            recovery,
        } => {
            let (next, active) = outward(compiled, path, at, choice.depth);
            if active {
                return catch(
                    alloc, compiled, path, choice, ball, at, next, name, catcher, recovery,
                );
            }
            path.depth = choice.depth;
            Ok(Passing::Passes(next))
        }
    }
}

// From a place on, where the exits below a depth begin, and whether the exit of this depth is before it.
fn outward(compiled: &CompiledProgram, path: &Path, from: Rest, depth: usize) -> (Rest, bool)
    requires compiled { IsCompiled compiled.now }
    ensures leads { Leads compiled.now path.now from result.0 depth }
    ensures active { MatchBool result.1 (has (exits_here compiled.now path.now from) depth ≡ true) (Falling (language_of compiled.now) (exits_here compiled.now path.now from) → has (exits_here compiled.now path.now from) depth ≡ false) }
{
    let mut at = from;
    loop {
        match step(compiled, path, at, depth) {
            Way::Down(next) => at = next,
            Way::Exit(next) => return (next, true),
            Way::Past => return (at, false),
        }
    }
}

// One step outward from a place, to the exit of a depth.
fn step(compiled: &CompiledProgram, path: &Path, at: Rest, depth: usize) -> Way
    requires compiled { IsCompiled compiled.now }
    ensures { Wends compiled.now path.now at depth result }
{
    let Some(frame) = path.frames.get(at.f) else {
        return Way::Past;
    };
    let below = Rest {
        f: frame.parent,
        pc: frame.ppc,
    };
    match frame.part {
        Part::Body => {
            let pc = body_end(compiled, frame.setting, at.pc, frame.ppc);
            Way::Down(Rest {
                f: frame.parent,
                pc,
            })
        }
        Part::Exit => {
            if at.pc == 0 || depth < frame.setting.depth {
                Way::Down(below)
            } else if frame.setting.depth == depth {
                Way::Exit(below)
            } else {
                Way::Past
            }
        }
        Part::Goal(_) => Way::Down(below),
        Part::Cut => Way::Down(below),
        Part::Fail => Way::Down(below),
        Part::Link => Way::Down(below),
    }
}

// Where the frame around a body goes on after the body, from a place in the body on: at `after`, or behind a condition.
fn body_end(compiled: &CompiledProgram, setting: Setting, start: usize, after: usize) -> usize
    requires compiled { IsCompiled compiled.now }
    ensures { (s : State) (outer : ℕ → Items ℕ) → pops (items_from (running (bodies compiled.now) s setting) (outer after) outer start) ≡ pops (outer result) }
{
    let mut pc = start;
    loop {
        let Some(found) = instruction(compiled, setting.clause, pc) else {
            return after;
        };
        match found {
            Instruction::EndIf { next } => return next,
            goal => pc = next_of(goal),
        }
    }
}

// Lets a catch that is active for a ball take it: its catcher is unified with a copy of the ball. The frames of what followed a
// catch are below the record of the catch, so that none of them is gone.
fn catch(
    alloc: Global,
    compiled: &CompiledProgram,
    path: &mut Path,
    choice: Choice,
    ball: &Term,
    at: Rest,
    next: Rest,
    name: NameId,
    catcher: Ref,
    recovery: Ref,
) -> Result<Passing, NoMemory>
    requires compiled { IsCompiled compiled.now }
    requires well { IsWellWith compiled.now path.old (choice ∷ reverse path.old.choices.items) path.old.depth }
    requires kind { choice.kind ≡ Kind.Catch name catcher recovery }
    requires leads { Leads compiled.now path.old at next choice.depth }
    requires active { has (exits_here compiled.now path.old at) choice.depth ≡ true }
    ensures { IfOk result (λ r. Hands compiled.now path.old path.new choice ball.now at r) }
{
    path.go_back(choice);
    let copy = copy_of(alloc, &mut path.store, ball)?;
    let _before = path.store.next_var();
    let unified = path.store.unify(copy, catcher)?;
    let _after = path.store.next_var();
    if !unified {
        if choice.rest < next.f {
            return Err(NoMemory);
        }
        path.depth = choice.depth;
        return Ok(Passing::Passes(next));
    }
    let constructs = &compiled.constructs;
    let called = constructs.goal_of(alloc, &mut path.store, recovery, name, 3)?;
    let _next = path.store.next_var();
    recover(alloc, compiled, path, choice, called)
}

// Goes on with the recovery of a catch, or with the ball of its error.
fn recover(
    alloc: Global,
    compiled: &CompiledProgram,
    path: &mut Path,
    choice: Choice,
    called: Called,
) -> Result<Passing, NoMemory>
    requires compiled { IsCompiled compiled.now }
    requires place { IsPlace (state_of path.old) called }
    requires some { 0 < choice.rest × choice.rest ≤ length path.old.frames }
    requires floor { floor_of (reverse path.old.choices.items) ≤ length path.old.frames }
    requires base { (setting_in (place_get (reverse path.old.frames) choice.rest)).base ≤ (state_of path.old).next }
    requires low { choice.depth + 1 ≤ path.old.depth }
    ensures { IfOk result (λ r. Recovers compiled.now path.old path.new choice called r) }
{
    let (f, pc) = path.frames.after(choice.rest, 0);
    let rest = Rest { f, pc };
    match called {
        Called::Goal(goal) => {
            let setting = path.setting_of(choice);
            let _depth = path.depth;
            path.depth = choice.depth + 1;
            let inner = Setting {
                depth: path.depth,
                ..setting
            };
            enter_goals(alloc, compiled, path, goal, inner, rest)?;
            Ok(Passing::Takes)
        }
        Called::Ball(place) => {
            let copy = path.store.copy_out(alloc, place)?;
            let other = numbered(alloc, &copy)?;
            path.depth = choice.depth;
            Ok(Passing::Raises(other, rest))
        }
    }
}
