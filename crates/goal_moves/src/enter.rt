//! Going on with goals and bodies.
ghost use Rattle.std.specs.Prelude.{◌≡◌, ◌+◌, ◌<◌, ◌≤◌, ◌∷◌, ◌++◌, [], ℕ, length, reverse, true, false, Some, IfOk, OnOk};
ghost use Rattle.pl_terms.specs.Trees.{Tree};
ghost use Rattle.pl_terms.specs.Occurrence.{canon};
ghost use Rattle.pl_unify.specs.State.{tree_at, IsRef};
ghost use Rattle.solver_model.specs.Search.{Call, Cut, Pop, Fail, Over, Failed, pops};
ghost use Rattle.goal_model.specs.Bodies.{flat};
ghost use Rattle.goal_code.specs.Continuations.{items_from};
ghost use Rattle.goal_state.specs.Frames.{env_of, part_item, running};
ghost use Rattle.goal_constructs.specs.Goals.{IsRow};
ghost use Rattle.goal_state.specs.Denotation.{linked, naming, bodies, state_of, items_here, search_at, answers_of};
ghost use Rattle.goal_state.specs.Well.{IsCompiled, IsWell, IsWellWith, floor_of};
ghost use Rattle.goal_state.specs.declared.compiled.CompiledProgram.{CompiledProgram as CompiledOf};
ghost use Rattle.pl_unify.specs.Making.{AreRefs};
ghost use Rattle.goal_moves.specs.Entering.{calls_at};
ghost use Rattle.goal_moves.specs.Moves.{IsOne, goal_items, called, thrown, tried, resumed, IsReady, IsTrying, Moved, Entered, here, IsCode, Activated};

use crate::active::Rest;
use goal_state::{CompiledProgram, Frame, Part, Path, Setting};
use pl_atoms::NoMemory;
use pl_unify::Ref;
use std::alloc::Global;

/// Goes on with the goals of a converted term, in a setting, and then with the rest (ISO/IEC 13211-1, 7.8.5).
pub fn enter_goals(
    alloc: Global,
    compiled: &CompiledProgram,
    path: &mut Path,
    term: Ref,
    setting: Setting,
    rest: Rest,
) -> Result<(), NoMemory>
    requires compiled { IsCompiled compiled.now }
    requires term { IsRef (state_of path.old) term }
    requires rest { rest.f ≤ length path.old.frames }
    requires floor { floor_of (reverse path.old.choices.items) ≤ length path.old.frames }
    requires base { setting.base ≤ (state_of path.old).next }
    ensures { OnOk result (Entered compiled.now path.old path.new rest (here path.new) (flat (naming compiled.now) (tree_at (state_of path.old) term) (env_of setting) setting.depth ++ items_here compiled.now path.old rest.f rest.pc)) }
{
    let mut goals = Vec::new(alloc);
    compiled
        .constructs
        .conjuncts(alloc, &path.store, term, &mut goals)?;
    let at = enter_all(path, &goals, setting, rest)?;
    path.f = at.f;
    path.pc = at.pc;
    Ok(())
}

// Frames that run the goals at these places, the first one next, and then the rest.
fn enter_all(path: &mut Path, goals: &[Ref], setting: Setting, rest: Rest) -> Result<Rest, NoMemory>
    requires goals { AreRefs (state_of path.old) goals.now }
    requires rest { rest.f ≤ length path.old.frames }
    requires floor { floor_of (reverse path.old.choices.items) ≤ length path.old.frames }
    requires base { setting.base ≤ (state_of path.old).next }
    ensures { IfOk result (λ at. (b : CompiledOf) → Entered b path.old path.new rest at (calls_at (state_of path.old) setting goals.now (items_here b path.old rest.f rest.pc))) }
{
    let mut at = rest;
    let mut left = goals.len();
    while left > 0 {
        left -= 1;
        let f = path.put(Frame {
            parent: at.f,
            ppc: at.pc,
            part: Part::Goal(goals[left]),
            setting,
        })?;
        at = Rest { f, pc: 1 };
    }
    Ok(at)
}

/// A frame that runs a goal, a cut, an exit or failure, and then the rest. Its first place is given.
pub fn enter_part(
    path: &mut Path,
    part: Part,
    setting: Setting,
    rest: Rest,
) -> Result<Rest, NoMemory>
    requires part { IsOne (state_of path.old) part }
    requires rest { rest.f ≤ length path.old.frames }
    requires floor { floor_of (reverse path.old.choices.items) ≤ length path.old.frames }
    requires base { setting.base ≤ (state_of path.old).next }
    ensures { IfOk result (λ at. (b : CompiledOf) → Entered b path.old path.new rest at (part_item (bodies b) (state_of path.old) part setting ∷ items_here b path.old rest.f rest.pc)) }
{
    let f = path.put(Frame {
        parent: rest.f,
        ppc: rest.pc,
        part,
        setting,
    })?;
    Ok(Rest { f, pc: 1 })
}

/// Goes on with the body of a clause from a place on, and then with the rest.
pub fn enter_body(
    path: &mut Path,
    start: usize,
    setting: Setting,
    rest: Rest,
) -> Result<(), NoMemory>
    requires rest { rest.f ≤ length path.old.frames }
    requires floor { floor_of (reverse path.old.choices.items) ≤ length path.old.frames }
    requires base { setting.base ≤ (state_of path.old).next }
    ensures { OnOk result ((b : CompiledOf) → Entered b path.old path.new rest (here path.new) (items_from (running (bodies b) (state_of path.old) setting) (items_here b path.old rest.f rest.pc) (items_here b path.old rest.f) start)) }
{
    path.f = rest.f;
    path.pc = rest.pc;
    if start == 0 {
        return Ok(());
    }
    path.f = path.put(Frame {
        parent: rest.f,
        ppc: rest.pc,
        part: Part::Body,
        setting,
    })?;
    path.pc = start;
    Ok(())
}
