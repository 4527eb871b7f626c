//! Going back to the newest record.
ghost use Rattle.std.specs.Prelude.{◌≡◌, ◌+◌, ◌<◌, ◌≤◌, ◌∷◌, ◌++◌, [], ℕ, length, reverse, true, false, Some, IfOk, OnOk};
ghost use Rattle.pl_terms.specs.Trees.{Tree};
ghost use Rattle.pl_terms.specs.Occurrence.{canon};
ghost use Rattle.pl_unify.specs.State.{State, tree_at, IsRef};
ghost use Rattle.solver_model.specs.Search.{Call, Cut, Pop, Fail, Over, Failed, pops};
ghost use Rattle.goal_model.specs.Bodies.{flat};
ghost use Rattle.goal_code.specs.Continuations.{items_from};
ghost use Rattle.goal_code.specs.BodyCode.{BodyCode};
ghost use Rattle.goal_state.specs.Frames.{place_get, env_of, items_of, part_item, running};
ghost use Rattle.goal_constructs.specs.Goals.{IsRow};
ghost use Rattle.goal_state.specs.Denotation.{linked, naming, bodies, state_of, items_here, search_at, answers_of, setting_in};
ghost use Rattle.goal_state.specs.Well.{IsCompiled, IsWell, IsWellWith, floor_of};
ghost use Rattle.goal_moves.specs.declared.going.Going.TheVariants.{Fails};
ghost use Rattle.goal_moves.specs.Moves.{goal_items, called, thrown, tried, resumed, IsReady, IsTrying, Moved, Entered, here, IsCode, Activated};

use crate::active::Rest;
use crate::collecting::gather;
use crate::going::Going;
use crate::procedures::{Attempt, try_clauses};
use goal_state::{Choice, ChoiceKind, CompiledProgram, Path, Setting};
use pl_atoms::NoMemory;
use pl_unify::Ref;
use std::alloc::Global;

/// Takes up the newest record with an alternative that leads on. `Fails` where no record is left.
pub fn back(alloc: Global, compiled: &CompiledProgram, path: &mut Path) -> Result<Going, NoMemory>
    requires compiled { IsCompiled compiled.now }
    requires well { IsWell compiled.now path.old }
    ensures moved { IfOk result (λ g. Moved compiled.now path.old path.new (search_at compiled.now path.old (Over Failed)) g) }
    ensures ended { IfOk result (λ g. g ≡ Fails → path.new.choices.items ≡ []) }
{
    while let Some(choice) = path.choices.pop() {
        match retry(alloc, compiled, path, choice)? {
            Going::Fails => {}
            going => return Ok(going),
        }
    }
    Ok(Going::Fails)
}

// Goes on with what a record that was taken off has untried.
fn retry(
    alloc: Global,
    compiled: &CompiledProgram,
    path: &mut Path,
    choice: Choice,
) -> Result<Going, NoMemory>
    requires compiled { IsCompiled compiled.now }
    requires well { IsWellWith compiled.now path.old (choice ∷ reverse path.old.choices.items) path.old.depth }
    ensures moved { IfOk result (λ g. Moved compiled.now path.old path.new (resumed compiled.now path.old choice (Over Failed)) g) }
    ensures gone { IfOk result (λ g. g ≡ Fails → path.new.choices ≡ path.old.choices) }
{
    match choice.kind {
        ChoiceKind::Branch => {
            path.go_back(choice);
            let (f, pc) = path.frames.after(choice.rest, 0);
            path.f = f;
            path.pc = pc;
            path.depth = choice.depth + 1;
            Ok(Going::On)
        }
        ChoiceKind::Clauses { clause, goal } => {
            path.go_back(choice);
            path.depth = choice.depth + 1;
            let attempt = attempt_of(path, choice, goal);
            try_clauses(compiled, path, attempt, clause)
        }
        ChoiceKind::Catch { .. } => Ok(Going::Fails),
        ChoiceKind::Collect { list, .. } => gather(alloc, compiled, path, choice, list),
    }
}

// What the clauses of a record are tried for, where a path went back to it.
fn attempt_of(path: &Path, choice: Choice, goal: Ref) -> Attempt
    requires { 0 < choice.rest × choice.rest ≤ length path.now.frames }
    ensures goal { result.goal ≡ goal }
    ensures depth { result.setting.depth ≡ choice.depth }
    ensures base { result.setting.base ≡ (setting_in (place_get (reverse path.now.frames) choice.rest)).base }
    ensures env { env_of result.setting ≡ env_of (setting_in (place_get (reverse path.now.frames) choice.rest)) }
    ensures rest { (p : ℕ → BodyCode) (s : State) → items_of p s path.now.frames result.rest.f result.rest.pc ≡ items_of p s path.now.frames choice.rest 0 }
    ensures within { result.rest.f ≤ choice.rest }
{
    let setting = path.setting_of(choice);
    let (f, pc) = path.frames.after(choice.rest, 0);
    Attempt {
        goal,
        setting: Setting {
            depth: choice.depth,
            ..setting
        },
        rest: Rest { f, pc },
    }
}
