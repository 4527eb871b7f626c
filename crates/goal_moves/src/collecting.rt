//! Nested searches that collect their answers (ISO/IEC 13211-1, 8.10.1).
ghost use Rattle.std.specs.Prelude.{◌≡◌, ◌+◌, ◌<◌, ◌≤◌, ◌∷◌, ◌++◌, [], ℕ, length, reverse, take, map, true, false, Some, IfOk, OnOk};
ghost use Rattle.pl_terms.specs.Trees.{Tree};
ghost use Rattle.pl_terms.specs.Occurrence.{canon};
ghost use Rattle.pl_unify.specs.State.{state_at, tree_at, IsRef, Grows};
ghost use Rattle.solver_model.specs.Search.{Call, Cut, Pop, Fail, Over, Failed, pops};
ghost use Rattle.builtin_model.specs.Lists.{list_tree, listing};
ghost use Rattle.goal_model.specs.Bodies.{flat};
ghost use Rattle.goal_model.specs.Table.{copies, copy_from, variable_count, list_fault};
ghost use Rattle.pl_unify.specs.Making.{AreRefs};
ghost use Rattle.goal_code.specs.Continuations.{items_from};
ghost use Rattle.goal_state.specs.Frames.{env_of, part_item, running};
ghost use Rattle.goal_constructs.specs.Goals.{IsRow};
ghost use Rattle.goal_constructs.specs.Balls.{IsFault};
ghost use Rattle.goal_model.specs.Rows.{name_of, arity_of};
ghost use Rattle.goal_moves.specs.Control.{Grew};
ghost use Rattle.goal_state.specs.Denotation.{linked, naming, bodies, state_of, items_here, search_at, answers_of, outer_of, outer_answers, first};
ghost use Rattle.goal_state.specs.Well.{IsCompiled, IsWell, IsWellWith, floor_of};
ghost use Rattle.goal_constructs.specs.declared.row.GoalRow.TheVariants as GoalRow;
ghost use Rattle.goal_state.specs.declared.choice.ChoiceKind.TheVariants as ChoiceKind;
ghost use Rattle.pl_unify.specs.declared.word.Ref.{Ref as Place};
ghost use Rattle.std.specs.Prelude.{Option};
ghost use Rattle.goal_moves.specs.declared.going.Going.TheVariants.{Fails};
ghost use Rattle.goal_moves.specs.Moves.{answering, goal_items, called, thrown, tried, resumed, IsReady, IsTrying, Moved, Entered, here, IsCode, Activated};
ghost use Rattle.goal_moves.specs.Untried.{Leaves};

use crate::active::{Active, Rest};
use crate::enter::enter_goals;
use crate::going::Going;
use crate::raising::raise;
use crate::term_control::{argument_setting, construct_of, open_here, taken_for_goal};
use goal_constructs::Called;
use goal_state::{Choice, ChoiceKind, CompiledProgram, Path};
use pl_atoms::NoMemory;
use pl_builtin_terms::numbered;
use pl_terms::Term;
use pl_unify::{Ref, Store};
use std::alloc::Global;

/// `findall(X, G, Z)` (ISO/IEC 13211-1, 8.10.1).
pub fn collecting(
    alloc: Global,
    compiled: &CompiledProgram,
    path: &mut Path,
    active: Active,
    template: Ref,
    goal: Ref,
    list: Ref,
) -> Result<Going, NoMemory>
    requires compiled { IsCompiled compiled.now }
    requires ready { IsReady compiled.now path.old active }
    requires row { IsRow (naming compiled.now) (state_of path.old) active.goal (GoalRow.Collecting template goal list) }
    ensures moved { IfOk result (λ g. Moved compiled.now path.old path.new (called compiled.now path.old active.node (goal_items compiled.now path.old active)) g) }
    ensures untried { IfOk result (λ g. Leaves compiled.now path.old path.new (called compiled.now path.old active.node (goal_items compiled.now path.old active))) }
{
    if let Some(ball) = list_fault(compiled, path, active, list)? {
        return raise(alloc, compiled, path, ball, active.rest);
    }
    let inner = argument_setting(active.setting, path.depth);
    let taken = taken_for_goal(alloc, compiled, path, active, goal)?;
    match taken {
        Called::Goal(body) => {
            let outer = path.template;
            let kind = ChoiceKind::Collect { list, outer };
            open_here(path, kind, active.rest, active.setting, active.node)?;
            push(&mut path.gathered, Vec::new(alloc))?;
            path.template = Some(template);
            enter_goals(alloc, compiled, path, body, inner, Rest { f: 0, pc: 0 })?;
            Ok(Going::On)
        }
        Called::Ball(ball) => raise(alloc, compiled, path, ball, active.rest),
    }
}

// The ball of a term that can become no list, for the construct of the active goal.
fn list_fault(
    compiled: &CompiledProgram,
    path: &mut Path,
    active: Active,
    list: Ref,
) -> Result<Option<Ref>, NoMemory>
    requires compiled { IsCompiled compiled.now }
    requires goal { IsRef (state_of path.old) active.goal }
    requires list { IsRef (state_of path.old) list }
    ensures grew { OnOk result (Grew path.old path.new) }
    ensures ball { IfOk result (λ r. IsFault (state_of path.new) (list_fault (naming compiled.now) (listing (naming compiled.now) (tree_at (state_of path.old) list)) (tree_at (state_of path.old) list) (name_of (naming compiled.now) (tree_at (state_of path.old) active.goal)) (arity_of (naming compiled.now) (tree_at (state_of path.old) active.goal))) (tree_at (state_of path.old) list) r) }
{
    let (name, arity) = construct_of(compiled, path, active.goal);
    let constructs = &compiled.constructs;
    let fault = constructs.list_ball(&mut path.store, list, name, arity)?;
    let _next = path.store.next_var();
    Ok(fault)
}

/// Goes on after a nested search that has no more answers: its record was taken off, and `list` is where its answers go.
pub fn gather(
    alloc: Global,
    compiled: &CompiledProgram,
    path: &mut Path,
    choice: Choice,
    list: Ref,
) -> Result<Going, NoMemory>
    requires compiled { IsCompiled compiled.now }
    requires well { (d : ℕ) × IsWellWith compiled.now path.old (choice ∷ reverse path.old.choices.items) d }
    requires kind { (outer : Option Place) × (choice.kind ≡ ChoiceKind.Collect list outer) }
    requires depth { choice.depth + 1 ≤ path.old.depth }
    ensures moved { IfOk result (λ g. Moved compiled.now path.old path.new (resumed compiled.now path.old choice (Over Failed)) g) }
    ensures gone { IfOk result (λ g. g ≡ Fails → path.new.choices ≡ path.old.choices) }
{
    let answers = leave_search(compiled, path, choice);
    let found = list_of(alloc, compiled, &mut path.store, answers.as_slice())?;
    let _before = path.store.next_var();
    let unified = path.store.unify(found, list)?;
    let _after = path.store.next_var();
    if !unified {
        return Ok(Going::Fails);
    }
    let (f, pc) = path.frames.after(choice.rest, 0);
    path.f = f;
    path.pc = pc;
    path.depth = choice.depth + 1;
    Ok(Going::On)
}

// Goes back to the record of a nested search, and gives its answers.
fn leave_search(compiled: &CompiledProgram, path: &mut Path, choice: Choice) -> Vec<Term>
    requires well { (d : ℕ) × IsWellWith compiled.now path.old (choice ∷ reverse path.old.choices.items) d }
    requires kind { (list : Place) × (outer : Option Place) × (choice.kind ≡ ChoiceKind.Collect list outer) }
    ensures state { state_of path.new ≡ state_at choice.mark (state_of path.old) }
    ensures frames { path.new.frames ≡ take choice.rest path.old.frames }
    ensures template { path.new.template ≡ outer_of choice.kind path.old.template }
    ensures gathered { answers_of path.new ≡ outer_answers choice.kind (answers_of path.old) }
    ensures answers { result.items ≡ first (answers_of path.old) }
    ensures others { path.new ≡ record path.old { store = path.new.store; frames = path.new.frames; template = path.new.template; gathered = path.new.gathered } }
{
    let _ = compiled;
    path.go_back(choice);
    let ChoiceKind::Collect { outer, .. } = choice.kind else {
        unreachable!();
    };
    path.template = outer;
    match path.gathered.pop() {
        Some(answers) => answers,
        None => unreachable!(),
    }
}

// The list of terms, each renamed to new variables, one after the other.
fn list_of(
    alloc: Global,
    compiled: &CompiledProgram,
    store: &mut Store,
    terms: &[Term],
) -> Result<Ref, NoMemory>
    requires { IsCompiled compiled.now }
    ensures grows { OnOk result (Grows store.old.state store.new.state) }
    ensures place { IfOk result (λ at. IsRef store.new.state at) }
    ensures tree { IfOk result (λ at. tree_at store.new.state at ≡ list_tree (naming compiled.now) (copies store.old.state.next terms.now).0) }
    ensures next { OnOk result (store.new.state.next ≡ (copies store.old.state.next terms.now).1) }
{
    let places = copies_of(alloc, store, terms)?;
    list_from(compiled, store, &places)
}

// Places of terms, each renamed to new variables, one after the other.
fn copies_of(alloc: Global, store: &mut Store, terms: &[Term]) -> Result<Vec<Ref>, NoMemory>
    ensures grows { OnOk result (Grows store.old.state store.new.state) }
    ensures places { IfOk result (λ places. AreRefs store.new.state places.items) }
    ensures trees { IfOk result (λ places. map (tree_at store.new.state) places.items ≡ (copies store.old.state.next terms.now).0) }
    ensures next { OnOk result (store.new.state.next ≡ (copies store.old.state.next terms.now).1) }
{
    let mut places = Vec::new(alloc);
    for term in terms {
        let place = copy_of(alloc, store, term)?;
        push(&mut places, place)?;
    }
    Ok(places)
}

// The place of a term renamed to new variables.
pub(crate) fn copy_of(alloc: Global, store: &mut Store, term: &Term) -> Result<Ref, NoMemory>
    ensures grows { OnOk result (Grows store.old.state store.new.state) }
    ensures place { IfOk result (λ at. IsRef store.new.state at) }
    ensures tree { IfOk result (λ at. tree_at store.new.state at ≡ copy_from store.old.state.next term.now) }
    ensures next { OnOk result (store.new.state.next ≡ store.old.state.next + variable_count term.now) }
{
    let numbered = numbered(alloc, term)?;
    let next = store.next_var();
    store.load(&numbered, next)
}

// The list of the terms at places.
fn list_from(
    compiled: &CompiledProgram,
    store: &mut Store,
    places: &Vec<Ref>,
) -> Result<Ref, NoMemory>
    requires compiled { IsCompiled compiled.now }
    requires places { AreRefs store.old.state places.now.items }
    ensures grows { OnOk result (Grows store.old.state store.new.state) }
    ensures place { IfOk result (λ at. IsRef store.new.state at) }
    ensures tree { IfOk result (λ at. tree_at store.new.state at ≡ list_tree (naming compiled.now) (map (tree_at store.old.state) places.now.items)) }
    ensures next { OnOk result (store.new.state.next ≡ store.old.state.next) }
{
    let names = compiled.constructs.names();
    let mut list = store.place_of_name(names.nil)?;
    let mut left = places.len();
    while left > 0 {
        left -= 1;
        list = store.compound(names.dot, &[places[left], list])?;
    }
    Ok(list)
}

/// Keeps the answer of a nested search, which collects the term at a place.
pub fn keep_answer(
    alloc: Global,
    compiled: &CompiledProgram,
    path: &mut Path,
    template: Ref,
) -> Result<(), NoMemory>
    requires compiled { IsCompiled compiled.now }
    requires well { IsWell compiled.now path.old }
    requires template { path.old.template ≡ Some template }
    ensures { OnOk result (Moved compiled.now path.old path.new (answering compiled.now path.old) Fails × (path.new.choices ≡ path.old.choices)) }
{
    let answer = path.store.copy_out(alloc, template)?;
    let Some(mut answers) = path.gathered.pop() else {
        unreachable!();
    };
    push(&mut answers, answer)?;
    push(&mut path.gathered, answers)?;
    Ok(())
}

// Puts a value last.
fn push<T: Drop>(list: &mut Vec<T>, value: T) -> Result<(), NoMemory>
    ensures ok { OnOk result (list.new.items ≡ list.old.items ++ value ∷ []) }
{
    match list.push(value) {
        Ok(()) => Ok(()),
        Err(_) => Err(NoMemory),
    }
}
