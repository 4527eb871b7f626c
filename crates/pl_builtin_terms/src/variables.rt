//! The variables of terms of a store.
ghost use Rattle.std.specs.Prelude.{◌≡◌, map, reverse, IfOk, OnOk, OnErr};
ghost use Rattle.pl_atoms.specs.Names.{IsFront};
ghost use Rattle.pl_terms.specs.Trees.{var};
ghost use Rattle.pl_terms.specs.Occurrence.{variables};
ghost use Rattle.pl_unify.specs.Making.{AreRefs};
ghost use Rattle.pl_unify.specs.Shape.{arity};
ghost use Rattle.pl_unify.specs.State.{tree_at, IsRef, Extends};
ghost use Rattle.builtin_model.specs.Naming.{by_numbers};
ghost use Rattle.builtin_model.specs.Lists.{list_tree};
ghost use Rattle.builtin_model.specs.Deeds.{is_ground, whether, unify};
ghost use Rattle.pl_builtin_ends.specs.Meets.{Meets, Answers};
ghost use Rattle.pl_builtin_ends.specs.Made.{HasNames};
ghost use Rattle.pl_builtin_terms.specs.Walk.{IsNext, IsVisit, ArgumentsOn};

use crate::items::{list_names, list_of};
use indexmap::IndexSet;
use pl_atoms::{Names, NoMemory};
use pl_builtin_ends::{Done, settle, unify, whether};
use pl_unify::{Ref, Store, View};
use std::alloc::Global;

/// Whether no variable is in a term: `ground`.
pub fn ground(alloc: Global, store: &Store, term: Ref) -> Result<Done, NoMemory>
    requires { IsRef store.now.state term }
    ensures { IfOk result (λ done. Meets store.now.state store.now.state (whether (is_ground (tree_at store.now.state term))) done) }
{
    let mut work = Vec::new(alloc);
    work.push(term)?;
    let found = next_variable(store, &mut work)?;
    Ok(whether(found.is_none()))
}

/// Unifies a term with the list of the variables of another, in order of first occurrence: `term_variables`. Names that lists are
/// made of may be put into the table.
pub fn term_variables(
    alloc: Global,
    store: &mut Store,
    names: &mut Names,
    term: Ref,
    list: Ref,
) -> Result<Done, NoMemory>
    requires { IsRef store.old.state term × IsRef store.old.state list }
    ensures done { IfOk result (λ done. Meets store.old.state store.new.state (unify (tree_at store.old.state list) (list_tree (by_numbers names.new) (map var (variables (tree_at store.old.state term))))) done) }
    ensures memory { OnErr result (store.new.state ≡ store.old.state) }
    ensures front { IsFront names.old names.new }
    ensures kept { HasNames names.old → names.new ≡ names.old }
{
    let mark = store.mark();
    let ended = unify_variables(alloc, store, names, term, list);
    settle(store, &mark, ended)
}

// As `term_variables`, but what was made is still there.
fn unify_variables(
    alloc: Global,
    store: &mut Store,
    names: &mut Names,
    term: Ref,
    list: Ref,
) -> Result<Done, NoMemory>
    requires { IsRef store.old.state term × IsRef store.old.state list }
    ensures done { IfOk result (λ done. Answers store.old.state store.new.state (unify (tree_at store.old.state list) (list_tree (by_numbers names.new) (map var (variables (tree_at store.old.state term))))) done) }
    ensures extends { Extends store.old.state store.new.state }
    ensures front { IsFront names.old names.new }
    ensures kept { HasNames names.old → names.new ≡ names.old }
{
    let places = variable_places(alloc, store, term)?;
    let symbols = list_names(names)?;
    let made = list_of(store, symbols, &places)?;
    unify(store, list, made)
}

// A place of each variable of a term, in order of first occurrence.
fn variable_places(alloc: Global, store: &Store, term: Ref) -> Result<Vec<Ref>, NoMemory>
    requires { IsRef store.now.state term }
    ensures places { IfOk result (λ places. AreRefs store.now.state places.items) }
    ensures trees { IfOk result (λ places. map (tree_at store.now.state) places.items ≡ map var (variables (tree_at store.now.state term))) }
{
    let mut work = Vec::new(alloc);
    let mut seen = IndexSet::new(alloc);
    let mut places = Vec::new(alloc);
    work.push(term)?;
    'variables: loop {
        match next_variable(store, &mut work)? {
            Some((number, place)) => {
                if seen.insert(number)? {
                    places.push(place)?;
                }
            }
            None => return Ok(places),
        }
    }
}

// The next variable of the terms of some places, of which the last comes first: its number and its place.
fn next_variable(store: &Store, work: &mut Vec<Ref>) -> Result<Option<(usize, Ref)>, NoMemory>
    requires { AreRefs store.now.state (reverse work.old.items) }
    ensures { IfOk result (λ next. IsNext store.now.state (reverse work.old.items) (reverse work.new.items) next) }
{
    'places: while let Some(place) = work.pop() {
        if let Some(number) = visit(store, place, work)? {
            return Ok(Some((number, place)));
        }
    }
    Ok(None)
}

// The number of a variable. The arguments of a compound are put last.
fn visit(store: &Store, place: Ref, work: &mut Vec<Ref>) -> Result<Option<usize>, NoMemory>
    requires { IsRef store.now.state place }
    ensures { IfOk result (λ number. IsVisit store.now.state place (reverse work.old.items) (reverse work.new.items) number) }
{
    match store.view(place) {
        View::Var(number) => Ok(Some(number)),
        View::Comp(_, count) => {
            push_arguments(store, place, count, work)?;
            Ok(None)
        }
        _ => Ok(None),
    }
}

// Puts the arguments of a compound last, so that the first of them comes first.
fn push_arguments(store: &Store, place: Ref, count: u8, work: &mut Vec<Ref>) -> Result<(), NoMemory>
    requires place { IsRef store.now.state place }
    requires count { count ≡ arity (tree_at store.now.state place) }
    ensures { OnOk result (ArgumentsOn store.now.state (tree_at store.now.state place) 0 (reverse work.old.items) (reverse work.new.items)) }
{
    let mut left = count;
    while left > 0 {
        left -= 1;
        work.push(store.arg(place, left))?;
    }
    Ok(())
}
