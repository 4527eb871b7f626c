//! Terms from a name and arguments, and back (ISO/IEC 13211-1, 8.5.3).
ghost use Rattle.std.specs.Prelude.{◌≡◌, ◌<◌, ◌∷◌, length, map, IfOk, OnErr};
ghost use Rattle.pl_atoms.specs.Names.{IsFront};
ghost use Rattle.pl_terms.specs.Trees.{atom};
ghost use Rattle.pl_unify.specs.Making.{AreRefs};
ghost use Rattle.pl_unify.specs.Shape.{arity};
ghost use Rattle.pl_unify.specs.State.{tree_at, IsRef, Grows, Extends};
ghost use Rattle.builtin_model.specs.Naming.{by_numbers};
ghost use Rattle.builtin_model.specs.Lists.{listing, proper, listed};
ghost use Rattle.builtin_model.specs.Deeds.{univ_deed, made_by_list};
ghost use Rattle.pl_builtin_ends.specs.Meets.{Meets, Answers};
ghost use Rattle.pl_builtin_ends.specs.Made.{HasNames};
ghost use Rattle.pl_builtin_terms.specs.Walk.{arguments_of};
ghost use Rattle.pl_builtin_terms.specs.Items.{list_from};

use crate::items::{ListKind, ListNames, list_cell, list_items, list_names, list_of};
use builtin_model::{Domain, Expected};
use pl_atoms::{NameId, Names, NoMemory};
use pl_builtin_ends::{Done, Raised, settle, unify};
use pl_unify::{Ref, Store, View};
use std::alloc::Global;

/// Unifies a term with the term of the name and arguments of a list, or a list with those of a term: `=..`
/// (ISO/IEC 13211-1, 8.5.3). Names that lists are made of may be put into the table.
pub fn univ(
    alloc: Global,
    store: &mut Store,
    names: &mut Names,
    term: Ref,
    list: Ref,
) -> Result<Done, NoMemory>
    requires places { IsRef store.old.state term × IsRef store.old.state list }
    ensures done { IfOk result (λ done. Meets store.old.state store.new.state (univ_deed (by_numbers names.new) (tree_at store.old.state term) (tree_at store.old.state list)) done) }
    ensures memory { OnErr result (store.new.state ≡ store.old.state) }
    ensures front { IsFront names.old names.new }
    ensures kept { HasNames names.old → names.new ≡ names.old }
{
    let mark = store.mark();
    let ended = unify_parts(alloc, store, names, term, list);
    settle(store, &mark, ended)
}

// As `univ`, but what was made is still there.
fn unify_parts(
    alloc: Global,
    store: &mut Store,
    names: &mut Names,
    term: Ref,
    list: Ref,
) -> Result<Done, NoMemory>
    requires places { IsRef store.old.state term × IsRef store.old.state list }
    ensures done { IfOk result (λ done. Answers store.old.state store.new.state (univ_deed (by_numbers names.new) (tree_at store.old.state term) (tree_at store.old.state list)) done) }
    ensures extends { Extends store.old.state store.new.state }
    ensures front { IsFront names.old names.new }
    ensures kept { HasNames names.old → names.new ≡ names.old }
{
    match store.view(term) {
        View::Var(_) => unify_made(alloc, store, names, term, list),
        View::Comp(name, arity) => {
            let symbols = list_names(names)?;
            let parts = parts_of(store, symbols, term, name, arity)?;
            unify(store, list, parts)
        }
        _ => {
            let symbols = list_names(names)?;
            let parts = list_of(store, symbols, &[term])?;
            unify(store, list, parts)
        }
    }
}

// The list of the name and the arguments of a compound.
fn parts_of(
    store: &mut Store,
    symbols: ListNames,
    term: Ref,
    name: NameId,
    count: u8,
) -> Result<Ref, NoMemory>
    requires place { IsRef store.old.state term }
    requires count { count ≡ arity (tree_at store.old.state term) }
    ensures grows { Grows store.old.state store.new.state }
    ensures next { store.new.state.next ≡ store.old.state.next }
    ensures place { IfOk result (λ parts. IsRef store.new.state parts) }
    ensures tree { IfOk result (λ parts. tree_at store.new.state parts ≡ list_from symbols.nil.0 symbols.dot.0 (atom name.0 ∷ listed (arguments_of (tree_at store.old.state term)))) }
{
    let first = store.place_of_name(name)?;
    let mut parts = store.place_of_name(symbols.nil)?;
    let mut left = count;
    while left > 0 {
        left -= 1;
        let argument = store.arg(term, left);
        parts = list_cell(store, symbols, argument, parts)?;
    }
    list_cell(store, symbols, first, parts)
}

// Unifies a variable with the term of the name and arguments of a list.
fn unify_made(
    alloc: Global,
    store: &mut Store,
    names: &Names,
    term: Ref,
    list: Ref,
) -> Result<Done, NoMemory>
    requires places { IsRef store.old.state term × IsRef store.old.state list }
    ensures done { IfOk result (λ done. Answers store.old.state store.new.state (made_by_list (tree_at store.old.state term) (tree_at store.old.state list) (listing (by_numbers names.now) (tree_at store.old.state list))) done) }
    ensures extends { Extends store.old.state store.new.state }
{
    let mut items = Vec::new(alloc);
    match list_items(store, names, list, &mut items)? {
        ListKind::Proper => unify_items(store, term, list, &items),
        ListKind::Partial => Ok(Done::Raise(Raised::Instantiation)),
        ListKind::Improper => Ok(Done::Raise(Raised::Type(Expected::List, list))),
    }
}

// Unifies a variable with the term of the name and arguments that are the items of a list.
fn unify_items(store: &mut Store, term: Ref, list: Ref, items: &[Ref]) -> Result<Done, NoMemory>
    requires places { IsRef store.old.state term × IsRef store.old.state list × AreRefs store.old.state items.now }
    ensures done { IfOk result (λ done. Answers store.old.state store.new.state (made_by_list (tree_at store.old.state term) (tree_at store.old.state list) (proper (map (tree_at store.old.state) items.now))) done) }
    ensures extends { Extends store.old.state store.new.state }
{
    if items.len() == 0 {
        return Ok(Done::Raise(Raised::Domain(Domain::NonEmptyList, list)));
    }
    match store.view(items[0]) {
        View::Var(_) => Ok(Done::Raise(Raised::Instantiation)),
        View::Comp(_, _) => Ok(Done::Raise(Raised::Type(Expected::Atomic, items[0]))),
        View::Int(_) => {
            if items.len() == 1 {
                unify(store, term, items[0])
            } else {
                Ok(Done::Raise(Raised::Type(Expected::Atom, items[0])))
            }
        }
        View::Name(name) => {
            if items.len() == 1 {
                unify(store, term, items[0])
            } else if items.len() > 256 {
                Ok(Done::Raise(Raised::MaxArity))
            } else {
                let made = store.compound(name, &items[1..])?;
                unify(store, term, made)
            }
        }
    }
}
