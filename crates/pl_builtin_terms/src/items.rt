//! Lists as terms of a store (ISO/IEC 13211-1, 6.3.5).
ghost use Rattle.std.specs.Prelude.{◌≡◌, ◌≤◌, [], ◌∷◌, length, map, codes, IfOk, OnOk};
ghost use Rattle.pl_atoms.specs.Names.{IsFront};
ghost use Rattle.pl_terms.specs.Trees.{comp, nil, cons};
ghost use Rattle.pl_unify.specs.Making.{AreRefs};
ghost use Rattle.pl_unify.specs.State.{tree_at, IsRef, Grows};
ghost use Rattle.builtin_model.specs.Naming.{by_numbers, number_in};
ghost use Rattle.builtin_model.specs.Lists.{listing};
ghost use Rattle.pl_builtin_ends.specs.Made.{HasNames};
ghost use Rattle.pl_builtin_terms.specs.Items.{list_from, kind_of_end, is_cell, IsListed};

use pl_atoms::{NameId, Names, NoMemory};
use pl_builtin_ends::{intern, text_of};
use pl_unify::{Ref, Store, View};

// The names that lists are made of.
#[derive(Clone, Copy, Debug)]
pub(crate) struct ListNames {
    // `[]`.
    pub(crate) nil: NameId,
    // `.`.
    pub(crate) dot: NameId,
}

// The names that lists are made of, which are put into the table if they are new.
pub(crate) fn list_names(names: &mut Names) -> Result<ListNames, NoMemory>
    ensures nil { IfOk result (λ symbols. symbols.nil.0 ≡ number_in names.new (codes "[]")) }
    ensures dot { IfOk result (λ symbols. symbols.dot.0 ≡ number_in names.new (codes ".")) }
    ensures front { IsFront names.old names.new }
    ensures kept { HasNames names.old → names.new ≡ names.old }
{
    let nil = intern(names, b"[]")?;
    let dot = intern(names, b".")?;
    Ok(ListNames { nil, dot })
}

// The list of the terms of these places.
pub(crate) fn list_of(store: &mut Store, symbols: ListNames, items: &[Ref]) -> Result<Ref, NoMemory>
    requires { AreRefs store.old.state items.now }
    ensures grows { Grows store.old.state store.new.state }
    ensures next { store.new.state.next ≡ store.old.state.next }
    ensures place { IfOk result (λ list. IsRef store.new.state list) }
    ensures tree { IfOk result (λ list. tree_at store.new.state list ≡ list_from symbols.nil.0 symbols.dot.0 (map (tree_at store.old.state) items.now)) }
{
    let mut list = store.place_of_name(symbols.nil)?;
    let mut left = items.len();
    while left > 0 {
        left -= 1;
        list = list_cell(store, symbols, items[left], list)?;
    }
    Ok(list)
}

// The list of an item and the items of a list.
pub(crate) fn list_cell(
    store: &mut Store,
    symbols: ListNames,
    item: Ref,
    rest: Ref,
) -> Result<Ref, NoMemory>
    requires { IsRef store.old.state item × IsRef store.old.state rest }
    ensures grows { Grows store.old.state store.new.state }
    ensures next { store.new.state.next ≡ store.old.state.next }
    ensures place { IfOk result (λ list. IsRef store.new.state list) }
    ensures tree { IfOk result (λ list. tree_at store.new.state list ≡ comp symbols.dot.0 (cons (tree_at store.old.state item) (cons (tree_at store.old.state rest) nil))) }
{
    store.compound(symbols.dot, &[item, rest])
}

// What kind of list a term is.
#[derive(Clone, Copy, Debug)]
pub(crate) enum ListKind {
    // A list with an end.
    Proper,
    // A list whose end is a variable.
    Partial,
    // No list.
    Improper,
}

// What kind of list a term is. The places of its items are put last, if it has an end.
pub(crate) fn list_items(
    store: &Store,
    names: &Names,
    list: Ref,
    items: &mut Vec<Ref>,
) -> Result<ListKind, NoMemory>
    requires empty { items.old.items ≡ [] }
    requires place { IsRef store.now.state list }
    ensures kind { IfOk result (λ kind. IsListed store.now.state (listing (by_numbers names.now) (tree_at store.now.state list)) items.new.items kind) }
    ensures places { AreRefs store.now.state items.new.items }
{
    let mut rest = list;
    'items: loop {
        match store.view(rest) {
            View::Var(_) => return Ok(ListKind::Partial),
            View::Name(name) => return Ok(kind_of_end(text_of(names, name))),
            View::Int(_) => return Ok(ListKind::Improper),
            View::Comp(name, arity) => {
                if !is_cell(text_of(names, name), arity) {
                    return Ok(ListKind::Improper);
                }
                items.push(store.arg(rest, 0))?;
                rest = store.arg(rest, 1);
            }
        }
    }
}

// Whether a compound is an item in front of the rest of a list.
fn is_cell(name: &[u8], arity: u8) -> bool
    ensures { result ≡ is_cell name.now arity }
{
    arity == 2 && name == b".".as_slice()
}

// An atom at the end of a list.
fn kind_of_end(name: &[u8]) -> ListKind
    ensures { result ≡ kind_of_end name.now }
{
    if name == b"[]".as_slice() {
        ListKind::Proper
    } else {
        ListKind::Improper
    }
}
