//! Comparison with an answer (ISO/IEC 13211-1, 8.4.2).
ghost use Rattle.std.specs.Prelude.{◌≡◌, codes, IfOk, OnErr};
ghost use Rattle.pl_atoms.specs.Names.{IsFront};
ghost use Rattle.pl_unify.specs.State.{tree_at, IsRef};
ghost use Rattle.builtin_model.specs.Naming.{by_numbers, number_in};
ghost use Rattle.builtin_model.specs.Deeds.{order, is_order, ordered, compare_deed};
ghost use Rattle.pl_builtin_ends.specs.Made.{HasNames};
ghost use Rattle.pl_builtin_ends.specs.Meets.{Meets};
ghost use Rattle.pl_builtins.specs.Answers.{name_of, AreNamed};

use crate::order::standard_order;
use crate::unification::unify_name;
use builtin_model::{Domain, Expected};
use pl_atoms::{NameId, Names, NoMemory};
use pl_builtin_ends::{Done, Raised, intern, text_of};
use pl_unify::{Ref, Store, View};
use std::alloc::Global;
use std::cmp::Ordering;

// The names of how two terms may stand to each other.
#[derive(Clone, Copy, Debug)]
struct OrderNames {
    // `<`.
    less: NameId,
    // `=`.
    equal: NameId,
    // `>`.
    greater: NameId,
}

// The names of how two terms may stand to each other, which are put into the table if they are new.
fn order_names(names: &mut Names) -> Result<OrderNames, NoMemory>
    ensures less { IfOk result (λ symbols. symbols.less.0 ≡ number_in names.new (codes "<")) }
    ensures equal { IfOk result (λ symbols. symbols.equal.0 ≡ number_in names.new (codes "=")) }
    ensures greater { IfOk result (λ symbols. symbols.greater.0 ≡ number_in names.new (codes ">")) }
    ensures front { IsFront names.old names.new }
    ensures kept { HasNames names.old → names.new ≡ names.old }
{
    let less = intern(names, b"<")?;
    let equal = intern(names, b"=")?;
    let greater = intern(names, b">")?;
    Ok(OrderNames {
        less,
        equal,
        greater,
    })
}

fn name_of(symbols: OrderNames, found: Ordering) -> NameId
    ensures { result ≡ name_of symbols found }
{
    match found {
        Ordering::Less => symbols.less,
        Ordering::Equal => symbols.equal,
        Ordering::Greater => symbols.greater,
    }
}

/// Unifies a term with `<`, `=` or `>`, as two terms stand to each other: `compare`. These names are put into `names`.
pub fn compare(
    alloc: Global,
    store: &mut Store,
    names: &mut Names,
    at: Ref,
    left: Ref,
    right: Ref,
) -> Result<Done, NoMemory>
    requires place { IsRef store.old.state at }
    requires left { IsRef store.old.state left }
    requires right { IsRef store.old.state right }
    ensures done { IfOk result (λ done. Meets store.old.state store.new.state (compare_deed (by_numbers names.new) (tree_at store.old.state at) (order (by_numbers names.new) (tree_at store.old.state left) (tree_at store.old.state right))) done) }
    ensures memory { OnErr result (store.new.state ≡ store.old.state) }
    ensures front { IsFront names.old names.new }
    ensures kept { HasNames names.old → names.new ≡ names.old }
{
    match store.view(at) {
        View::Var(_) => {
            let symbols = order_names(names)?;
            unify_order(alloc, store, names, symbols, at, left, right)
        }
        View::Name(name) => {
            // The names are put in before any is read: a number that the table did not have may be that of a new name.
            let symbols = order_names(names)?;
            if is_order(text_of(names, name)) {
                unify_order(alloc, store, names, symbols, at, left, right)
            } else {
                Ok(Done::Raise(Raised::Domain(Domain::Order, at)))
            }
        }
        _ => Ok(Done::Raise(Raised::Type(Expected::Atom, at))),
    }
}

// Unifies a term with the name of how two terms stand to each other.
fn unify_order(
    alloc: Global,
    store: &mut Store,
    names: &Names,
    symbols: OrderNames,
    at: Ref,
    left: Ref,
    right: Ref,
) -> Result<Done, NoMemory>
    requires places { IsRef store.old.state at × IsRef store.old.state left × IsRef store.old.state right }
    requires names { AreNamed names.now symbols }
    ensures done { IfOk result (λ done. Meets store.old.state store.new.state (ordered (by_numbers names.now) (tree_at store.old.state at) (order (by_numbers names.now) (tree_at store.old.state left) (tree_at store.old.state right))) done) }
    ensures memory { OnErr result (store.new.state ≡ store.old.state) }
{
    let found = standard_order(alloc, store, names, left, right)?;
    unify_name(store, at, name_of(symbols, found))
}

fn is_order(name: &[u8]) -> bool
    ensures { result ≡ is_order name.now }
{
    name == b"<".as_slice() || name == b"=".as_slice() || name == b">".as_slice()
}
