//! The built-in predicates by their rows.
ghost use Rattle.std.specs.Prelude.{◌≡◌, ℕ, ◌++◌, [], ◌∷◌, map, All, IfOk, OnOk, OnErr};
ghost use Rattle.pl_atoms.specs.Names.{IsFront};
ghost use Rattle.pl_ops.specs.Standard.{standard};
ghost use Rattle.pl_ops.specs.Tables.{operator};
ghost use Rattle.pl_unify.specs.State.{State, tree_at, IsRef};
ghost use Rattle.builtin_model.specs.Naming.{Naming, by_numbers};
ghost use Rattle.builtin_model.specs.Deeds.{deed, yes};
ghost use Rattle.builtin_model.specs.Output.{output, written_text};
ghost use Rattle.pl_builtin_ends.specs.Made.{HasNames};
ghost use Rattle.pl_builtin_ends.specs.Meets.{Meets};

use crate::argument::arg;
use crate::comparison::compare;
use crate::control::{calling_context, halt};
use crate::order::test_order;
use crate::output::{new_line, put_char};
use crate::type_test::test_type;
use crate::unification::{not_unifiable, unify};
use crate::value::{compare_values, is};
use builtin_model::Row;
use pl_atoms::{Bytes, NameId, Names, NoMemory};
use pl_builtin_ends::{Done, whether};
use pl_builtin_terms::{copy_term, functor, ground, term_variables, univ, write};
use pl_ops::OpTable;
use pl_unify::{Ref, Store};
use std::alloc::Global;
use text_model::Quote;

/// Does what a built-in predicate does with arguments at places of the store, called from the module `caller`.
///
/// Terms are written with the operators of `table`, which are the standard ones. A name has its text in `names`: the empty text
/// where its number is none of the table. Names that it writes into terms are put into `names` unless they are there, and bytes that it writes are put last in `text`. The store is as before unless the predicate succeeds.
///
/// The only error is want of memory. After it the store and `text` are as before, and `names` may hold more names.
pub fn run(
    alloc: Global,
    store: &mut Store,
    names: &mut Names,
    table: &OpTable,
    row: Row,
    args: &[Ref],
    caller: NameId,
    text: &mut Bytes,
) -> Result<Done, NoMemory>
    requires places { All (λ r. IsRef store.old.state r) args.now }
    requires standard { operator table.now ≡ operator standard }
    ensures done { IfOk result (λ done. Meets store.old.state store.new.state (deed (by_numbers names.new) row (map (tree_at store.old.state) args.now) caller.0 store.old.state.next) done) }
    ensures text { OnOk result (text.new ≡ text.old ++ output (by_numbers names.new) row (map (tree_at store.old.state) args.now)) }
    ensures store { OnErr result (store.new.state ≡ store.old.state) }
    ensures bytes { OnErr result (text.new ≡ text.old) }
    ensures front { IsFront names.old names.new }
    ensures kept { HasNames names.old → names.new ≡ names.old }
{
    match args {
        [] => run_alone(row, text),
        [at] => run_one(alloc, store, names, table, row, *at, caller, text),
        [left, right] => run_two(alloc, store, names, row, *left, *right),
        [first, second, third] => run_three(alloc, store, names, row, *first, *second, *third),
        _ => Ok(Done::No),
    }
}

// A predicate without arguments.
fn run_alone(row: Row, text: &mut Bytes) -> Result<Done, NoMemory>
    ensures done { IfOk result (λ done. (n : Naming ℕ) (s : State) (caller next : ℕ) → Meets s s (deed n row [] caller next) done) }
    ensures text { OnOk result ((n : Naming ℕ) → text.new ≡ text.old ++ output n row []) }
    ensures bytes { OnErr result (text.new ≡ text.old) }
{
    match row {
        Row::NewLine => new_line(text),
        Row::True => Ok(whether(true)),
        Row::Halt => Ok(Done::Halt(0)),
        _ => Ok(Done::No),
    }
}

// A predicate with one argument.
fn run_one(
    alloc: Global,
    store: &mut Store,
    names: &Names,
    table: &OpTable,
    row: Row,
    at: Ref,
    caller: NameId,
    text: &mut Bytes,
) -> Result<Done, NoMemory>
    requires place { IsRef store.old.state at }
    requires standard { operator table.now ≡ operator standard }
    ensures done { IfOk result (λ done. Meets store.old.state store.new.state (deed (by_numbers names.now) row (tree_at store.old.state at ∷ []) caller.0 store.old.state.next) done) }
    ensures text { OnOk result (text.new ≡ text.old ++ output (by_numbers names.now) row (tree_at store.old.state at ∷ [])) }
    ensures store { OnErr result (store.new.state ≡ store.old.state) }
    ensures bytes { OnErr result (text.new ≡ text.old) }
{
    match row {
        Row::Type(test) => Ok(test_type(store, test, at)),
        Row::PutChar => put_char(store, names, at, text),
        Row::CallingContext => calling_context(store, at, caller),
        Row::HaltWith => Ok(halt(store, at)),
        Row::Ground => ground(alloc, store, at),
        Row::Write(quote) => write_term(alloc, store, names, table, quote, at, text),
        _ => Ok(Done::No),
    }
}

// A predicate with two arguments.
fn run_two(
    alloc: Global,
    store: &mut Store,
    names: &mut Names,
    row: Row,
    left: Ref,
    right: Ref,
) -> Result<Done, NoMemory>
    requires left { IsRef store.old.state left }
    requires right { IsRef store.old.state right }
    ensures done { IfOk result (λ done. (caller : ℕ) → Meets store.old.state store.new.state (deed (by_numbers names.new) row (tree_at store.old.state left ∷ tree_at store.old.state right ∷ []) caller store.old.state.next) done) }
    ensures store { OnErr result (store.new.state ≡ store.old.state) }
    ensures front { IsFront names.old names.new }
    ensures kept { HasNames names.old → names.new ≡ names.old }
{
    match row {
        Row::Unify => unify(store, left, right),
        Row::NotUnifiable => not_unifiable(store, left, right),
        Row::Order(test) => test_order(alloc, store, names, test, left, right),
        Row::Is => is(alloc, store, names, left, right),
        Row::Value(relation) => compare_values(alloc, store, names, relation, left, right),
        Row::Univ => univ(alloc, store, names, left, right),
        Row::CopyTerm => copy_term(alloc, store, left, right),
        Row::TermVariables => term_variables(alloc, store, names, left, right),
        _ => Ok(Done::No),
    }
}

// A predicate with three arguments.
fn run_three(
    alloc: Global,
    store: &mut Store,
    names: &mut Names,
    row: Row,
    first: Ref,
    second: Ref,
    third: Ref,
) -> Result<Done, NoMemory>
    requires first { IsRef store.old.state first }
    requires second { IsRef store.old.state second }
    requires third { IsRef store.old.state third }
    ensures done { IfOk result (λ done. (caller : ℕ) → Meets store.old.state store.new.state (deed (by_numbers names.new) row (tree_at store.old.state first ∷ tree_at store.old.state second ∷ tree_at store.old.state third ∷ []) caller store.old.state.next) done) }
    ensures store { OnErr result (store.new.state ≡ store.old.state) }
    ensures front { IsFront names.old names.new }
    ensures kept { HasNames names.old → names.new ≡ names.old }
{
    match row {
        Row::Compare => compare(alloc, store, names, first, second, third),
        Row::Arg => arg(store, first, second, third),
        Row::Functor => functor(alloc, store, first, second, third),
        _ => Ok(Done::No),
    }
}

// Writes a term, and nothing of it where memory is wanting.
fn write_term(
    alloc: Global,
    store: &Store,
    names: &Names,
    table: &OpTable,
    quote: Quote,
    at: Ref,
    text: &mut Bytes,
) -> Result<Done, NoMemory>
    requires place { IsRef store.now.state at }
    requires standard { operator table.now ≡ operator standard }
    ensures done { IfOk result (λ done. Meets store.now.state store.now.state yes done) }
    ensures text { OnOk result (text.new ≡ text.old ++ written_text (by_numbers names.now) quote (tree_at store.now.state at)) }
    ensures bytes { OnErr result (text.new ≡ text.old) }
{
    let mut written = Bytes::new(alloc);
    let done = write(alloc, store, names, table, quote, at, &mut written)?;
    text.extend_from_slice(written.as_slice())?;
    Ok(done)
}
