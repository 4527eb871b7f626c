//! Calls of a store, one after another.
ghost use Rattle.std.specs.Prelude.{◌≡◌, ℕ, [], ◌∷◌, IfOk, OnOk, MatchOption};
ghost use Rattle.pl_terms.specs.Cells.{cells};
ghost use Rattle.pl_unify.specs.State.{IsRef, Extends};
ghost use Rattle.pl_unify.specs.Load.{NewInOrder};

use pl_atoms::{NameId, NoMemory};
use pl_terms::{Cell, Term, TermBuf};
use pl_unify::{Ref, Store, View};
use std::alloc::Global;
use std::test::Fail;

const A: NameId = NameId(0);

const F: NameId = NameId(1);

const G: NameId = NameId(2);

// g(f(V0, V1), f(V1, a))
fn two_pairs(alloc: Global) -> Result<Term, NoMemory>
    ensures { IfOk result (λ t. (n : ℕ) → NewInOrder n n (cells t)) }
{
    let mut cells = TermBuf::new(alloc);
    cells.push(Cell::Comp(G, 2))?;
    cells.push(Cell::Comp(F, 2))?;
    cells.push(Cell::Var(0))?;
    cells.push(Cell::Var(1))?;
    cells.push(Cell::Comp(F, 2))?;
    cells.push(Cell::Var(1))?;
    cells.push(Cell::Name(A))?;
    Ok(cells.end_whole())
}

// g(V0, f(V0))
fn inside(alloc: Global) -> Result<Term, NoMemory>
    ensures { IfOk result (λ t. (n : ℕ) → NewInOrder n n (cells t)) }
{
    let mut cells = TermBuf::new(alloc);
    cells.push(Cell::Comp(G, 2))?;
    cells.push(Cell::Var(0))?;
    cells.push(Cell::Comp(F, 1))?;
    cells.push(Cell::Var(0))?;
    Ok(cells.end_whole())
}

// Whether the two arguments of the term unify.
fn unify_arguments(store: &mut Store, term: &Term) -> Result<Option<(bool, Ref)>, NoMemory>
    requires { (n : ℕ) → NewInOrder n n (cells term.now) }
    ensures { IfOk result (λ made. MatchOption made (Unit {0}) (λ r. IsRef store.new.state r.1)) }
{
    let base = store.next_var();
    let at = store.load(term, base)?;
    match store.view(at) {
        View::Comp(_, 2) => {
            let left = store.arg(at, 0);
            let right = store.arg(at, 1);
            let unified = store.unify(left, right)?;
            Ok(Some((unified, at)))
        }
        _ => Ok(None),
    }
}

#[test]
fn pairs_unify(rt: HostRuntime) -> Result<(), Fail> {
    let term = two_pairs(rt.alloc())?;
    let mut store = Store::new(rt.alloc());
    let (unified, at) = unify_arguments(&mut store, &term)?.ok_or("no compound")?;
    assert!(rt; unified);
    let read = store.copy_out(rt.alloc(), at)?;
    let atom = Cell::Name(A);
    let pair = Cell::Comp(F, 2);
    assert_eq!(rt;
        read.cells(),
        [Cell::Comp(G, 2), pair, atom, atom, pair, atom, atom].as_slice()
    );
    Ok(())
}

#[test]
fn variable_inside(rt: HostRuntime) -> Result<(), Fail> {
    let term = inside(rt.alloc())?;
    let mut store = Store::new(rt.alloc());
    let (unified, at) = unify_arguments(&mut store, &term)?.ok_or("no compound")?;
    assert!(rt; !unified);
    let read = store.copy_out(rt.alloc(), at)?;
    assert_eq!(rt; read.cells(), term.cells());
    Ok(())
}

// f(f(.. V0)), so deep
fn deep(alloc: Global, depth: usize) -> Result<Option<Term>, NoMemory>
    ensures { IfOk result (λ made. MatchOption made (Unit {0}) (λ t. (n : ℕ) → NewInOrder n n (cells t))) }
{
    let mut cells = TermBuf::new(alloc);
    for _ in 0..depth {
        cells.push(Cell::Comp(F, 1))?;
    }
    cells.push(Cell::Var(0))?;
    match cells.end() {
        Ok(term) => Ok(Some(term)),
        Err(_) => Ok(None),
    }
}

#[test]
fn deep_terms_unify(rt: HostRuntime) -> Result<(), Fail> {
    let term = deep(rt.alloc(), 100_000)?.ok_or("no term")?;
    let mut store = Store::new(rt.alloc());
    let base = store.next_var();
    let left = store.load(&term, base)?;
    let base = store.next_var();
    let right = store.load(&term, base)?;
    assert!(rt; store.unify(left, right)?);
    let read = store.copy_out(rt.alloc(), right)?;
    assert_eq!(rt; read.cells(), term.cells());
    Ok(())
}

// One more step below a place.
fn grow(store: &mut Store, step: &Term, at: Ref) -> Result<Ref, NoMemory>
    requires at { IsRef store.old.state at }
    requires step { (n : ℕ) → NewInOrder n n (cells step.now) }
    ensures below { IfOk result (λ r. IsRef store.new.state r) }
    ensures extends { Extends store.old.state store.new.state }
{
    let base = store.next_var();
    let made = store.load(step, base)?;
    store.unify(at, made)?;
    match store.view(made) {
        View::Comp(_, 2) => Ok(store.arg(made, 0)),
        _ => Ok(made),
    }
}

// g(V0, V0)
fn doubled(alloc: Global) -> Result<Term, NoMemory>
    ensures { IfOk result (λ t. (n : ℕ) → NewInOrder n n (cells t)) }
{
    let mut cells = TermBuf::new(alloc);
    cells.push(Cell::Comp(G, 2))?;
    cells.push(Cell::Var(0))?;
    cells.push(Cell::Var(0))?;
    Ok(cells.end_whole())
}

// Whether two places below which so many steps were made unify, and how many cells there are then.
fn chain(alloc: Global, step: &Term, count: usize) -> Result<(bool, usize), NoMemory>
    requires { (n : ℕ) → NewInOrder n n (cells step.now) }
{
    let mut store = Store::new(alloc);
    let x = store.fresh()?;
    let y = store.fresh()?;
    let mut a = x;
    let mut b = y;
    for _ in 0..count {
        a = grow(&mut store, step, a)?;
        b = grow(&mut store, step, b)?;
    }
    let unified = store.unify(x, y)?;
    let read = store.copy_out(alloc, x)?;
    Ok((unified, read.cells().len()))
}

#[test]
fn shared_doublings_unify(rt: HostRuntime) -> Result<(), Fail> {
    let step = doubled(rt.alloc())?;
    let (unified, len) = chain(rt.alloc(), &step, 14)?;
    assert!(rt; unified);
    assert_eq!(rt; len, 32767);
    Ok(())
}

// Whether another variable, and the variable itself, unify with a term that holds the variable, in which each part stands twice, so
// many parts deep.
fn sharing(alloc: Global, depth: usize) -> Result<(bool, bool), NoMemory> {
    let mut store = Store::new(alloc);
    let x = store.fresh()?;
    let y = store.fresh()?;
    let mut at = x;
    for _ in 0..depth {
        at = store.compound(G, &[at, at])?;
    }
    let other = store.unify(y, at)?;
    let inside = store.unify(x, at)?;
    Ok((other, inside))
}

#[test]
fn shared_parts_are_walked_once(rt: HostRuntime) -> Result<(), Fail> {
    let (other, inside) = sharing(rt.alloc(), 100)?;
    assert!(rt; other);
    assert!(rt; !inside);
    Ok(())
}
