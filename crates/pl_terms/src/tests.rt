//! Worked terms.
ghost use Rattle.std.specs.Prelude.{◌≡◌, ◌↔◌, length, IsTrue, IfSome};
ghost use Rattle.pl_terms.specs.Cells.{cells, IsCell};
ghost use Rattle.pl_terms.specs.NameBounds.{NamesBelow, NameBelow};

use super::*;
use pl_atoms::{NameId, Names};
use std::alloc::Global;
use std::cmp::Ordering;
use std::test::Fail;

fn is_cell(cell: Cell) -> bool
    ensures { IsTrue result ↔ IsCell cell }
{
    match cell {
        Cell::Comp(_, arity) => arity > 0,
        _ => true,
    }
}

/// The term of these cells, if they are one.
fn term_of(alloc: Global, items: &[Cell]) -> Option<Term>
    ensures { IfSome result (λ term. cells term ≡ items.now) }
{
    let mut buf = TermBuf::new(alloc);
    for item in items {
        if !is_cell(*item) {
            return None;
        }
        match buf.push(*item) {
            Ok(()) => {}
            Err(_) => return None,
        }
    }
    match buf.end() {
        Ok(term) => Some(term),
        Err(_) => None,
    }
}

fn is_below(cell: Cell, limit: usize) -> bool
    ensures { IsTrue result ↔ NameBelow limit cell }
{
    match cell {
        Cell::Name(name) => name.0 < limit,
        Cell::Comp(name, _) => name.0 < limit,
        _ => true,
    }
}

fn is_named(term: &Term, limit: usize) -> bool
    ensures { IsTrue result → NamesBelow limit term.now }
{
    let items = term.cells();
    for item in items {
        if !is_below(*item, limit) {
            return false;
        }
    }
    true
}

/// The order of two terms by their cells, if they are terms and have names.
fn order_of(alloc: Global, names: &Names, left: &[Cell], right: &[Cell]) -> Option<Ordering> {
    let left = term_of(alloc, left)?;
    let right = term_of(alloc, right)?;
    if !is_named(&left, names.len()) {
        return None;
    }
    if !is_named(&right, names.len()) {
        return None;
    }
    Some(compare(&left, &right, names))
}

#[test]
fn variables_are_found_and_renamed(rt: HostRuntime) -> Result<(), Fail> {
    let items = [
        Cell::Comp(NameId(0), 3),
        Cell::Var(1),
        Cell::Var(0),
        Cell::Var(1),
    ];
    let Some(term) = term_of(rt.alloc(), &items) else {
        panic!(rt; "no term");
    };
    let found = term.variables(rt.alloc())?;
    assert_eq!(rt; found.as_slice(), [1, 0].as_slice());
    let renamed = term.rename(rt.alloc(), 3)?;
    let want = [
        Cell::Comp(NameId(0), 3),
        Cell::Var(4),
        Cell::Var(3),
        Cell::Var(4),
    ];
    assert_eq!(rt; renamed.cells(), want.as_slice());
    Ok(())
}

#[test]
fn terms_are_whole(rt: HostRuntime) {
    let f = Cell::Comp(NameId(0), 2);
    let x = Cell::Var(0);
    assert!(rt; term_of(rt.alloc(), &[f, x, x]).is_some());
    assert!(rt; term_of(rt.alloc(), &[f]).is_none());
    assert!(rt; term_of(rt.alloc(), &[x, x]).is_none());
    assert!(rt; term_of(rt.alloc(), &[]).is_none());
}

#[test]
fn terms_have_the_standard_order(rt: HostRuntime) -> Result<(), Fail> {
    let mut names = Names::new(rt.alloc());
    let b = names.intern(b"b")?;
    let a = names.intern(b"a")?;
    let rows: [(&[Cell], &[Cell], Ordering); 7] = [
        (&[Cell::Var(9)], &[Cell::Int(-1)], Ordering::Less),
        (&[Cell::Int(-1)], &[Cell::Int(-2)], Ordering::Greater),
        (&[Cell::Int(7)], &[Cell::Name(a)], Ordering::Less),
        (&[Cell::Name(b)], &[Cell::Name(a)], Ordering::Greater),
        (
            &[Cell::Comp(a, 1), Cell::Int(1)],
            &[Cell::Name(b)],
            Ordering::Greater,
        ),
        (
            &[Cell::Comp(b, 1), Cell::Int(9)],
            &[Cell::Comp(a, 2), Cell::Int(1), Cell::Int(1)],
            Ordering::Less,
        ),
        (
            &[Cell::Comp(a, 1), Cell::Int(1)],
            &[Cell::Comp(a, 1), Cell::Int(1)],
            Ordering::Equal,
        ),
    ];
    for (left, right, want) in rows {
        assert_eq!(rt; order_of(rt.alloc(), &names, left, right), Some(want));
    }
    Ok(())
}
