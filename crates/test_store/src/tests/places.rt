//! A goal against a head, and a place of code.
ghost use Rattle.std.specs.Prelude.{◌<◌, length, IfOk};
ghost use Rattle.pl_unify.specs.State.{IsRef, Extends};
ghost use Rattle.pl_terms.specs.Cells.{cells};
ghost use Rattle.pl_unify.specs.Code.{VarsBelow};

use pl_atoms::{NameId, NoMemory};
use pl_terms::{Cell, Term, TermBuf};
use pl_unify::{Code, Ref, Store, View};
use std::alloc::Global;
use std::test::Fail;

const A: NameId = NameId(0);

const F: NameId = NameId(1);

const G: NameId = NameId(2);

// g(V0, f(V0))
fn inside(alloc: Global) -> Result<Term, NoMemory>
    ensures { IfOk result (λ t. VarsBelow 1 (cells t)) }
{
    let mut cells = TermBuf::new(alloc);
    cells.push(Cell::Comp(G, 2))?;
    cells.push(Cell::Var(0))?;
    cells.push(Cell::Comp(F, 1))?;
    cells.push(Cell::Var(0))?;
    Ok(cells.end_whole())
}

// g(a, V0)
fn with_atom(alloc: Global) -> Result<Term, NoMemory>
    ensures { IfOk result (λ t. VarsBelow 1 (cells t)) }
{
    let mut cells = TermBuf::new(alloc);
    cells.push(Cell::Comp(G, 2))?;
    cells.push(Cell::Name(A))?;
    cells.push(Cell::Var(0))?;
    Ok(cells.end_whole())
}

// Whether the goal takes the head.
fn takes(store: &mut Store, goal: Ref, head: &Code) -> Result<bool, NoMemory>
    requires goal { IsRef store.old.state goal }
    requires some { 0 < length head.now.words }
    ensures { Extends store.old.state store.new.state }
{
    let base = store.next_var();
    let last = head.len() - 1;
    match store.view(goal) {
        View::Comp(_, count) => {
            if count == 0 {
                return Ok(false);
            }
            if count != head.arity(last) {
                return Ok(false);
            }
            let first = head.arguments(last);
            store.head_of(goal, head, first, base)
        }
        _ => Ok(false),
    }
}

#[test]
fn goal_takes_head(rt: HostRuntime) -> Result<(), Fail> {
    let term = with_atom(rt.alloc())?;
    let code = Code::of(rt.alloc(), &term, 1)?;
    let term = inside(rt.alloc())?;
    let head = Code::of(rt.alloc(), &term, 1)?;
    let mut store = Store::new(rt.alloc());
    let goal = store.build_place(&code, code.len() - 1, 0)?;
    assert_eq!(rt; store.next_var(), code.vars());
    assert!(rt; takes(&mut store, goal, &head)?);
    assert_eq!(rt; store.next_var(), 2);
    let read = store.copy_out(rt.alloc(), goal)?;
    let cells = [
        Cell::Comp(G, 2),
        Cell::Name(A),
        Cell::Comp(F, 1),
        Cell::Name(A),
    ];
    assert_eq!(rt; read.cells(), cells.as_slice());
    Ok(())
}
