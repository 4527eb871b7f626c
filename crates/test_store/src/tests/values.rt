//! Values at the edges of 64 bits, as another language's integers without a limit give them, and a whole evaluation.
ghost use Rattle.std.specs.Prelude.{◌≡◌, IfOk, pos};
ghost use Rattle.pl_terms.specs.Trees.{comp, int, cons, nil};
ghost use Rattle.pl_terms.specs.Cells.{cells};
ghost use Rattle.pl_unify.specs.Code.{VarsBelow};

use pl_arith::{EvalFault, evaluate, value_in_code};
use pl_atoms::{NameId, Names, NoMemory};
use pl_terms::{Cell, Term, TermBuf};
use pl_unify::{Code, Store};
use std::alloc::Global;
use std::test::Fail;

const MAX: i64 = i64::MAX;

const MIN: i64 = i64::MIN;

// The value of an operation on one integer.
fn of_one(alloc: Global, name: &[u8], x: i64) -> Result<i64, EvalFault> {
    let mut names = Names::new(alloc);
    let name = names.intern(name)?;
    let mut store = Store::new(alloc);
    let x = store.place_of_int(x)?;
    let at = store.compound(name, &[x])?;
    evaluate(alloc, &store, &names, at)
}

// The value of an operation on two integers.
fn of_two(alloc: Global, name: &[u8], x: i64, y: i64) -> Result<i64, EvalFault> {
    let mut names = Names::new(alloc);
    let name = names.intern(name)?;
    let mut store = Store::new(alloc);
    let x = store.place_of_int(x)?;
    let y = store.place_of_int(y)?;
    let at = store.compound(name, &[x, y])?;
    evaluate(alloc, &store, &names, at)
}

type OfOne = (&'static [u8], i64, Result<i64, EvalFault>);

const EDGES_OF_ONE: [OfOne; 8] = [
    (b"-", MIN, Err(EvalFault::Overflow)),
    (b"-", MAX, Ok(-9223372036854775807)),
    (b"abs", MIN, Err(EvalFault::Overflow)),
    (b"abs", -7, Ok(7)),
    (b"sign", MIN, Ok(-1)),
    (b"sign", 0, Ok(0)),
    (b"\\", MIN, Ok(MAX)),
    (b"\\", 5, Ok(-6)),
];

type OfTwo = (&'static [u8], i64, i64, Result<i64, EvalFault>);

const EDGES_OF_TWO: [OfTwo; 28] = [
    (b"+", MAX, 1, Err(EvalFault::Overflow)),
    (b"+", MIN, MAX, Ok(-1)),
    (b"-", MIN, 1, Err(EvalFault::Overflow)),
    (b"-", 0, MIN, Err(EvalFault::Overflow)),
    (b"*", 3037000500, 3037000500, Err(EvalFault::Overflow)),
    (b"*", MIN, -1, Err(EvalFault::Overflow)),
    (b"*", 4611686018427387904, -2, Ok(MIN)),
    (b"//", MIN, -1, Err(EvalFault::Overflow)),
    (b"//", -7, 2, Ok(-3)),
    (b"//", 7, 0, Err(EvalFault::ZeroDivisor)),
    (b"rem", MIN, -1, Ok(0)),
    (b"rem", -7, 2, Ok(-1)),
    (b"rem", 7, -2, Ok(1)),
    (b"mod", MIN, -1, Ok(0)),
    (b"mod", -7, 2, Ok(1)),
    (b"mod", 7, -2, Ok(-1)),
    (b"mod", MIN, MAX, Ok(9223372036854775806)),
    (b"<<", -1, 63, Ok(MIN)),
    (b"<<", 1, 63, Err(EvalFault::Overflow)),
    (b"<<", 0, 64, Err(EvalFault::Undefined)),
    (b"<<", 1, -1, Err(EvalFault::Undefined)),
    (b">>", MIN, 63, Ok(-1)),
    (b">>", -5, 1, Ok(-3)),
    (b">>", 1, 64, Err(EvalFault::Undefined)),
    (b"/\\", MIN, -1, Ok(MIN)),
    (b"/\\", -4, 7, Ok(4)),
    (b"\\/", MIN, MAX, Ok(-1)),
    (b"\\/", -4, 1, Ok(-3)),
];

#[test]
fn edges_of_one(rt: HostRuntime) {
    for (name, x, value) in &EDGES_OF_ONE {
        assert_eq!(rt; of_one(rt.alloc(), name, *x), *value, "at {x}");
    }
}

#[test]
fn edges_of_two(rt: HostRuntime) {
    for (name, x, y, value) in &EDGES_OF_TWO {
        assert_eq!(rt; of_two(rt.alloc(), name, *x, *y), *value, "at {x} and {y}");
    }
}

// 3 - 5, where the name is that of -.
fn difference(alloc: Global, minus: NameId) -> Result<Term, NoMemory>
    ensures { IfOk result (λ t. t ≡ comp minus.0 (cons (int (pos 3)) (cons (int (pos 5)) nil))) }
{
    let mut cells = TermBuf::new(alloc);
    cells.push(Cell::Comp(minus, 2))?;
    cells.push(Cell::Int(3))?;
    cells.push(Cell::Int(5))?;
    Ok(cells.end_whole())
}

#[test]
fn a_term_is_evaluated(rt: HostRuntime) -> Result<(), Fail> {
    let mut names = Names::new(rt.alloc());
    let minus = names.intern(b"-")?;
    let term = difference(rt.alloc(), minus)?;
    let mut store = Store::new(rt.alloc());
    let at = store.load(&term, 0)?;
    assert_eq!(rt; evaluate(rt.alloc(), &store, &names, at), Ok(-2));
    Ok(())
}

// V0 * 3 - 1
fn product_less_one(alloc: Global, times: NameId, minus: NameId) -> Result<Term, NoMemory>
    ensures { IfOk result (λ t. VarsBelow 1 (cells t)) }
{
    let mut cells = TermBuf::new(alloc);
    cells.push(Cell::Comp(minus, 2))?;
    cells.push(Cell::Comp(times, 2))?;
    cells.push(Cell::Var(0))?;
    cells.push(Cell::Int(3))?;
    cells.push(Cell::Int(1))?;
    Ok(cells.end_whole())
}

#[test]
fn a_term_of_code_has_a_value(rt: HostRuntime) -> Result<(), Fail> {
    let mut names = Names::new(rt.alloc());
    let times = names.intern(b"*")?;
    let minus = names.intern(b"-")?;
    let term = product_less_one(rt.alloc(), times, minus)?;
    let code = Code::of(rt.alloc(), &term, 1)?;
    let place = code.len() - 1;
    let mut store = Store::new(rt.alloc());
    store.fresh()?;
    let base = store.next_var();
    let variable = store.fresh()?;
    assert_eq!(rt; value_in_code(&store, &names, &code, place, base), None);
    let seven = store.place_of_int(7)?;
    assert!(rt; store.unify(variable, seven)?);
    assert_eq!(rt; value_in_code(&store, &names, &code, place, base), Some(20));
    let at = store.build_place(&code, place, base)?;
    assert_eq!(rt; evaluate(rt.alloc(), &store, &names, at), Ok(20));
    Ok(())
}
