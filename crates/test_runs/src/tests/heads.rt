//! Heads tried for goals.
ghost use Rattle.std.specs.Prelude.{◌≡◌, ℕ, ◌<◌, ◌∷◌, [], length, IsTrue, IfOk, MatchOption};
ghost use Rattle.pl_terms.specs.Cells.{IsCell};
ghost use Rattle.pl_unify.specs.State.{IsRef, Extends, tree_at};
ghost use Rattle.pl_unify.specs.Shape.{root};
ghost use Rattle.pl_unify.specs.Code.{VarsBelow, last_tree};
ghost use Rattle.clause_code.specs.Heads.{IsNamed};

use clause_code::try_head;
use pl_atoms::{NameId, NoMemory};
use pl_terms::{Cell, TermBuf};
use pl_unify::{Code, Ref, Store, View};
use std::alloc::Global;
use std::test::Fail;

const A: Cell = Cell::Name(NameId(0));

const B: Cell = Cell::Name(NameId(1));

const F: Cell = Cell::Comp(NameId(2), 1);

const P: Cell = Cell::Comp(NameId(3), 2);

const V: Cell = Cell::Var(0);

const W: Cell = Cell::Var(1);

// A goal and how many variables it has, a head and how many variables its clause has, and the goal afterwards.
struct Case {
    goal: &'static [Cell],
    goal_vars: u8,
    head: &'static [Cell],
    head_vars: u8,
    taken: Option<&'static [Cell]>,
}

const CASES: [Case; 13] = [
    // atoms
    Case {
        goal: &[A],
        goal_vars: 0,
        head: &[A],
        head_vars: 2,
        taken: Some(&[A]),
    },
    // arguments against each other
    Case {
        goal: &[P, A, V],
        goal_vars: 1,
        head: &[P, V, B],
        head_vars: 1,
        taken: Some(&[P, A, B]),
    },
    Case {
        goal: &[P, A, V],
        goal_vars: 1,
        head: &[P, B, V],
        head_vars: 1,
        taken: None,
    },
    Case {
        goal: &[P, V, A],
        goal_vars: 1,
        head: &[P, V, B],
        head_vars: 1,
        taken: None,
    },
    Case {
        goal: &[F, Cell::Int(7)],
        goal_vars: 0,
        head: &[F, Cell::Int(7)],
        head_vars: 0,
        taken: Some(&[F, Cell::Int(7)]),
    },
    Case {
        goal: &[F, Cell::Int(7)],
        goal_vars: 0,
        head: &[F, Cell::Int(8)],
        head_vars: 0,
        taken: None,
    },
    // one variable twice
    Case {
        goal: &[P, V, A],
        goal_vars: 1,
        head: &[P, V, V],
        head_vars: 1,
        taken: Some(&[P, A, A]),
    },
    Case {
        goal: &[P, A, B],
        goal_vars: 0,
        head: &[P, V, V],
        head_vars: 1,
        taken: None,
    },
    Case {
        goal: &[P, V, W],
        goal_vars: 2,
        head: &[P, V, V],
        head_vars: 1,
        taken: Some(&[P, V, V]),
    },
    // the head's variables are others than the goal's
    Case {
        goal: &[P, V, W],
        goal_vars: 2,
        head: &[P, B, V],
        head_vars: 1,
        taken: Some(&[P, B, W]),
    },
    Case {
        goal: &[P, V, A],
        goal_vars: 1,
        head: &[P, F, V, W],
        head_vars: 2,
        taken: Some(&[P, F, W, A]),
    },
    // a variable in what it would be
    Case {
        goal: &[P, V, F, V],
        goal_vars: 1,
        head: &[P, V, V],
        head_vars: 1,
        taken: None,
    },
    Case {
        goal: &[P, V, V],
        goal_vars: 1,
        head: &[P, V, F, V],
        head_vars: 1,
        taken: None,
    },
];

// Whether the cell is one of a term whose variables are below `vars`.
fn is_in(cell: Cell, vars: u8) -> bool
    ensures { IsTrue result → IsCell cell × VarsBelow vars (cell ∷ []) }
{
    match cell {
        Cell::Var(n) => n < vars as usize,
        Cell::Comp(_, arity) => arity > 0,
        _ => true,
    }
}

// The code of these cells, if they are one term.
fn code_of(alloc: Global, items: &[Cell], vars: u8) -> Result<Option<Code>, NoMemory>
    ensures { IfOk result (λ made. MatchOption made (Unit {0}) (λ code. 0 < length code.words)) }
{
    let mut cells = TermBuf::new(alloc);
    for cell in items {
        if !is_in(*cell, vars) {
            return Ok(None);
        }
        cells.push(*cell)?;
    }
    match cells.end() {
        Ok(term) => Ok(Some(Code::of(alloc, &term, vars as usize)?)),
        Err(_) => Ok(None),
    }
}

// Whether both are one atom, or compounds of one name and arity.
fn is_alike(store: &Store, goal: Ref, head: &Code) -> bool
    requires goal { IsRef store.now.state goal }
    requires head { 0 < length head.now.words }
    ensures same { IsTrue result → root (tree_at store.now.state goal) ≡ root (last_tree head.now.words) }
    ensures named { IsTrue result → IsNamed (root (tree_at store.now.state goal)) }
{
    match (store.view(goal), head.view(head.len() - 1)) {
        (View::Name(name), View::Name(other)) => name.0 == other.0,
        (View::Comp(name, arity), View::Comp(other, count)) => {
            name.0 == other.0 && arity == count
        }
        _ => false,
    }
}

// Whether the head takes the goal, if they are alike.
fn taken(store: &mut Store, goal: Ref, head: &Code) -> Result<Option<bool>, NoMemory>
    requires goal { IsRef store.old.state goal }
    requires head { 0 < length head.now.words }
    ensures { Extends store.old.state store.new.state }
{
    if !is_alike(store, goal, head) {
        return Ok(None);
    }
    Ok(Some(try_head(store, goal, head)?))
}

#[test]
fn heads_are_tried(rt: HostRuntime) -> Result<(), Fail> {
    for case in CASES.iter() {
        let mut store = Store::new(rt.alloc());
        let term = code_of(rt.alloc(), case.goal, case.goal_vars)?.ok_or("no goal")?;
        let head = code_of(rt.alloc(), case.head, case.head_vars)?.ok_or("no head")?;
        let goal = store.build_place(&term, term.len() - 1, 0)?;
        store.make_below(case.goal_vars as usize)?;
        let yes = taken(&mut store, goal, &head)?.ok_or("another name")?;
        assert_eq!(rt; yes, case.taken.is_some());
        if let Some(cells) = case.taken {
            let vars = case.goal_vars as usize + case.head_vars as usize;
            assert_eq!(rt; store.next_var(), vars);
            let read = store.copy_out(rt.alloc(), goal)?;
            assert_eq!(rt; read.cells(), cells);
        }
    }
    Ok(())
}
