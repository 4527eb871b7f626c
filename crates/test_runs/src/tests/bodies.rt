//! Worked bodies.
ghost use Rattle.std.specs.Prelude.{IfOk};
ghost use Rattle.pl_terms.specs.Cells.{cells};
ghost use Rattle.pl_unify.specs.Code.{VarsBelow};

use goal_code::{Body, ControlNames, Instruction};
use pl_atoms::{NameId, NoMemory};
use pl_terms::{Cell, Term, TermBuf};
use pl_unify::Code;
use std::alloc::Global;
use std::test::Fail;

const NAMES: ControlNames = ControlNames {
    conjunction: NameId(0),
    disjunction: NameId(1),
    implication: NameId(2),
    cut: NameId(3),
    truth: NameId(4),
};

// (a -> ! ; b, c), d
fn choice(alloc: Global) -> Result<Term, NoMemory>
    ensures { IfOk result (λ t. VarsBelow 0 (cells t)) }
{
    let mut cells = TermBuf::new(alloc);
    cells.push(Cell::Comp(NAMES.conjunction, 2))?;
    cells.push(Cell::Comp(NAMES.disjunction, 2))?;
    cells.push(Cell::Comp(NAMES.implication, 2))?;
    cells.push(Cell::Name(NameId(5)))?;
    cells.push(Cell::Name(NAMES.cut))?;
    cells.push(Cell::Comp(NAMES.conjunction, 2))?;
    cells.push(Cell::Name(NameId(6)))?;
    cells.push(Cell::Name(NameId(7)))?;
    cells.push(Cell::Name(NameId(8)))?;
    Ok(cells.end_whole())
}

// true
fn truth(alloc: Global) -> Result<Term, NoMemory>
    ensures { IfOk result (λ t. VarsBelow 0 (cells t)) }
{
    let mut cells = TermBuf::new(alloc);
    cells.push(Cell::Name(NAMES.truth))?;
    Ok(cells.end_whole())
}

// What stands at the places from 1 on.
const PLACES: [Instruction; 7] = [
    Instruction::Goal { goal: 7, next: 0 },
    Instruction::Goal { goal: 1, next: 1 },
    Instruction::Goal { goal: 0, next: 2 },
    Instruction::Cut { goal: 3, next: 1 },
    Instruction::EndIf { next: 4 },
    Instruction::Goal { goal: 2, next: 5 },
    Instruction::If {
        goal: 6,
        condition: 6,
        end: 5,
        otherwise: Some(3),
        next: 1,
    },
];

#[test]
fn goals_lead_on(rt: HostRuntime) -> Result<(), Fail> {
    let term = choice(rt.alloc())?;
    let code = Code::of(rt.alloc(), &term, 0)?;
    let body = Body::of(rt.alloc(), &code, NAMES)?;
    assert!(rt; body.start() == 7);
    for k in 0..PLACES.len() {
        assert_eq!(rt; body.instruction(k + 1), Some(PLACES[k]));
    }
    assert!(rt; body.instruction(8).is_none());
    Ok(())
}

#[test]
fn truth_has_no_goals(rt: HostRuntime) -> Result<(), Fail> {
    let term = truth(rt.alloc())?;
    let code = Code::of(rt.alloc(), &term, 0)?;
    let body = Body::of(rt.alloc(), &code, NAMES)?;
    assert!(rt; body.start() == 0);
    assert!(rt; body.instruction(0).is_none());
    Ok(())
}
