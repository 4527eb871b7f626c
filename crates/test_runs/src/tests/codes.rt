//! The code of a program's clauses, and what their goals lead to.
use super::linked::two_names;
use clause_code::{Codes, Target, Targets};
use goal_constructs::Constructs;
use pl_atoms::NoMemory;
use pl_store::Program;
use pl_store::laws::facts_stay;
use std::alloc::Global;
use std::test::Fail;

// The codes of a program's clauses, with their targets.
fn compiled(alloc: Global, program: Program) -> Result<(Codes, Targets), NoMemory> {
    let (old, tables) = program.into_parts();
    let mut names = old;
    let constructs = Constructs::of(alloc, &mut names)?;
    let _count = names.len();
    facts_stay();
    let codes = Codes::of(alloc, &names, &tables, constructs.control())?;
    let targets = Targets::of(alloc, &tables, &codes, &constructs)?;
    Ok((codes, targets))
}

#[test]
fn no_clause_has_code(rt: HostRuntime) -> Result<(), Fail> {
    let program = two_names(rt.alloc())?;
    let (codes, targets) = compiled(rt.alloc(), program)?;
    assert!(rt; codes.is_empty());
    assert!(rt; targets.get(0, 1) == Target::Construct);
    Ok(())
}
