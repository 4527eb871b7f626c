//! Worked bodies.
use mod_body::{BodyFault, convert_body, is_converted};
use pl_atoms::{Names, NoMemory};
use pl_terms::{Cell, Term, TermBuf};
use std::alloc::Global;
use term_walk::names_below;

/// The body `(a , B)` with an atom, a variable or an integer as B.
fn conjunction(alloc: Global, names: &mut Names, last: Last) -> Result<Term, NoMemory> {
    let mut cells = TermBuf::new(alloc);
    cells.push(Cell::Comp(names.intern(b",")?, 2))?;
    cells.push(Cell::Name(names.intern(b"a")?))?;
    match last {
        Last::Variable => cells.push(Cell::Var(0))?,
        Last::Integer => cells.push(Cell::Int(1))?,
    }
    match cells.end() {
        Ok(term) => Ok(term),
        Err(_) => Err(NoMemory),
    }
}

#[derive(Clone, Copy)]
enum Last {
    Variable,
    Integer,
}

/// How many cells the converted body has.
fn converted_len(alloc: Global, last: Last) -> Result<usize, BodyFault> {
    let mut names = Names::new(alloc);
    let body = conjunction(alloc, &mut names, last)?;
    if !names_below(&body, &names) {
        return Ok(0);
    }
    let converted = convert_body(alloc, &body, &mut names)?;
    Ok(converted.cells().len())
}

#[test]
fn variables_are_called(rt: HostRuntime) {
    match converted_len(rt.alloc(), Last::Variable) {
        Ok(count) => assert!(rt; count == 4),
        Err(_) => assert!(rt; false),
    }
}

#[test]
fn integers_are_no_goals(rt: HostRuntime) {
    match converted_len(rt.alloc(), Last::Integer) {
        Ok(_) => assert!(rt; false),
        Err(fault) => assert!(rt; fault == BodyFault::NotCallable),
    }
}

/// Whether the body is converted already.
fn is_converted_already(alloc: Global, last: Last) -> Result<bool, NoMemory> {
    let mut names = Names::new(alloc);
    let body = conjunction(alloc, &mut names, last)?;
    is_converted(alloc, &body, &names)
}

#[test]
fn a_variable_goal_is_not_converted(rt: HostRuntime) {
    match is_converted_already(rt.alloc(), Last::Variable) {
        Ok(yes) => assert!(rt; !yes),
        Err(_) => assert!(rt; false),
    }
}
