//! Worked mode terms.
use mod_meta::{Modes, ModesFault};
use pl_atoms::{Names, NoMemory};
use pl_terms::{Cell, Term, TermBuf};
use std::alloc::Global;

/// The term `p(A, *)`.
fn term_of_p(alloc: Global, names: &mut Names, first: &[u8]) -> Result<Term, NoMemory> {
    let mut cells = TermBuf::new(alloc);
    cells.push(Cell::Comp(names.intern(b"p")?, 2))?;
    cells.push(Cell::Name(names.intern(first)?))?;
    cells.push(Cell::Name(names.intern(b"*")?))?;
    match cells.end() {
        Ok(term) => Ok(term),
        Err(_) => Err(NoMemory),
    }
}

/// The modes of `p(A, *)`.
fn modes_of_p(alloc: Global, first: &[u8]) -> Result<Modes, ModesFault> {
    let mut names = Names::new(alloc);
    let term = term_of_p(alloc, &mut names, first)?;
    Modes::of(alloc, &term, &names)
}

#[test]
fn modes_are_read(rt: HostRuntime) {
    match modes_of_p(rt.alloc(), b":") {
        Ok(modes) => {
            assert!(rt; modes.len() == 2);
            assert!(rt; modes.is_meta(0));
            assert!(rt; !modes.is_meta(1));
        }
        Err(_) => assert!(rt; false),
    }
}

#[test]
fn other_atoms_are_no_modes(rt: HostRuntime) {
    match modes_of_p(rt.alloc(), b"x") {
        Ok(_) => assert!(rt; false),
        Err(fault) => assert!(rt; fault == ModesFault::BadModes),
    }
}
