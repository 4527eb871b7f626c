//! A program that is entered step by step, and what is found in it.
ghost use Rattle.std.specs.Prelude.{◌≡◌, ◌<◌, [], true, length, IfOk, OnOk};
ghost use Rattle.pl_terms.specs.Trees.{atom, int, comp, cons, nil};
ghost use Rattle.pl_terms.specs.Cells.{cells};
ghost use Rattle.unit_model.specs.Views.{ind_view};
ghost use Rattle.pl_store.specs.Linked.{procedure_at};
ghost use Rattle.pl_store.specs.Rules.{IsExisting, IsUnseen};

use mod_meta::Modes;
use pl_atoms::NameId;
use pl_store::{ClauseId, Key, ProcId, Program, Tables};
use pl_terms::{Cell, Term, TermBuf};
use std::alloc::Global;
use std::test::Fail;
use unit_model::Ind;

// The term of these cells.
fn whole(buf: TermBuf) -> Result<Term, Fail>
    ensures { IfOk result (λ t. cells t ≡ buf) }
{
    match buf.end() {
        Ok(term) => Ok(term),
        Err(_) => Err(Fail::new("no term")),
    }
}

// `p(value)`
fn head_of(alloc: Global, name: NameId, value: i64) -> Result<Term, Fail>
    ensures { IfOk result (λ t. t ≡ comp name.0 (cons (int value) nil)) }
{
    let mut buf = TermBuf::new(alloc);
    buf.push(Cell::Comp(name, 1))?;
    buf.push(Cell::Int(value))?;
    let term = whole(buf)?;
    Ok(term)
}

// A term of one name.
fn atom_of(alloc: Global, name: NameId) -> Result<Term, Fail>
    ensures { IfOk result (λ t. t ≡ atom name.0) }
{
    let mut buf = TermBuf::new(alloc);
    buf.push(Cell::Name(name))?;
    let term = whole(buf)?;
    Ok(term)
}

// Whether the program has a name of this number.
fn has_name(program: &Program, name: NameId) -> bool
    ensures { result ≡ true → name.0 < length program.now.names }
{
    name.0 < program.names().len()
}

// Whether there is a module of this name.
fn is_home(program: &Program, home: NameId) -> bool
    ensures { result ≡ true → IsExisting program.now home.0 }
{
    if home.0 >= program.names().len() {
        return false;
    }
    program.tables().exists(program.names(), home)
}

// Whether there is no procedure.
fn is_bare(program: &Program) -> bool
    ensures { result ≡ true → program.now.procedures ≡ [] }
{
    program.tables().procedures() == 0
}

// Whether nothing is visible from a module under a name and a number of arguments.
fn is_unseen(program: &Program, lookup: NameId, ind: Ind) -> bool
    ensures { result ≡ true → IsUnseen program.now lookup.0 (ind_view ind) }
{
    match program.tables().procedure(lookup, ind.name, ind.arity) {
        Some(_) => false,
        None => true,
    }
}

// Enters a metapredicate of one argument, the first procedure.
fn enter(alloc: Global, program: &mut Program, home: NameId, name: NameId) -> Result<ProcId, Fail>
    ensures there { IfOk result (λ p. p.0 < length program.new.procedures) }
    ensures its { IfOk result (λ p. (procedure_at program.new p.0).indicator ≡ record { name = name.0; arity = 1 }) }
{
    if !is_home(program, home) {
        return Err(Fail::new("no module"));
    }
    if !has_name(program, name) {
        return Err(Fail::new("no name"));
    }
    if !is_bare(program) {
        return Err(Fail::new("another procedure"));
    }
    let modes = Modes::from_slice(alloc, &[true])?;
    let proc = program.add_procedure(home, Ind { name, arity: 1 }, Some(modes))?;
    Ok(proc)
}

// Enters the fact `p(value)`.
fn enter_fact(
    alloc: Global,
    program: &mut Program,
    proc: ProcId,
    name: NameId,
    truth: NameId,
    value: i64,
) -> Result<(), Fail>
    requires there { proc.0 < length program.old.procedures }
    requires its { (procedure_at program.old proc.0).indicator ≡ record { name = name.0; arity = 1 } }
    ensures still_there { OnOk result (proc.0 < length program.new.procedures) }
    ensures still_its { OnOk result ((procedure_at program.new proc.0).indicator ≡ record { name = name.0; arity = 1 }) }
{
    if !has_name(program, name) {
        return Err(Fail::new("no name"));
    }
    if !has_name(program, truth) {
        return Err(Fail::new("no truth"));
    }
    let head = head_of(alloc, name, value)?;
    let body = atom_of(alloc, truth)?;
    program.add_clause(proc, 0, head, body)?;
    Ok(())
}

// Makes a procedure of one argument visible.
fn show(program: &mut Program, lookup: NameId, name: NameId, proc: ProcId) -> Result<(), Fail>
    requires there { proc.0 < length program.old.procedures }
    requires its { (procedure_at program.old proc.0).indicator ≡ record { name = name.0; arity = 1 } }
{
    let ind = Ind { name, arity: 1 };
    if !is_home(program, lookup) {
        return Err(Fail::new("no module"));
    }
    if !is_unseen(program, lookup, ind) {
        return Err(Fail::new("seen before"));
    }
    program.see(lookup, ind, proc)?;
    Ok(())
}

// A program of the module `user`, and the numbers of its name, of `p` and of `true`.
fn named(alloc: Global) -> Result<(Program, NameId, NameId, NameId), Fail> {
    let mut program = Program::new(alloc);
    let user = program.add_module(b"user")?;
    let p = program.intern(b"p")?;
    let truth = program.intern(b"true")?;
    Ok((program, user, p, truth))
}

// `p(1).` and `p(2).` in `user`, where p/1 is a metapredicate.
fn two_facts(alloc: Global) -> Result<(Program, NameId, NameId), Fail> {
    let (mut program, user, p, truth) = named(alloc)?;
    let proc = enter(alloc, &mut program, user, p)?;
    enter_fact(alloc, &mut program, proc, p, truth, 1)?;
    enter_fact(alloc, &mut program, proc, p, truth, 2)?;
    show(&mut program, user, p, proc)?;
    Ok((program, user, p))
}

// The procedure of one argument that is visible from a module.
fn found(tables: &Tables, lookup: NameId, name: NameId) -> Result<ProcId, Fail>
    ensures { IfOk result (λ p. p.0 < length tables.now.procedures) }
{
    let Some(proc) = tables.procedure(lookup, name, 1) else {
        return Err(Fail::new("no procedure"));
    };
    if proc.0 >= tables.procedures() {
        return Err(Fail::new("no such procedure"));
    }
    Ok(proc)
}

#[test]
fn a_procedure_is_found(rt: HostRuntime) -> Result<(), Fail> {
    let (program, user, p) = two_facts(rt.alloc())?;
    let tables = program.tables();
    let proc = found(tables, user, p)?;
    assert!(rt; tables.procedure(user, p, 2).is_none());
    assert_eq!(rt; tables.home(proc), user);
    let Some(modes) = tables.modes(proc) else {
        return Err(Fail::new("no modes"));
    };
    assert_eq!(rt; modes.len(), 1);
    Ok(())
}

// The integer of a fact of a procedure.
fn value_of(tables: &Tables, proc: ProcId, clause: ClauseId) -> Result<i64, Fail> {
    if clause.0 >= tables.clauses() {
        return Err(Fail::new("no clause"));
    }
    let (width, head, body) = tables.clause(clause);
    if tables.owner(clause) != proc || width != 0 || body.cells().len() != 1 {
        return Err(Fail::new("no fact"));
    }
    match head.cells().last() {
        Some(Cell::Int(value)) => Ok(*value),
        _ => Err(Fail::new("no integer")),
    }
}

// The clause after this one that fits a key.
fn following(tables: &Tables, clause: ClauseId, key: Key) -> Result<Option<ClauseId>, Fail> {
    if clause.0 >= tables.clauses() {
        return Err(Fail::new("no clause"));
    }
    Ok(tables.next(clause, key))
}

// The integers of the first two facts that fit a key.
fn values(tables: &Tables, proc: ProcId, key: Key) -> Result<(Option<i64>, Option<i64>), Fail>
    requires { proc.0 < length tables.now.procedures }
{
    let Some(first) = tables.first(proc, key) else {
        return Ok((None, None));
    };
    let one = value_of(tables, proc, first)?;
    match following(tables, first, key)? {
        Some(second) => Ok((Some(one), Some(value_of(tables, proc, second)?))),
        None => Ok((Some(one), None)),
    }
}

#[test]
fn facts_are_found(rt: HostRuntime) -> Result<(), Fail> {
    let (program, user, p) = two_facts(rt.alloc())?;
    let tables = program.tables();
    let proc = found(tables, user, p)?;
    assert_eq!(rt; tables.clauses(), 2);
    for (key, wanted) in [
        (Key::Any, (Some(1), Some(2))),
        (Key::Int(1), (Some(1), None)),
        (Key::Int(2), (Some(2), None)),
        (Key::Int(3), (None, None)),
        (Key::Name(p), (None, None)),
    ] {
        assert_eq!(rt; values(tables, proc, key)?, wanted);
    }
    Ok(())
}
