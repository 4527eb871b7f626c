//! Terms as goals, and the terms of errors.
use super::texts::has_cells;
use goal_constructs::{Called, Constructs};
use pl_atoms::{NameId, Names, NoMemory};
use pl_terms::Cell;
use pl_unify::Store;
use std::alloc::Global;
use std::test::Fail;

// The name `foo`, and the numbers of the names that goals are made of.
fn constructs(alloc: Global) -> Result<(NameId, Constructs), NoMemory> {
    let mut names = Names::new(alloc);
    let foo = names.intern(b"foo")?;
    let constructs = Constructs::of(alloc, &mut names)?;
    Ok((foo, constructs))
}

#[test]
fn modules_are_missing(rt: HostRuntime) -> Result<(), Fail> {
    let (foo, constructs) = constructs(rt.alloc())?;
    let names = constructs.names();
    let mut store = Store::new(rt.alloc());
    let ball = constructs.no_module(&mut store, foo, names.user_word)?;
    has_cells(
        rt.alloc(),
        &store,
        ball,
        &[
            Cell::Comp(names.error, 2),
            Cell::Comp(names.existence_error, 2),
            Cell::Name(names.module_word),
            Cell::Name(foo),
            Cell::Name(names.user_word),
        ],
    )
}

#[test]
fn procedures_are_missing(rt: HostRuntime) -> Result<(), Fail> {
    let (foo, constructs) = constructs(rt.alloc())?;
    let names = constructs.names();
    let mut store = Store::new(rt.alloc());
    let ball = constructs.no_procedure(&mut store, foo, 3, names.user_word)?;
    has_cells(
        rt.alloc(),
        &store,
        ball,
        &[
            Cell::Comp(names.error, 2),
            Cell::Comp(names.existence_error, 2),
            Cell::Name(names.procedure_word),
            Cell::Comp(names.slash, 2),
            Cell::Name(foo),
            Cell::Int(3),
            Cell::Name(names.user_word),
        ],
    )
}

#[test]
fn variables_are_no_goals(rt: HostRuntime) -> Result<(), Fail> {
    let (foo, constructs) = constructs(rt.alloc())?;
    let names = constructs.names();
    let mut store = Store::new(rt.alloc());
    let ball = constructs.uninstantiated(&mut store, foo, 1)?;
    has_cells(
        rt.alloc(),
        &store,
        ball,
        &[
            Cell::Comp(names.error, 2),
            Cell::Name(names.instantiation_error),
            Cell::Comp(names.slash, 2),
            Cell::Name(foo),
            Cell::Int(1),
        ],
    )
}

#[test]
fn arguments_are_too_many(rt: HostRuntime) -> Result<(), Fail> {
    let (foo, constructs) = constructs(rt.alloc())?;
    let names = constructs.names();
    let mut store = Store::new(rt.alloc());
    let ball = constructs.too_many_arguments(&mut store, foo, 2)?;
    has_cells(
        rt.alloc(),
        &store,
        ball,
        &[
            Cell::Comp(names.error, 2),
            Cell::Comp(names.representation_error, 1),
            Cell::Name(names.max_arity),
            Cell::Comp(names.slash, 2),
            Cell::Name(foo),
            Cell::Int(2),
        ],
    )
}

// The cells of `error(type_error(Word, 7), foo/1)`.
fn type_error(constructs: &Constructs, word: NameId, foo: NameId) -> [Cell; 7] {
    let names = constructs.names();
    [
        Cell::Comp(names.error, 2),
        Cell::Comp(names.type_error, 2),
        Cell::Name(word),
        Cell::Int(7),
        Cell::Comp(names.slash, 2),
        Cell::Name(foo),
        Cell::Int(1),
    ]
}

#[test]
fn integers_are_no_atoms(rt: HostRuntime) -> Result<(), Fail> {
    let (foo, constructs) = constructs(rt.alloc())?;
    let mut store = Store::new(rt.alloc());
    let seven = store.place_of_int(7)?;
    let ball = constructs.not_an_atom(&mut store, seven, foo, 1)?;
    let wanted = type_error(&constructs, constructs.names().atom_word, foo);
    has_cells(rt.alloc(), &store, ball, &wanted)
}

#[test]
fn integers_are_no_goals(rt: HostRuntime) -> Result<(), Fail> {
    let (foo, constructs) = constructs(rt.alloc())?;
    let mut store = Store::new(rt.alloc());
    let seven = store.place_of_int(7)?;
    let ball = constructs.not_callable(&mut store, seven, foo, 1)?;
    let wanted = type_error(&constructs, constructs.names().callable_word, foo);
    has_cells(rt.alloc(), &store, ball, &wanted)
}

#[test]
fn integers_are_no_lists(rt: HostRuntime) -> Result<(), Fail> {
    let (foo, constructs) = constructs(rt.alloc())?;
    let mut store = Store::new(rt.alloc());
    let seven = store.place_of_int(7)?;
    let Some(ball) = constructs.list_ball(&mut store, seven, foo, 1)? else {
        return Err(Fail::new("no ball"));
    };
    let wanted = type_error(&constructs, constructs.names().list_word, foo);
    has_cells(rt.alloc(), &store, ball, &wanted)
}

#[test]
fn a_variable_is_called(rt: HostRuntime) -> Result<(), Fail> {
    let (foo, constructs) = constructs(rt.alloc())?;
    let names = constructs.names();
    let mut store = Store::new(rt.alloc());
    let variable = store.fresh()?;
    let atom = store.place_of_name(foo)?;
    let both = store.compound(names.control.conjunction, &[variable, atom])?;
    let Called::Goal(goal) = constructs.goal_of(rt.alloc(), &mut store, both, foo, 1)? else {
        return Err(Fail::new("no goal"));
    };
    has_cells(
        rt.alloc(),
        &store,
        goal,
        &[
            Cell::Comp(names.control.conjunction, 2),
            Cell::Comp(names.call, 1),
            Cell::Var(0),
            Cell::Name(foo),
        ],
    )
}

#[test]
fn an_argument_is_added(rt: HostRuntime) -> Result<(), Fail> {
    let (foo, constructs) = constructs(rt.alloc())?;
    let names = constructs.names();
    let mut store = Store::new(rt.alloc());
    let atom = store.place_of_name(foo)?;
    let seven = store.place_of_int(7)?;
    let call = store.compound(names.call, &[atom, seven])?;
    let Called::Goal(goal) = constructs.called(rt.alloc(), &mut store, call, names.call, 2)? else {
        return Err(Fail::new("no goal"));
    };
    has_cells(
        rt.alloc(),
        &store,
        goal,
        &[Cell::Comp(foo, 1), Cell::Int(7)],
    )
}

#[test]
fn a_conjunction_has_two_goals(rt: HostRuntime) -> Result<(), Fail> {
    let (foo, constructs) = constructs(rt.alloc())?;
    let names = constructs.names();
    let mut store = Store::new(rt.alloc());
    let atom = store.place_of_name(foo)?;
    let cut = store.place_of_name(names.control.cut)?;
    let both = store.compound(names.control.conjunction, &[atom, cut])?;
    let mut goals = Vec::new(rt.alloc());
    constructs.conjuncts(rt.alloc(), &store, both, &mut goals)?;
    assert_eq!(rt; goals.len(), 2);
    Ok(())
}
