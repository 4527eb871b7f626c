//! A goal of a metapredicate.
use super::texts::has_cells;
use mod_meta::{Modes, qualify};
use pl_atoms::NameId;
use pl_terms::Cell;
use pl_unify::Store;
use std::test::Fail;

const MAPLIST: NameId = NameId(0);

const DOUBLE: NameId = NameId(1);

const NIL: NameId = NameId(2);

const USER: NameId = NameId(3);

const COLON: NameId = NameId(4);

#[test]
fn a_metaargument_gets_its_module(rt: HostRuntime) -> Result<(), Fail> {
    let mut store = Store::new(rt.alloc());
    let double = store.place_of_name(DOUBLE)?;
    let nil = store.place_of_name(NIL)?;
    let goal = store.compound(MAPLIST, &[double, nil])?;
    let modes = Modes::from_slice(rt.alloc(), &[true, false])?;
    let passed = qualify(rt.alloc(), &mut store, goal, &modes, USER, COLON)?;
    has_cells(
        rt.alloc(),
        &store,
        passed,
        &[
            Cell::Comp(MAPLIST, 2),
            Cell::Comp(COLON, 2),
            Cell::Name(USER),
            Cell::Name(DOUBLE),
            Cell::Name(NIL),
        ],
    )
}
