//! Worked entries.
use mod_visible::{Cause, Clash, Placed, Role, Sort, Visibility, causes_of, flattened};
use pl_atoms::{NameId, Names};
use std::alloc::Global;
use std::test::Fail;
use unit_format::decode;
use unit_model::Ind;

const USER: NameId = NameId(0);

const A: NameId = NameId(1);

const B: NameId = NameId(2);

const P: Ind = Ind {
    name: NameId(3),
    arity: 0,
};

// `a` exports and defines p/0, `b` passes on all of `a`, and `user` imports p/0 from `b`.
const ENTRIES: [Placed; 4] = [
    Placed {
        unit: 0,
        section: 1,
        byte: 10,
        module: A,
        role: Role::Exporting(P),
    },
    Placed {
        unit: 0,
        section: 2,
        byte: 20,
        module: B,
        role: Role::ReexportingAll(A),
    },
    Placed {
        unit: 0,
        section: 3,
        byte: 30,
        module: A,
        role: Role::Defining(P),
    },
    Placed {
        unit: 1,
        section: 0,
        byte: 5,
        module: USER,
        role: Role::Importing(B, P),
    },
];

const CAUSES: [Cause; 4] = [
    Cause {
        sort: Sort::Seeing,
        module: A,
        ind: P,
        unit: 0,
        byte: 30,
        definer: A,
    },
    Cause {
        sort: Sort::Giving,
        module: A,
        ind: P,
        unit: 0,
        byte: 10,
        definer: A,
    },
    Cause {
        sort: Sort::Giving,
        module: B,
        ind: P,
        unit: 0,
        byte: 20,
        definer: A,
    },
    Cause {
        sort: Sort::Seeing,
        module: USER,
        ind: P,
        unit: 1,
        byte: 5,
        definer: A,
    },
];

#[test]
fn causes_are_found(rt: HostRuntime) -> Result<(), Fail> {
    let causes = causes_of(rt.alloc(), &ENTRIES)?;
    assert_eq!(rt; causes.as_slice(), CAUSES.as_slice());
    Ok(())
}

// The unit of `a.`.
const FACT: &[u8; 70] =
    b"PLMU\x01\x00\x00\x00\x03\x00\x00\x00\x04user\x00\x00\x00\x01a\x00\x00\x00\x04true\x00\x00\x00\x00\x00\x00\x00\x01\x02\x00\x00\x00\x00\x00\x00\x00\x00\x00\x00\x00\x01\x08\x00\x00\x00\x00\x00\x00\x00\x00\x02\x00\x00\x00\x01\x02\x00\x00\x00\x02";

#[test]
fn units_are_flattened(rt: HostRuntime) -> Result<(), Fail> {
    let units = vec![in rt.alloc(); decode(rt.alloc(), FACT)?]?;
    let flat = flattened(rt.alloc(), &units)?;
    assert_eq!(rt; flat.entries.len(), 1);
    assert_eq!(rt; flat.names.find(b"user"), Some(NameId(0)));
    Ok(())
}

// Modules: `a` exports p/0 and r/0 and defines p/0, `b` passes on all of `a`, and `c` exports and defines p/0.
const MODULES: &[u8; 213] =
    b"PLMU\x01\x00\x00\x00\x07\x00\x00\x00\x04user\x00\x00\x00\x01a\x00\x00\x00\x01p\x00\x00\x00\x01r\x00\x00\x00\x04true\x00\x00\x00\x01b\x00\x00\x00\x01c\x00\x00\x00\x00\x00\x00\x00\x06\x02\x00\x00\x00\x00\x00\x00\x00\x00\x00\x00\x00\x00\x01\x00\x00\x00\x0a\x00\x00\x00\x01\x00\x00\x00\x02\x01\x00\x00\x00\x14\x00\x00\x00\x02\x00\x01\x00\x00\x00\x19\x00\x00\x00\x03\x00\x02\x00\x00\x00\x1e\x00\x00\x00\x01\x00\x00\x00\x01\x08\x00\x00\x00(\x00\x00\x00\x00\x02\x00\x00\x00\x02\x02\x00\x00\x00\x04\x01\x00\x00\x002\x00\x00\x00\x05\x00\x00\x00\x01\x02\x00\x00\x00<\x00\x00\x00\x01\x01\x00\x00\x00F\x00\x00\x00\x06\x00\x00\x00\x01\x01\x00\x00\x00P\x00\x00\x00\x02\x00\x02\x00\x00\x00Z\x00\x00\x00\x06\x00\x00\x00\x01\x08\x00\x00\x00d\x00\x00\x00\x00\x02\x00\x00\x00\x02\x02\x00\x00\x00\x04";

// A text that imports p/0 from `b` at byte 5 and all of `c` at 9, and defines p/0 at 12 and q/0 at 20.
const IMPORTS: &[u8; 151] =
    b"PLMU\x01\x00\x00\x00\x06\x00\x00\x00\x01b\x00\x00\x00\x01c\x00\x00\x00\x04user\x00\x00\x00\x01p\x00\x00\x00\x04true\x00\x00\x00\x01q\x00\x00\x00\x02\x00\x00\x00\x03\x00\x00\x00\x00\x00\x00\x00\x00\x00\x00\x00\x07\x00\x00\x00\x01\x00\x00\x00\x00\x00\x00\x00\x01\x02\x00\x00\x00\x00\x00\x00\x00\x02\x00\x00\x00\x04\x07\x00\x00\x00\x05\x00\x00\x00\x00\x00\x00\x00\x03\x00\x06\x00\x00\x00\x09\x00\x00\x00\x01\x08\x00\x00\x00\x0c\x00\x00\x00\x00\x02\x00\x00\x00\x03\x02\x00\x00\x00\x04\x08\x00\x00\x00\x14\x00\x00\x00\x00\x02\x00\x00\x00\x05\x02\x00\x00\x00\x04";

struct Lookup {
    home: &'static [u8],
    name: &'static [u8],
    arity: u8,
    definer: &'static [u8],
    is_given: bool,
}

macro_rules! lookups {
    ($(($home:literal, $name:literal, $arity:literal, $definer:literal, $is_given:literal),)*) => {
        [$(Lookup {
            home: $home,
            name: $name,
            arity: $arity,
            definer: $definer,
            is_given: $is_given,
        }),*]
    };
}

// Definers, empty where nothing is visible, and whether the module gives the procedure.
const LOOKUPS: [Lookup; 11] = lookups![
    (b"user", b"p", 0, b"a", false),
    (b"user", b"q", 0, b"user", false),
    (b"user", b"p", 1, b"", false),
    (b"a", b"p", 0, b"a", true),
    (b"a", b"r", 0, b"", false),
    (b"b", b"p", 0, b"", true),
    (b"c", b"p", 0, b"c", true),
    (b"c", b"unknown", 0, b"", false),
    (b"b", b"true", 0, b"system", false),
    (b"system", b"true", 0, b"system", false),
    (b"unknown", b"true", 0, b"", false),
];

const CLASHES: [Clash; 2] = [Clash { unit: 1, byte: 9 }, Clash { unit: 1, byte: 12 }];

const ROWS: [[&'static [u8]; 3]; 6] = [
    [b"a", b"p", b"a"],
    [b"c", b"p", b"c"],
    [b"user", b"p", b"a"],
    [b"user", b"p", b"c"],
    [b"user", b"p", b"user"],
    [b"user", b"q", b"user"],
];

// The text of a name, or none where the table has no such number.
fn text(names: &Names, id: NameId) -> &[u8] {
    if id.0 < names.len() {
        names.text(id)
    } else {
        b""
    }
}

fn visible(alloc: Global) -> Result<Visibility, Fail> {
    let units = vec![in alloc; decode(alloc, MODULES)?, decode(alloc, IMPORTS)?]?;
    Ok(Visibility::of(alloc, &units)?)
}

#[test]
fn procedures_are_looked_up(rt: HostRuntime) -> Result<(), Fail> {
    let visible = visible(rt.alloc())?;
    for (row, case) in LOOKUPS.iter().enumerate() {
        let definer = match visible.lookup(case.home, case.name, case.arity) {
            Some(definer) => text(visible.names(), definer),
            None => b"",
        };
        assert_eq!(rt; definer, case.definer, "at {row}");
        let is_given = visible.gives(case.home, case.name, case.arity);
        assert_eq!(rt; is_given, case.is_given, "at {row}");
    }
    Ok(())
}

#[test]
fn clashes_are_in_order(rt: HostRuntime) -> Result<(), Fail> {
    let visible = visible(rt.alloc())?;
    for (k, clash) in CLASHES.iter().enumerate() {
        assert_eq!(rt; visible.clash(k), Some(*clash));
    }
    assert_eq!(rt; visible.clash(CLASHES.len()), None);
    Ok(())
}

#[test]
fn rows_are_in_order(rt: HostRuntime) -> Result<(), Fail> {
    let visible = visible(rt.alloc())?;
    let rows = visible.rows(rt.alloc())?;
    assert_eq!(rt; rows.as_slice().len(), ROWS.len());
    for (row, want) in rows.as_slice().iter().zip(ROWS.iter()) {
        let [home, name, definer] = *want;
        assert_eq!(rt; text(visible.names(), row.module), home);
        assert_eq!(rt; text(visible.names(), row.ind.name), name);
        assert_eq!(rt; row.ind.arity, 0);
        assert_eq!(rt; text(visible.names(), row.definer), definer);
    }
    Ok(())
}
