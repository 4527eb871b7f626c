use super::*;
use std::test::Fail;

#[test]
fn names_have_numbers(rt: HostRuntime) -> Result<(), Fail> {
    let mut names = Names::new(rt.alloc());
    assert!(rt; names.is_empty());
    for (text, want) in [(b"is", 0), (b"or", 1), (b"is", 0)] {
        assert_eq!(rt; names.intern(text)?, NameId(want));
    }
    assert_eq!(rt; names.len(), 2);
    assert_eq!(rt; names.text(NameId(1)), b"or".as_slice());
    assert_eq!(rt; names.find(b"or"), Some(NameId(1)));
    assert_eq!(rt; names.find(b"o"), None);
    Ok(())
}

#[test]
fn names_are_remapped(rt: HostRuntime) -> Result<(), Fail> {
    let mut from = Names::new(rt.alloc());
    from.intern(b"p")?;
    from.intern(b"q")?;
    let mut into = Names::new(rt.alloc());
    into.intern(b"q")?;
    let remap = Remap::of(rt.alloc(), &from, &mut into)?;
    assert_eq!(rt; remap.get(NameId(0)), NameId(1));
    assert_eq!(rt; remap.get(NameId(1)), NameId(0));
    Ok(())
}

const ROWS: [CaseRow; 3] = [
    CaseRow {
        name: b"+",
        arity: 2,
        value: 500,
    },
    CaseRow {
        name: b"-",
        arity: 1,
        value: 200,
    },
    CaseRow {
        name: b"-",
        arity: 2,
        value: 500,
    },
];

#[test]
fn cases_are_found(rt: HostRuntime) {
    let table = CaseTable::new(&ROWS);
    assert_eq!(rt; table.find(b"+", 2), Some(0));
    assert_eq!(rt; table.find(b"-", 1), Some(1));
    assert_eq!(rt; table.find(b"-", 2), Some(2));
    assert_eq!(rt; table.find(b"+", 1), None);
    assert_eq!(rt; table.find(b"", 2), None);
}

#[test]
fn rows_ascend(rt: HostRuntime) {
    assert!(rt; ascending(&ROWS));
    assert!(rt; !ascending(&[ROWS[0], ROWS[0]]));
    assert!(rt; !ascending(&[ROWS[2], ROWS[1]]));
}
