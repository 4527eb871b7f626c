use super::*;
use pl_atoms::ascending;
use std::test::Fail;

#[test]
fn declarations_are_refused(rt: HostRuntime) -> Result<(), Fail> {
    let mut table = OpTable::standard(rt.alloc())?;
    for (priority, kind, name, cause) in [
        (1201, "xfx", "===>", OpRefusal::NotPriority),
        (-1, "xfx", "===>", OpRefusal::NotPriority),
        (700, "abc", "x", OpRefusal::NotKind),
        (700, "xfx", ",", OpRefusal::Comma),
        (700, "xfx", "|", OpRefusal::Bar),
        (700, "xfx", "[]", OpRefusal::Brackets),
        (700, "xfx", "{}", OpRefusal::Brackets),
        (200, "xf", "+", OpRefusal::InfixPostfix),
    ] {
        let answer = table.add(priority, kind.as_bytes(), name.as_bytes());
        assert_eq!(rt; answer, Err(cause), "for {name}");
    }
    Ok(())
}

#[test]
fn operators_come_and_go(rt: HostRuntime) -> Result<(), Fail> {
    let mut table = OpTable::standard(rt.alloc())?;
    let is = Op {
        priority: 700,
        kind: Kind::Xfx,
    };
    assert_eq!(rt; table.infix(b"is"), Some(is));
    table.add(0, b"xfx", b"is")?;
    assert_eq!(rt; table.infix(b"is"), None);
    table.add(200, b"xf", b"is")?;
    let postfix = Op {
        priority: 200,
        kind: Kind::Xf,
    };
    assert_eq!(rt; table.postfix(b"is"), Some(postfix));
    assert_eq!(rt; table.prefix(b"is"), None);
    Ok(())
}

#[test]
fn standard_operators_ascend(rt: HostRuntime) {
    assert!(rt; ascending(standard::standard_rows()));
}
