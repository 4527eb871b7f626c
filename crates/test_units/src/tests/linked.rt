//! Units that link, and units that don't.
use mod_linker::{LinkFault, link};
use std::alloc::Global;
use std::test::Fail;
use unit_format::decode;

// The unit of `a.`.
const FACT: &[u8] =
    b"PLMU\x01\x00\x00\x00\x03\x00\x00\x00\x04user\x00\x00\x00\x01a\x00\x00\x00\x04true\x00\x00\x00\x00\x00\x00\x00\x01\x02\x00\x00\x00\x00\x00\x00\x00\x00\x00\x00\x00\x01\x08\x00\x00\x00\x00\x00\x00\x00\x00\x02\x00\x00\x00\x01\x02\x00\x00\x00\x02";

// A module `m` that exports p/0, with a body of `p.`.
const MODULE: &[u8] =
    b"PLMU\x01\x00\x00\x00\x04\x00\x00\x00\x04user\x00\x00\x00\x01m\x00\x00\x00\x01p\x00\x00\x00\x04true\x00\x00\x00\x00\x00\x00\x00\x03\x02\x00\x00\x00\x00\x00\x00\x00\x00\x00\x00\x00\x00\x01\x00\x00\x00\x03\x00\x00\x00\x01\x00\x00\x00\x01\x01\x00\x00\x00\x09\x00\x00\x00\x02\x00\x02\x00\x00\x00\x14\x00\x00\x00\x01\x00\x00\x00\x01\x08\x00\x00\x00\x19\x00\x00\x00\x00\x02\x00\x00\x00\x02\x02\x00\x00\x00\x03";

// A text that needs `m` without operators and imports p/0 of it, at byte 5.
const IMPORT: &[u8] =
    b"PLMU\x01\x00\x00\x00\x03\x00\x00\x00\x01m\x00\x00\x00\x04user\x00\x00\x00\x01p\x00\x00\x00\x01\x00\x00\x00\x05\x00\x00\x00\x00\x00\x00\x00\x00\x00\x00\x00\x01\x02\x00\x00\x00\x00\x00\x00\x00\x01\x00\x00\x00\x01\x07\x00\x00\x00\x05\x00\x00\x00\x00\x00\x00\x00\x02\x00";

// What units become: how many modules, procedures and clauses there are, or the number, the unit and the byte of their first fault.
const CASES: [(&[&[u8]], Result<(usize, usize, usize), (u8, usize, usize)>); 4] = [
    (&[FACT], Ok((1, 1, 1))),
    (&[MODULE, IMPORT], Ok((2, 1, 1))),
    (&[IMPORT, MODULE], Err((2, 0, 5))),
    (&[FACT, MODULE, FACT], Err((8, 2, 0))),
];

fn linked(
    alloc: Global,
    texts: &[&[u8]],
) -> Result<Result<(usize, usize, usize), (u8, usize, usize)>, Fail> {
    let mut units = Vec::new(alloc);
    for text in texts {
        units.push(decode(alloc, text)?)?;
    }
    match link(alloc, &units) {
        Ok(program) => {
            let tables = program.tables();
            Ok(Ok((tables.modules(), tables.procedures(), tables.clauses())))
        }
        Err(LinkFault::Fault { number, unit, byte }) => Ok(Err((number, unit, byte))),
        Err(LinkFault::NoMemory) => Ok(Err((0, 0, 0))),
    }
}

#[test]
fn units_are_linked(rt: HostRuntime) -> Result<(), Fail> {
    for (texts, want) in &CASES {
        assert_eq!(rt; linked(rt.alloc(), texts)?, *want);
    }
    Ok(())
}
