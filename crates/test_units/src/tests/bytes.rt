//! Units whose bytes are known from elsewhere.
use std::alloc::Global;
use std::test::Fail;
use unit_format::{UnitFault, decode, encode};

// The unit of the empty text.
const EMPTY: &[u8; 38] =
    b"PLMU\x01\x00\x00\x00\x01\x00\x00\x00\x04user\x00\x00\x00\x00\x00\x00\x00\x01\x02\x00\x00\x00\x00\x00\x00\x00\x00\x00\x00\x00\x00";

// The unit of `a.`.
const FACT: &[u8; 70] =
    b"PLMU\x01\x00\x00\x00\x03\x00\x00\x00\x04user\x00\x00\x00\x01a\x00\x00\x00\x04true\x00\x00\x00\x00\x00\x00\x00\x01\x02\x00\x00\x00\x00\x00\x00\x00\x00\x00\x00\x00\x01\x08\x00\x00\x00\x00\x00\x00\x00\x00\x02\x00\x00\x00\x01\x02\x00\x00\x00\x02";

// The unit of `true :- a.`: the names stand the other way round.
const RULE: &[u8; 70] =
    b"PLMU\x01\x00\x00\x00\x03\x00\x00\x00\x04user\x00\x00\x00\x04true\x00\x00\x00\x01a\x00\x00\x00\x00\x00\x00\x00\x01\x02\x00\x00\x00\x00\x00\x00\x00\x00\x00\x00\x00\x01\x08\x00\x00\x00\x00\x00\x00\x00\x00\x02\x00\x00\x00\x01\x02\x00\x00\x00\x02";

// The names of `a.`, whose cells use them the other way round.
const EXCHANGED: &[u8; 70] =
    b"PLMU\x01\x00\x00\x00\x03\x00\x00\x00\x04user\x00\x00\x00\x01a\x00\x00\x00\x04true\x00\x00\x00\x00\x00\x00\x00\x01\x02\x00\x00\x00\x00\x00\x00\x00\x00\x00\x00\x00\x01\x08\x00\x00\x00\x00\x00\x00\x00\x00\x02\x00\x00\x00\x02\x02\x00\x00\x00\x01";

fn comes_back(alloc: Global, bytes: &[u8]) -> Result<bool, Fail> {
    let unit = decode(alloc, bytes)?;
    let again = encode(alloc, &unit)?;
    Ok(again.as_slice() == bytes)
}

fn is_no_unit(alloc: Global, bytes: &[u8]) -> bool {
    match decode(alloc, bytes) {
        Ok(_) => false,
        Err(UnitFault::NotUnit) => true,
        Err(UnitFault::NoMemory) => false,
    }
}

#[test]
fn units_come_back(rt: HostRuntime) -> Result<(), Fail> {
    assert!(rt; comes_back(rt.alloc(), EMPTY)?);
    assert!(rt; comes_back(rt.alloc(), FACT)?);
    assert!(rt; comes_back(rt.alloc(), RULE)?);
    Ok(())
}

#[test]
fn others_are_no_units(rt: HostRuntime) {
    assert!(rt; is_no_unit(rt.alloc(), EXCHANGED));
    for end in 0..FACT.len() {
        assert!(rt; is_no_unit(rt.alloc(), &FACT[..end]));
    }
}
