//! Units whose bytes are known from elsewhere, from facts with other numbers for their names.
ghost use Rattle.std.specs.Prelude.{◌≡◌, [], length, IfOk};
ghost use Rattle.unit_model.specs.Encoding.{facts_in};
ghost use Rattle.unit_model.specs.Views.{facts_view};
ghost use Rattle.unit_format.specs.Views.{unit_facts};
ghost use Rattle.unit_model.specs.Entries.{FactsBelow};
ghost use Rattle.unit_order.specs.Numbering.{all_noted, down_from};

use crate::numbering::Numbering;
use crate::ordered;
use crate::ordering::table_of;
use crate::renumbering::numbered_facts;
use pl_atoms::{NameId, Names, NoMemory};
use std::alloc::Global;
use std::test::Fail;
use unit_format::{Unit, decode, encode};
use unit_model::Facts;

// The unit of the empty text.
const EMPTY: &[u8; 38] =
    b"PLMU\x01\x00\x00\x00\x01\x00\x00\x00\x04user\x00\x00\x00\x00\x00\x00\x00\x01\x02\x00\x00\x00\x00\x00\x00\x00\x00\x00\x00\x00\x00";

// The unit of `a.`.
const FACT: &[u8; 70] =
    b"PLMU\x01\x00\x00\x00\x03\x00\x00\x00\x04user\x00\x00\x00\x01a\x00\x00\x00\x04true\x00\x00\x00\x00\x00\x00\x00\x01\x02\x00\x00\x00\x00\x00\x00\x00\x00\x00\x00\x00\x01\x08\x00\x00\x00\x00\x00\x00\x00\x00\x02\x00\x00\x00\x01\x02\x00\x00\x00\x02";

// The unit of a text with an entry of each kind, and a need with an operator.
const EACH: &[u8; 286] =
    b"PLMU\x01\x00\x00\x00\n\x00\x00\x00\x01m\x00\x00\x00\x04===>\x00\x00\x00\x04user\x00\x00\x00\x01n\x00\x00\x00\x01q\x00\x00\x00\x01p\x00\x00\x00\x03**>\x00\x00\x00\x01f\x00\x00\x00\x01,\x00\x00\x00\x01r\x00\x00\x00\x01\x00\x00\x00\x1e\x00\x00\x00\x00\x00\x00\x00\x01\x02\xbc\x01\x00\x00\x00\x01\x00\x00\x00\x03\x02\x00\x00\x00\x00\x00\x00\x00\x02\x00\x00\x00\x00\x01\x00\x00\x00\x00\x00\x00\x00\x03\x00\x00\x00\x05\x01\x00\x00\x00\x0e\x00\x00\x00\x04\x02\x02\x00\x00\x00\x1e\x00\x00\x00\x00\x03\x00\x00\x00.\x00\x00\x00\x00\x00\x00\x00\x05\x01\x04\x00\x00\x00C\x00\x00\x00\x04\x02\x00\x01\x05\x00\x00\x00^\x00\xc8\x02\x00\x00\x00\x06\x02\x00\x00\x00\x86\x00\x00\x00\x03\x00\x00\x00\x03\x06\x00\x00\x00\x92\x00\x00\x00\x00\x07\x00\x00\x00\xa0\x00\x00\x00\x00\x00\x00\x00\x05\x01\x08\x00\x00\x00\xb3\x00\x00\x00\x02\x03\x00\x00\x00\x04\x02\x00\x00\x00\x00\x00\x03\x00\x00\x00\x07\x03\x00\x00\x00\x00\x00\x00\x00\x00\x00\x01\x01\xff\xff\xff\xff\xff\xff\xff\xf9\x03\x00\x00\x00\x08\x02\x03\x00\x00\x00\x05\x01\x00\x00\x00\x00\x00\x03\x00\x00\x00\t\x01\x00\x00\x00\x00\x01";

/// The numbers below `count`, the last first.
fn turned(alloc: Global, count: usize) -> Result<Numbering, NoMemory>
    ensures { IfOk result (λ used. used ≡ all_noted [] (down_from count)) }
{
    let mut used = Numbering::with_room(alloc, count)?;
    for place in 0..count {
        used.note(NameId(count - 1 - place))?;
    }
    Ok(used)
}

/// The facts of a unit with its names turned round, and one more, which they do not use.
fn shuffled(alloc: Global, unit: &Unit, unused: &[u8]) -> Result<(Names, Facts), NoMemory>
    ensures below { IfOk result (λ x. FactsBelow (length x.0) (facts_view x.1)) }
    ensures same { IfOk result (λ x. facts_in x.0 (facts_view x.1) ≡ unit_facts unit.now) }
{
    let count = unit.names.len();
    let used = turned(alloc, count)?;
    let numbers = used.names();
    let mut names = table_of(alloc, &unit.names, numbers)?;
    let facts = numbered_facts(alloc, &used, &unit.facts)?;
    names.intern(unused)?;
    Ok((names, facts))
}

fn comes_back(alloc: Global, bytes: &[u8]) -> Result<bool, Fail> {
    let unit = decode(alloc, bytes)?;
    let (names, facts) = shuffled(alloc, &unit, b"unused")?;
    let again = ordered(alloc, &names, facts)?;
    let out = encode(alloc, &again)?;
    Ok(out.as_slice() == bytes)
}

#[test]
fn units_come_back(rt: HostRuntime) -> Result<(), Fail> {
    assert!(rt; comes_back(rt.alloc(), EMPTY)?);
    assert!(rt; comes_back(rt.alloc(), FACT)?);
    assert!(rt; comes_back(rt.alloc(), EACH)?);
    Ok(())
}
