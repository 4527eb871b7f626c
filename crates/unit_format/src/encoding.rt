//! Bytes from units.
ghost use Rattle.std.specs.Prelude.{◌≡◌, ◌<◌, ◌≤◌, length, IfOk, IfErr, MatchResult};
ghost use Rattle.unit_model.specs.Encoding.{encoding, unit_bytes};
ghost use Rattle.unit_model.specs.Views.{facts_view};
ghost use Rattle.unit_format.specs.Spelling.{IsFit};
ghost use Rattle.unit_format.specs.Views.{unit_facts};
ghost use Rattle.unit_format.specs.declared.fault.EncodeFault.TheVariants.{TooLong as IsTooLong};

use crate::decoding::LIMIT;
use crate::fault::EncodeFault;
use crate::unit::Unit;
use crate::writing::{put_names, put_needs, put_sections};
use pl_atoms::{Bytes, Names, NoMemory};
use std::alloc::Global;
use unit_model::Facts;

fn written(alloc: Global, names: &Names, facts: &Facts) -> Result<Bytes, NoMemory>
    requires { IsFit names.now (facts_view facts.now) }
    ensures { IfOk result (λ b. b ≡ unit_bytes names.now (facts_view facts.now)) }
{
    let mut out = Bytes::new(alloc);
    out.extend_from_slice(b"PLMU\x01")?;
    put_names(&mut out, names)?;
    put_needs(&mut out, facts.needs.as_slice())?;
    put_sections(&mut out, facts.sections.as_slice())?;
    Ok(out)
}

/// The bytes of a unit. `TooLong`: they are more than 67,108,864.
pub fn encode(alloc: Global, unit: &Unit) -> Result<Bytes, EncodeFault>
    // They are its facts' only encoding.
    ensures encoding { IfOk result (λ b. b ≡ encoding (unit_facts unit.now)) }
    ensures within { IfOk result (λ b. length b ≤ 67108864) }
    ensures too_long { IfErr result (λ e. e ≡ IsTooLong → 67108864 < length (encoding (unit_facts unit.now))) }
{
    let bytes = written(alloc, &unit.names, &unit.facts)?;
    if bytes.as_slice().len() > LIMIT {
        return Err(EncodeFault::TooLong);
    }
    Ok(bytes)
}
