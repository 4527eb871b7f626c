//! Numbers and other small fields, from the left of bytes.
ghost use Rattle.std.specs.Prelude.{◌≡◌, length};
ghost use Rattle.std.specs.Int.{w16, w32, w64};
ghost use Rattle.unit_format.specs.Reading.{number_at, byte_at, kind_at, operator_at, indicator_at, flag_at, section_kind_at, text_at};
ghost use Rattle.unit_model.specs.Views.{op_view, ind_view, kind_view};
ghost use Rattle.unit_format.specs.Views.{Gives};

use crate::fault::UnitFault;
use pl_atoms::NameId;
use pl_ops::Kind;
use unit_model::{Ind, OpDecl, SectionKind};

pub fn u8_at(bytes: &[u8]) -> Result<(u8, &[u8]), UnitFault>
    ensures { Gives (λ x. (x.0, x.1.now)) result (byte_at bytes.now) }
{
    match bytes {
        [] => Err(UnitFault::NotUnit),
        [b, rest @ ..] => Ok((*b, rest)),
    }
}

pub fn u16_at(bytes: &[u8]) -> Result<(u16, &[u8]), UnitFault>
    ensures { Gives (λ x. (x.0, x.1.now)) result (number_at w16 bytes.now) }
{
    if bytes.len() < 2 {
        return Err(UnitFault::NotUnit);
    }
    let (front, rest) = bytes.split_at(2);
    let number = u16::from_be_bytes([front[0], front[1]]);
    Ok((number, rest))
}

pub fn u32_at(bytes: &[u8]) -> Result<(u32, &[u8]), UnitFault>
    ensures { Gives (λ x. (x.0, x.1.now)) result (number_at w32 bytes.now) }
{
    if bytes.len() < 4 {
        return Err(UnitFault::NotUnit);
    }
    let (front, rest) = bytes.split_at(4);
    let number = u32::from_be_bytes([front[0], front[1], front[2], front[3]]);
    Ok((number, rest))
}

pub fn u64_at(bytes: &[u8]) -> Result<(u64, &[u8]), UnitFault>
    ensures { Gives (λ x. (x.0, x.1.now)) result (number_at w64 bytes.now) }
{
    if bytes.len() < 8 {
        return Err(UnitFault::NotUnit);
    }
    let (front, rest) = bytes.split_at(8);
    let number = u64::from_be_bytes([
        front[0], front[1], front[2], front[3], front[4], front[5], front[6], front[7],
    ]);
    Ok((number, rest))
}

/// A name by its place.
pub fn name_at(bytes: &[u8]) -> Result<(NameId, &[u8]), UnitFault>
    ensures { Gives (λ x. (x.0.0, x.1.now)) result (number_at w32 bytes.now) }
{
    let (number, rest) = u32_at(bytes)?;
    Ok((NameId(number as usize), rest))
}

#[tactic(auto, unfolding(crate::specs::Reading::kind_at))]
pub fn kind_at(bytes: &[u8]) -> Result<(Kind, &[u8]), UnitFault>
    ensures { Gives (λ x. (x.0, x.1.now)) result (kind_at bytes.now) }
{
    let (b, rest) = u8_at(bytes)?;
    match b {
        1 => Ok((Kind::Xfx, rest)),
        2 => Ok((Kind::Xfy, rest)),
        3 => Ok((Kind::Yfx, rest)),
        4 => Ok((Kind::Fx, rest)),
        5 => Ok((Kind::Fy, rest)),
        6 => Ok((Kind::Xf, rest)),
        7 => Ok((Kind::Yf, rest)),
        _ => Err(UnitFault::NotUnit),
    }
}

#[tactic(auto, unfolding(crate::specs::Reading::flag_at))]
pub fn flag_at(bytes: &[u8]) -> Result<(bool, &[u8]), UnitFault>
    ensures { Gives (λ x. (x.0, x.1.now)) result (flag_at bytes.now) }
{
    let (b, rest) = u8_at(bytes)?;
    match b {
        0 => Ok((false, rest)),
        1 => Ok((true, rest)),
        _ => Err(UnitFault::NotUnit),
    }
}

#[tactic(auto, unfolding(crate::specs::Reading::section_kind_at))]
pub fn section_kind_at(bytes: &[u8]) -> Result<(SectionKind, &[u8]), UnitFault>
    ensures { Gives (λ x. (kind_view x.0, x.1.now)) result (section_kind_at bytes.now) }
{
    let (b, rest) = u8_at(bytes)?;
    match b {
        1 => Ok((SectionKind::Interface, rest)),
        2 => Ok((SectionKind::Body, rest)),
        _ => Err(UnitFault::NotUnit),
    }
}

#[tactic(auto, unfolding(crate::specs::Reading::operator_at))]
pub fn operator_at(bytes: &[u8]) -> Result<(OpDecl, &[u8]), UnitFault>
    ensures { Gives (λ x. (op_view x.0, x.1.now)) result (operator_at bytes.now) }
{
    let (priority, rest) = u16_at(bytes)?;
    let (kind, rest) = kind_at(rest)?;
    let (name, rest) = name_at(rest)?;
    Ok((
        OpDecl {
            priority,
            kind,
            name,
        },
        rest,
    ))
}

#[tactic(auto, unfolding(crate::specs::Reading::indicator_at))]
pub fn indicator_at(bytes: &[u8]) -> Result<(Ind, &[u8]), UnitFault>
    ensures { Gives (λ x. (ind_view x.0, x.1.now)) result (indicator_at bytes.now) }
{
    let (name, rest) = name_at(bytes)?;
    let (arity, rest) = u8_at(rest)?;
    Ok((Ind { name, arity }, rest))
}

/// A length, and so many bytes.
#[tactic(auto, unfolding(crate::specs::Reading::text_at))]
pub fn text_at(bytes: &[u8]) -> Result<(&[u8], &[u8]), UnitFault>
    ensures { Gives (λ x. (x.0.now, x.1.now)) result (text_at bytes.now) }
{
    let (len, rest) = u32_at(bytes)?;
    let len = len as usize;
    if rest.len() < len {
        return Err(UnitFault::NotUnit);
    }
    Ok(rest.split_at(len))
}
