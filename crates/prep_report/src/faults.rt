//! Lines on what was refused.
ghost use Rattle.std.specs.Prelude.{◌≡◌, IfOk};
ghost use Rattle.prep_report.specs.Lines.{fault_text, not_unit_text};

use itoa::Buffer;
use pl_atoms::{Bytes, NoMemory};
use std::alloc::Global;

/// `fault P4 in W at byte 13`: the fault's letter and number, the word where it is, and its byte.
///
/// The only error is want of memory.
pub fn fault_line(
    alloc: Global,
    letter: u8,
    number: u8,
    place: &[u8],
    byte: usize,
) -> Result<Bytes, NoMemory>
    ensures { IfOk result (λ line. line ≡ fault_text letter number place.now byte) }
{
    let mut buffer = Buffer::new();
    let mut line = Bytes::from_slice(alloc, b"fault ")?;
    line.push(letter)?;
    line.extend_from_slice(buffer.format(number).as_bytes())?;
    line.extend_from_slice(b" in ")?;
    line.extend_from_slice(place)?;
    line.extend_from_slice(b" at byte ")?;
    line.extend_from_slice(buffer.format(byte).as_bytes())?;
    line.push(b'\n')?;
    Ok(line)
}

/// `not a unit: W`.
///
/// The only error is want of memory.
pub fn not_unit_line(alloc: Global, name: &[u8]) -> Result<Bytes, NoMemory>
    ensures { IfOk result (λ line. line ≡ not_unit_text name.now) }
{
    let mut line = Bytes::from_slice(alloc, b"not a unit: ")?;
    line.extend_from_slice(name)?;
    line.push(b'\n')?;
    Ok(line)
}
