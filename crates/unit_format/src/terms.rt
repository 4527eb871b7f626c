//! Terms, from the left of bytes.
ghost use Rattle.std.specs.Prelude.{◌≡◌, ◌≤◌, ◌+◌, ◌*◌, ◌<◌, ◌^◌, length, IfOk, IfSome};
ghost use Rattle.unit_format.specs.Reading.{number_at, byte_at, cell_of, cell_at, cells_at, tree_at, arity_of};
ghost use Rattle.unit_format.specs.Views.{Gives};

use crate::fault::UnitFault;
use crate::numbers::{name_at, u8_at, u32_at, u64_at};
use pl_terms::{Cell, Term, TermBuf};
use std::alloc::Global;

fn cell_of(tag: u8, bytes: &[u8]) -> Result<(Cell, &[u8]), UnitFault>
    ensures { Gives (λ x. (x.0, x.1.now)) result (cell_of tag bytes.now) }
{
    match tag {
        0 => {
            let (number, rest) = u32_at(bytes)?;
            Ok((Cell::Var(number as usize), rest))
        }
        1 => {
            let (bits, rest) = u64_at(bytes)?;
            Ok((Cell::Int(bits.cast_signed()), rest))
        }
        2 => {
            let (name, rest) = name_at(bytes)?;
            Ok((Cell::Name(name), rest))
        }
        3 => {
            let (name, rest) = name_at(bytes)?;
            let (arity, rest) = u8_at(rest)?;
            if arity == 0 {
                return Err(UnitFault::NotUnit);
            }
            Ok((Cell::Comp(name, arity), rest))
        }
        _ => Err(UnitFault::NotUnit),
    }
}

#[tactic(auto, unfolding(crate::specs::Reading::cell_at))]
fn cell_at(bytes: &[u8]) -> Result<(Cell, &[u8]), UnitFault>
    ensures { Gives (λ x. (x.0, x.1.now)) result (cell_at bytes.now) }
{
    let (tag, rest) = u8_at(bytes)?;
    cell_of(tag, rest)
}

pub fn tree_at(alloc: Global, bytes: &[u8]) -> Result<(Term, &[u8]), UnitFault>
    ensures { Gives (λ x. (x.0, x.1.now)) result (tree_at bytes.now) }
{
    let mut cells = TermBuf::new(alloc);
    let mut wanted: usize = 1;
    let mut rest = bytes;
    while wanted > 0 {
        if wanted > rest.len() {
            return Err(UnitFault::NotUnit);
        }
        let (cell, after) = cell_at(rest)?;
        cells.push(cell)?;
        wanted = wanted - 1 + arity(cell);
        rest = after;
    }
    match cells.end() {
        Ok(term) => Ok((term, rest)),
        Err(_) => Err(UnitFault::NotUnit),
    }
}

/// How many arguments the term that begins with this cell has.
pub fn arity(cell: Cell) -> usize
    ensures value { result ≡ arity_of cell }
    ensures within { result < 256 }
{
    match cell {
        Cell::Comp(_, arity) => arity as usize,
        _ => 0,
    }
}
