//! Texts that are prepared together.
ghost use Rattle.std.specs.Prelude.{◌≤◌, List, length, map, IfOk, IfErr};
ghost use Rattle.std.specs.List.{All};
ghost use Rattle.unit_model.specs.Facts.{Facts};
ghost use Rattle.unit_model.specs.Directives.{Text};
ghost use Rattle.link_model.specs.Texts.{program, WholeIs};
ghost use Rattle.mod_linker.specs.Linking.{IsLinkOf};
ghost use Rattle.plmod.specs.Together.{ArePrepared, IsWholeFault};

use mod_linker::{LinkFault, link};
use pl_atoms::{Bytes, NoMemory};
use pl_store::Program;
use prep_texts::{Known, PrepFault, prepare};
use std::alloc::Global;
use thiserror::Error;
use unit_format::Unit;

/// What comes of preparing texts together.
#[derive(Drop)]
pub enum Together {
    /// The first text that has a fault, with the fault's number and its byte.
    Faulty {
        number: u8,
        text: usize,
        byte: usize,
    },
    /// Their units.
    All(Vec<Unit>),
}

/// Why texts are no program.
#[derive(Clone, Copy, Debug, PartialEq, Eq, Error)]
pub enum WholeFault {
    /// The first text that has a fault, with the fault's number and its byte.
    #[error("fault {number} in text {text} at byte {byte}")]
    Prep {
        number: u8,
        text: usize,
        byte: usize,
    },
    /// The first link fault of their units.
    #[error("link fault {number} in unit {unit} at byte {byte}")]
    Link {
        number: u8,
        unit: usize,
        byte: usize,
    },
    /// A growth was refused.
    #[error("no memory")]
    NoMemory,
}

impl From<NoMemory> for WholeFault {
    ghost use Rattle.std.specs.Prelude.{◌≡◌};
    ghost use Rattle.plmod.specs.declared.whole_texts.WholeFault.TheVariants.{NoMemory as OutOfMemory};

    ghost from_gives = { λ _ e. e ≡ OutOfMemory };

    fn from(_e: NoMemory) -> WholeFault {
        WholeFault::NoMemory
    }
}

/// The program of texts, each of which is prepared where the interfaces of those before it are known (ISO/IEC 13211-2, 6.1 and 6.2).
///
/// Prep: the first text that has a fault. Link: the first link fault of the units. NoMemory: a growth was refused.
pub fn whole(alloc: Global, texts: &[Bytes]) -> Result<Program, WholeFault>
    requires { All (λ t. length t ≤ 67108864) texts.now }
    ensures program { IfOk result (λ p. (us : List (Facts Text)) × WholeIs texts.now (program us) × IsLinkOf us p) }
    ensures fault { IfErr result (IsWholeFault texts.now) }
{
    match prepare_together(alloc, texts)? {
        Together::Faulty { number, text, byte } => Err(WholeFault::Prep { number, text, byte }),
        Together::All(units) => match link(alloc, units.as_slice()) {
            Ok(program) => Ok(program),
            Err(LinkFault::Fault { number, unit, byte }) => {
                Err(WholeFault::Link { number, unit, byte })
            }
            Err(LinkFault::NoMemory) => Err(WholeFault::NoMemory),
        },
    }
}

/// The units of texts, each prepared where the interfaces of those before it are known, or the first text that has a fault.
pub fn prepare_together(alloc: Global, texts: &[Bytes]) -> Result<Together, NoMemory>
    requires { All (λ t. length t ≤ 67108864) texts.now }
    ensures { IfOk result (ArePrepared texts.now) }
{
    let mut known = Known::new(alloc);
    let mut units = Vec::new(alloc);
    for place in 0..texts.len() {
        match prepare(alloc, texts[place].as_slice(), &known) {
            Ok(unit) => {
                known.add(&unit)?;
                units.push(unit)?;
            }
            Err(PrepFault::Fault { number, byte }) => {
                return Ok(Together::Faulty {
                    number,
                    text: place,
                    byte,
                });
            }
            Err(PrepFault::NoMemory) => return Err(NoMemory),
        }
    }
    Ok(Together::All(units))
}
