//! The interface that a section gives.
ghost use Rattle.std.specs.Prelude.{◌≡◌, IfOk};
ghost use Rattle.unit_model.specs.Encoding.{text_at};
ghost use Rattle.unit_model.specs.Preparing.{operators_of};
ghost use Rattle.unit_model.specs.Entries.{entries_in};
ghost use Rattle.prep_texts.specs.Interfaces.{interface_view};

use crate::interfaces::{KnownInterface, KnownOperator};
use pl_atoms::{Bytes, Items, NameId, Names, NoMemory};
use pl_ops::Op;
use std::alloc::Global;
use term_walk::text;
use unit_model::{Entry, What};

/// The interface of this module with the operators of these entries, in their order.
pub fn interface_made(
    alloc: Global,
    names: &Names,
    name: NameId,
    entries: &[Entry],
) -> Result<KnownInterface, NoMemory>
    ensures { IfOk result (λ i. interface_view i ≡ record { of = text_at names.now name.0; operators = operators_of (entries_in names.now entries.now) }) }
{
    let mut operators: Items<KnownOperator> = Items::new(alloc);
    'taking: for entry in entries {
        if let What::Operator(declared) = &entry.what {
            operators.push(KnownOperator {
                op: Op {
                    priority: declared.priority,
                    kind: declared.kind,
                },
                name: Bytes::from_slice(alloc, text(names, declared.name))?,
            })?;
        }
    }
    Ok(KnownInterface {
        module: Bytes::from_slice(alloc, text(names, name))?,
        operators,
    })
}
