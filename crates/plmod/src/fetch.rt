//! Fetching the files of a command.
ghost use Rattle.std.specs.Prelude.{◌≡◌, ℕ, ◌≤◌, List, IfOk, IsErrOf};
ghost use Rattle.plmod.specs.Meets.{AnyRose};
ghost use Rattle.plmod.specs.Fetched.{AreUnder};

use crate::status::Status;
use plm_io::{IoFault, Name, Shelf};
use search_model::ByteLists;
use std::alloc::Global;

/// The bytes of all these files, in order. The first refusal ends it.
pub fn fetch_all<S: Shelf>(
    alloc: Global,
    shelf: &mut S,
    names: &[Name],
) -> Result<ByteLists, IoFault>
    ensures found { IfOk result (λ contents. AreUnder (S.file shelf.old) names.now contents) }
    ensures cause { IsErrOf result IoFault.Failed → AnyRose names.now (S.fetch_faults shelf.old) (S.fetch_faults shelf.new) }
    ensures counts { (name : List ℕ) → S.fetch_faults shelf.old name ≤ S.fetch_faults shelf.new name }
    ensures files { S.file shelf.new ≡ S.file shelf.old }
    ensures puts { S.put_faults shelf.new ≡ S.put_faults shelf.old }
{
    let mut contents = ByteLists::new(alloc);
    for name in names {
        let bytes = shelf.fetch(alloc, name)?;
        contents.push(bytes)?;
    }
    Ok(contents)
}

/// The status of a fetch that was refused.
pub fn read_status(fault: IoFault) -> Status
    ensures failed { fault ≡ IoFault.Failed → result ≡ Status.ReadFault }
    ensures memory { fault ≡ IoFault.NoMemory → result ≡ Status.NoMemory }
{
    match fault {
        IoFault::Failed => Status::ReadFault,
        IoFault::NoMemory => Status::NoMemory,
    }
}
