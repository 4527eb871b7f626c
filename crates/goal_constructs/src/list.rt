//! Lists that grow at their end.
ghost use Rattle.std.specs.Prelude.{◌≡◌, ◌++◌, ◌∷◌, [], OnOk};

use pl_atoms::NoMemory;

/// Puts a value last.
pub fn push<T: Drop>(list: &mut Vec<T>, value: T) -> Result<(), NoMemory>
    ensures ok { OnOk result (list.new.items ≡ list.old.items ++ value ∷ []) }
{
    match list.push(value) {
        Ok(()) => Ok(()),
        Err(_) => Err(NoMemory),
    }
}
