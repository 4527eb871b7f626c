//! Lists that grow at their end.
ghost use Rattle.std.specs.Prelude.{◌≡◌, ◌+◌, ◌<◌, ◌≤◌, ◌++◌, ◌∷◌, [], OnOk, vec_len, vec_capacity};

use pl_atoms::NoMemory;

/// Makes room for one more value.
pub fn make_room<T>(list: &mut Vec<T>) -> Result<(), NoMemory>
    ensures items { list.new.items ≡ list.old.items }
    ensures ok { OnOk result (vec_len list.new + 1 ≤ vec_capacity list.new) }
{
    match list.reserve(1) {
        Ok(()) => Ok(()),
        Err(_) => Err(NoMemory),
    }
}

/// Puts a value last, where there is room.
pub fn put<T: Drop>(list: &mut Vec<T>, value: T)
    requires { vec_len list.old < vec_capacity list.old }
    ensures items { list.new.items ≡ list.old.items ++ value ∷ [] }
{
    if list.push(value).is_err() {
        unreachable!();
    }
}
