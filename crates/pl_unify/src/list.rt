//! Lists that grow at their end.
ghost use Rattle.std.specs.Prelude.{◌≡◌, ◌+◌, ◌<◌, ◌≤◌, ◌++◌, ◌∷◌, [], OnOk, OnErr, vec_len, vec_capacity};

use pl_atoms::NoMemory;
use std::alloc::Global;
use std::mem;

/// Puts a value last.
pub fn push<T: Drop>(list: &mut Vec<T>, value: T) -> Result<(), NoMemory>
    ensures ok { OnOk result (list.new.items ≡ list.old.items ++ value ∷ []) }
    ensures err { OnErr result (list.new.items ≡ list.old.items) }
{
    make_room(list, 1)?;
    put(list, value);
    Ok(())
}

/// Makes room for `n` more values.
pub fn make_room<T>(list: &mut Vec<T>, n: usize) -> Result<(), NoMemory>
    ensures items { list.new.items ≡ list.old.items }
    ensures ok { OnOk result (vec_len list.new + n ≤ vec_capacity list.new) }
    ensures capacity { vec_capacity list.old ≤ vec_capacity list.new }
{
    // Tested here, since `reserve` is a call and there mostly is room.
    if n <= list.capacity() - list.len() {
        return Ok(());
    }
    match list.reserve(n) {
        Ok(()) => Ok(()),
        Err(_) => Err(NoMemory),
    }
}

/// Puts a value last, where there is room.
pub fn put<T: Drop>(list: &mut Vec<T>, value: T)
    requires { vec_len list.old < vec_capacity list.old }
    ensures items { list.new.items ≡ list.old.items ++ value ∷ [] }
    ensures len { vec_len list.new ≡ vec_len list.old + 1 }
    ensures capacity { vec_capacity list.old ≤ vec_capacity list.new }
{
    list.push_reserved(value);
}

/// Takes a list out, emptied, and leaves one without room.
pub fn take_list<T: Drop>(list: &mut Vec<T>, alloc: Global) -> Vec<T>
    ensures { result.items ≡ [] }
{
    let mut taken = mem::replace(list, Vec::new(alloc));
    taken.clear();
    taken
}
