//! Causes at the first places.
ghost use Rattle.std.specs.Prelude.{◌≡◌, [], Some, IfOk, OnOk, if◌then◌else◌};
ghost use Rattle.std.specs.Map.{lookup};
ghost use Rattle.mod_visible.specs.declared.keys.Key.{Key};
ghost use Rattle.mod_visible.specs.Leasts.{key_of, same_key, is_before, is_upto, lower, differs, is_wanted, AreLeasts};

use crate::cause::Cause;
use crate::keys::Key;
use indexmap::IndexMap;
use pl_atoms::NoMemory;
use std::alloc::Global;

/// For each key the cause at the first place, among some causes.
#[derive(Drop)]
pub struct Leasts {
    pub causes: IndexMap<Key, Cause>,
}

impl Leasts {
    /// No causes.
    pub fn new(alloc: Global) -> Leasts
        ensures { result.causes.entries ≡ [] }
    {
        Leasts {
            causes: IndexMap::new(alloc),
        }
    }

    /// The cause for a key.
    pub fn get(&self, key: Key) -> Option<Cause>
        ensures { result ≡ lookup (same_key key) self.now.causes.entries }
    {
        match self.causes.get(&key) {
            Some(cause) => Some(*cause),
            None => None,
        }
    }

    fn put(&mut self, key: Key, cause: Cause) -> Result<(), NoMemory>
        ensures { OnOk result ((k : Key) → lookup (same_key k) self.new.causes.entries ≡ (if same_key key k then Some cause else lookup (same_key k) self.old.causes.entries)) }
    {
        self.causes.insert(key, cause)?;
        Ok(())
    }

    // Keeps this cause, where it comes before the one for its key.
    fn add(&mut self, cause: Cause) -> Result<(), NoMemory>
        ensures { OnOk result ((k : Key) → lookup (same_key k) self.new.causes.entries ≡ (if same_key (key_of cause) k then Some (lower (lookup (same_key (key_of cause)) self.old.causes.entries) cause) else lookup (same_key k) self.old.causes.entries)) }
    {
        let key = Key::of(&cause);
        let least = lower(self.get(key), cause);
        self.put(key, least)
    }
}

/// The causes at the first places, among those whose definer isn't that of the cause which another table has for their key.
pub fn leasts_of(alloc: Global, causes: &[Cause], table: &Leasts) -> Result<Leasts, NoMemory>
    ensures { IfOk result (λ l. AreLeasts table.now.causes.entries causes.now l.causes.entries) }
{
    let mut leasts = Leasts::new(alloc);
    for cause in causes {
        if is_wanted(table, cause) {
            leasts.add(*cause)?;
        }
    }
    Ok(leasts)
}

// Whether a cause's definer is another than that of the cause in a table.
fn is_wanted(table: &Leasts, cause: &Cause) -> bool
    ensures { result ≡ is_wanted table.now.causes.entries cause.now }
{
    differs(table.get(Key::of(cause)), cause)
}

fn differs(other: Option<Cause>, cause: &Cause) -> bool
    ensures { result ≡ differs other cause.now }
{
    match other {
        Some(other) => other.definer.0 != cause.definer.0,
        None => true,
    }
}

// The cause at the earlier place, the first of two at one place.
fn lower(other: Option<Cause>, cause: Cause) -> Cause
    ensures { result ≡ lower other cause }
{
    match other {
        Some(other) => earlier(other, cause),
        None => cause,
    }
}

fn earlier(other: Cause, cause: Cause) -> Cause
    ensures { result ≡ (if is_before cause other then cause else other) }
{
    if is_before(&cause, &other) {
        cause
    } else {
        other
    }
}

fn is_before(cause: &Cause, other: &Cause) -> bool
    ensures { result ≡ is_before cause.now other.now }
{
    cause.unit < other.unit || (cause.unit == other.unit && cause.byte < other.byte)
}

/// Whether a cause's place is that of another, or an earlier one.
pub fn is_upto(cause: &Cause, other: &Cause) -> bool
    ensures { result ≡ is_upto cause.now other.now }
{
    cause.unit < other.unit || (cause.unit == other.unit && !(other.byte < cause.byte))
}
