//! What a shelf and a sink are.
ghost use Rattle.std.specs.Prelude.{◌≡◌, ◌≢◌, ℕ, ◌≤◌, ◌<◌, List, length, Option, Some, IfSome, IfOk, OnOk, OnErr, option_map};
ghost use Rattle.std.specs.Io.KnownBytes.{Appends};
ghost use Rattle.plm_io.specs.Causes.{HasCause, AppendsFront};

use pl_atoms::{Bytes, Name, NoMemory};
use std::alloc::{AllocError, AllocFailed, Global};

/// The most bytes of a file.
pub const MOST_BYTES: usize = 67_108_864;

/// Why a call on a shelf or a sink was refused.
#[derive(Clone, Copy, Debug, PartialEq, Eq)]
pub enum IoFault {
    /// The outside failed.
    Failed,
    /// A growth was refused.
    NoMemory,
}

impl From<AllocError> for IoFault {
    ghost use Rattle.plm_io.specs.declared.traits.IoFault.TheVariants.{NoMemory as OutOfMemory};

    ghost from_gives = { λ _ e. e ≡ OutOfMemory };

    fn from(_e: AllocError) -> IoFault {
        IoFault::NoMemory
    }
}

impl<T: Drop> From<AllocFailed<T>> for IoFault {
    ghost use Rattle.plm_io.specs.declared.traits.IoFault.TheVariants.{NoMemory as OutOfMemory};

    ghost from_gives = { λ _ e. e ≡ OutOfMemory };

    fn from(_e: AllocFailed<T>) -> IoFault {
        IoFault::NoMemory
    }
}

impl From<NoMemory> for IoFault {
    ghost use Rattle.plm_io.specs.declared.traits.IoFault.TheVariants.{NoMemory as OutOfMemory};

    ghost from_gives = { λ _ e. e ≡ OutOfMemory };

    fn from(_e: NoMemory) -> IoFault {
        IoFault::NoMemory
    }
}

/// Files by name. Each name has a count of the fetches that failed, and there is one count of the
/// puts that failed. No count falls.
pub trait Shelf {
    /// Under a name: no value where the shelf doesn't tell, else the bytes there, or none.
    ghost file: { Self → List ℕ → Option (Option (List ℕ)) };

    ghost fetch_faults: { Self → List ℕ → ℕ };

    ghost put_faults: { Self → ℕ };

    /// The bytes under the name.
    fn fetch(&mut self, alloc: Global, name: &Name) -> Result<Bytes, IoFault>
        ensures found { IfOk result (λ bytes. IfSome (file self.old name.now) (λ told. told ≡ Some bytes)) }
        ensures limit { IfOk result (λ bytes. length bytes ≤ MOST_BYTES) }
        ensures files { file self.new ≡ file self.old }
        ensures cause { HasCause (fetch_faults self.old name.now) (fetch_faults self.new name.now) result }
        ensures counts { (other : List ℕ) → fetch_faults self.old other ≤ fetch_faults self.new other }
        ensures puts { put_faults self.new ≡ put_faults self.old };

    /// Puts these bytes under the name. A refusal leaves that name open.
    fn put(&mut self, alloc: Global, name: &Name, bytes: &[u8]) -> Result<(), IoFault>
        requires { length bytes.now ≤ MOST_BYTES }
        ensures stored { OnOk result (file self.new name.now ≡ option_map (λ _. Some bytes.now) (file self.old name.now)) }
        ensures others { (other : List ℕ) → other ≢ name.now → file self.new other ≡ file self.old other }
        ensures cause { HasCause (put_faults self.old) (put_faults self.new) result }
        ensures fetches { fetch_faults self.new ≡ fetch_faults self.old };
}

/// An output, with one count of the puts that failed, which never falls.
pub trait Sink {
    /// The bytes so far, where the sink tells them.
    ghost written: { Self → Option (List ℕ) };

    ghost faults: { Self → ℕ };

    /// Puts these bytes at the end. A refusal puts a front of them there.
    fn put(&mut self, alloc: Global, bytes: &[u8]) -> Result<(), IoFault>
        requires { 0 < length bytes.now }
        ensures all { OnOk result (Appends (written self.old) (written self.new) bytes.now) }
        ensures front { OnErr result (AppendsFront (written self.old) (written self.new) bytes.now) }
        ensures cause { HasCause (faults self.old) (faults self.new) result };
}
