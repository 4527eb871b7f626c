//! Whole runs.
ghost use Rattle.std.specs.Prelude.{◌≡◌, ◌≤◌, ℕ, true, false, IfOk, OnOk, OnErr, IsErrOf};
ghost use Rattle.std.specs.Io.KnownBytes.{Appends};
ghost use Rattle.plm_io.specs.Causes.{Rose, AppendsFront};
ghost use Rattle.pl_machine.specs.Machine.{IsMachine};
ghost use Rattle.pl_machine.specs.Running.{Outcomes, Remains, Ran, Same, with_left, shown_by, bytes_by};
ghost use Rattle.pl_machine.specs.Broken.{Broke};

use crate::fault::RunFault;
use crate::machine::Machine;
use crate::moves::Progress;
use pl_atoms::Bytes;
use plm_io::{IoFault, Sink};
use prep_report::End2 as End;
use std::alloc::Global;

/// What a run writes.
#[derive(Clone, Copy, Debug, PartialEq, Eq)]
pub enum Show {
    /// The goals' output and a line for each answer.
    Lines,
    /// Nothing. Steps and answers are counted alone.
    Count,
}

impl Machine {
    /// Goes on to the end of the run.
    ///
    /// WriteFault: a put on the output failed. The machine has then taken the steps up to the event that was to be put, and no more.
    /// NoMemory: a growth was refused, or the run has more moves than a u64 counts: no run comes to that.
    pub fn run<O: Sink>(&mut self, alloc: Global, out: &mut O, show: Show) -> Result<End, RunFault>
        requires machine { IsMachine self.old }
        requires over { self.old.over ≡ false }
        ensures over { OnOk result (self.new.over ≡ true) }
        ensures machine { IfOk result (λ e. IsMachine self.new) }
        ensures ran { IfOk result (λ e. (r : Outcomes) → Remains self.old r → Ran self.old self.new e r) }
        ensures all { OnOk result ((r : Outcomes) → Remains self.old r → Appends (O.written out.old) (O.written out.new) (shown_by self.old show r.events)) }
        ensures front { OnErr result ((r : Outcomes) → Remains self.old r → AppendsFront (O.written out.old) (O.written out.new) (shown_by self.old show r.events)) }
        ensures later { O.faults out.old ≤ O.faults out.new }
        ensures cause { IsErrOf result RunFault.WriteFault → Rose (O.faults out.old) (O.faults out.new) }
        ensures broke { IsErrOf result RunFault.WriteFault → IsMachine self.new × Same self.old self.new × ((outcome : ℕ → Outcomes) → ((left : ℕ) → Remains (with_left self.old left) (outcome left)) → Broke self.old self.new (O.written out.old) (O.written out.new) outcome) }
    {
        'moves: for _ in 0..u64::MAX {
            let mut text = Bytes::new(alloc);
            match self.proceed(alloc, &mut text)? {
                Progress::Goal => {}
                Progress::Shown => put(alloc, out, text.as_slice(), show)?,
                Progress::Ended(end) => {
                    self.over = true;
                    return Ok(end);
                }
            }
        }
        Err(RunFault::NoMemory)
    }
}

// Puts what was shown onto the output.
fn put<O: Sink>(alloc: Global, out: &mut O, bytes: &[u8], show: Show) -> Result<(), RunFault>
    ensures all { OnOk result (Appends (O.written out.old) (O.written out.new) (bytes_by show bytes.now)) }
    ensures front { OnErr result (AppendsFront (O.written out.old) (O.written out.new) (bytes_by show bytes.now)) }
    ensures later { O.faults out.old ≤ O.faults out.new }
    ensures cause { IsErrOf result RunFault.WriteFault → Rose (O.faults out.old) (O.faults out.new) }
    ensures lines { IsErrOf result RunFault.WriteFault → show ≡ Show.Lines }
{
    if show == Show::Count || bytes.is_empty() {
        return Ok(());
    }
    match out.put(alloc, bytes) {
        Ok(()) => Ok(()),
        Err(IoFault::Failed) => Err(RunFault::WriteFault),
        Err(IoFault::NoMemory) => Err(RunFault::NoMemory),
    }
}
