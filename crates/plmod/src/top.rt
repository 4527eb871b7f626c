//! All that the program does, over any shelf and sink.
ghost use Rattle.std.specs.Prelude.{◌≡◌, ◌≢◌, Some, None, [], unwrap_or};
ghost use Rattle.std.specs.Io.KnownBytes.{Appends};
ghost use Rattle.plm_io.specs.Files.{file_of};
ghost use Rattle.plmod.specs.Words.{command_of, order_of};
ghost use Rattle.plmod.specs.Outcome.{Outcome};
ghost use Rattle.plmod.specs.Comes.{Comes};
ghost use Rattle.plmod.specs.Meets.{Meets, bytes_under};
ghost use Rattle.plmod.specs.Last.{LeavesLast};

use crate::answer::put_last;
use crate::grow::grow;
use crate::link::{Asked, tell_units};
use crate::prepare::prepare_text;
use crate::run::{run_texts, run_units};
use crate::status::Status;
use crate::words::{Command, Words, read_words};
use pl_machine::Machine;
use plm_io::{QuietShelf, QuietSink, Shelf, Sink};
use prep_report::usage_line;
use std::alloc::Global;

/// Does what the words ask for, over these files and this output. What is written, what is put and
/// the status are a function of the words and the files; each other status has its cause.
/// `last` gets the machine of a run that has ended, and nothing after any other call.
pub fn plmod<S: Shelf, O: Sink>(
    alloc: Global,
    words: &Words,
    shelf: &mut S,
    out: &mut O,
    last: &mut Option<Machine>,
) -> Status
    ensures meets { Meets (command_of words.now) result (record {
      file = S.file shelf.old;
      file_after = S.file shelf.new;
      fetches = S.fetch_faults shelf.old;
      fetches_after = S.fetch_faults shelf.new;
      puts = S.put_faults shelf.old;
      puts_after = S.put_faults shelf.new;
      written = O.written out.old;
      written_after = O.written out.new;
      faults = O.faults out.old;
      faults_after = O.faults out.new;
    }) }
    ensures leaves { LeavesLast (command_of words.now) result (S.file shelf.old) last.new }
{
    *last = None;
    match read_words(words) {
        None => put_last(alloc, usage_line(), Status::Usage, out),
        Some(command) => serve(alloc, command, shelf, out, last),
    }
}

/// A call over a shelf and a sink that never fail: it has no fault but want of memory.
pub fn plmod_quiet(
    alloc: Global,
    words: &Words,
    shelf: &mut QuietShelf,
    out: &mut QuietSink,
) -> Status
    ensures no_read_fault { result ≢ Status.ReadFault }
    ensures no_write_fault { result ≢ Status.WriteFault }
    ensures output { result ≢ Status.NoMemory → (o : Outcome) → Comes (command_of words.now) (bytes_under (λ name. Some (Some (unwrap_or (file_of shelf.old name) [])))) o →
        Appends (Some out.old) (Some out.new) o.bytes }
{
    let mut last = None;
    plmod(alloc, words, shelf, out, &mut last)
}

/// Does a command.
fn serve<S: Shelf, O: Sink>(
    alloc: Global,
    command: Command<'_>,
    shelf: &mut S,
    out: &mut O,
    last: &mut Option<Machine>,
) -> Status
    requires { last.old ≡ None }
    ensures meets { Meets (Some (order_of command.entry)) result (record {
      file = S.file shelf.old;
      file_after = S.file shelf.new;
      fetches = S.fetch_faults shelf.old;
      fetches_after = S.fetch_faults shelf.new;
      puts = S.put_faults shelf.old;
      puts_after = S.put_faults shelf.new;
      written = O.written out.old;
      written_after = O.written out.new;
      faults = O.faults out.old;
      faults_after = O.faults out.new;
    }) }
    ensures leaves { LeavesLast (Some (order_of command.entry)) result (S.file shelf.old) last.new }
{
    match command {
        Command::Prepare {
            out: unit,
            text,
            known,
        } => prepare_text(alloc, unit, text, known, shelf, out),
        Command::Link { units } => tell_units(alloc, Asked::Counts, units, shelf, out),
        Command::Run {
            budget,
            goal,
            units,
        } => run_units(alloc, budget, goal, units, shelf, out, last),
        Command::All {
            budget,
            goal,
            texts,
        } => run_texts(alloc, budget, goal, texts, shelf, out, last),
        Command::Show { units } => tell_units(alloc, Asked::Rows, units, shelf, out),
        Command::Grow { count, budget } => grow(alloc, count, budget, out, last),
    }
}
