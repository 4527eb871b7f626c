//! Written terms (ISO/IEC 13211-1, 8.14.2).
ghost use Rattle.std.specs.Prelude.{◌≡◌, ◌++◌, IfOk, OnOk, OnErr};
ghost use Rattle.pl_writer.specs.Edges.{Begins};
ghost use Rattle.pl_ops.specs.Tables.{operator};
ghost use Rattle.pl_ops.specs.Standard.{standard};
ghost use Rattle.pl_unify.specs.State.{tree_at, IsRef};
ghost use Rattle.builtin_model.specs.Naming.{by_numbers};
ghost use Rattle.builtin_model.specs.Deeds.{yes};
ghost use Rattle.builtin_model.specs.Output.{written_text};
ghost use Rattle.pl_builtin_ends.specs.Meets.{Meets};

use pl_atoms::{Bytes, Names, NoMemory};
use pl_builtin_ends::Done;
use pl_ops::OpTable;
use pl_unify::{Ref, Store};
use pl_writer::{Quote, write_onto};
use std::alloc::Global;

// The highest priority of a term.
const MAX_PRIORITY: u16 = 1200;

/// Writes a term under the standard operators, which are those of `table`: `write` and `writeq` (ISO/IEC 13211-1, 8.14.2).
/// NoMemory: a front of the term's text may stand behind what was there.
pub fn write(
    alloc: Global,
    store: &Store,
    names: &Names,
    table: &OpTable,
    quote: Quote,
    term: Ref,
    text: &mut Bytes,
) -> Result<Done, NoMemory>
    requires place { IsRef store.now.state term }
    requires standard { operator table.now ≡ operator standard }
    ensures done { IfOk result (λ done. Meets store.now.state store.now.state yes done) }
    ensures bytes { OnOk result (text.new ≡ text.old ++ written_text (by_numbers names.now) quote (tree_at store.now.state term)) }
    ensures memory { OnErr result (Begins text.old text.new) }
{
    let whole = store.copy_out(alloc, term)?;
    write_onto(alloc, text, &whole, names, table, quote, MAX_PRIORITY)?;
    Ok(Done::Yes)
}
