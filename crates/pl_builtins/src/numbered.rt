//! The built-in predicates by the numbers of their rows, with their errors as terms.
ghost use Rattle.std.specs.Prelude.{◌≡◌, ◌++◌, ◌<◌, map, All, IfOk, OnErr};
ghost use Rattle.pl_atoms.specs.Names.{IsFront};
ghost use Rattle.pl_ops.specs.Standard.{standard};
ghost use Rattle.pl_ops.specs.Tables.{operator};
ghost use Rattle.pl_unify.specs.State.{tree_at, IsRef, Grows};
ghost use Rattle.builtin_model.specs.Naming.{by_numbers, number_in};
ghost use Rattle.builtin_model.specs.Faults.{fault_tree};
ghost use Rattle.builtin_model.specs.Rows.{row_of};
ghost use Rattle.pl_builtin_ends.specs.Made.{HasNames};
ghost use Rattle.pl_builtin_ends.specs.Meets.{fault_of, HasCulprit};
ghost use Rattle.pl_builtins.specs.Ends.{deed_of, output_of, row_at, Ends, written_by};

use crate::dispatch::run;
use crate::row_table::row_of;
use pl_atoms::{Bytes, NameId, Names, NoMemory};
use pl_builtin_ends::{Done, Raised, intern};
use pl_builtin_terms::error_place;
use pl_ops::OpTable;
use pl_unify::{Ref, Store};
use std::alloc::Global;
use unit_model::builtins;

/// How the call of a built-in predicate ends.
#[derive(Clone, Copy, Debug)]
pub enum Outcome {
    /// It succeeds, with its bindings in the store.
    Yes,
    /// It fails.
    No,
    /// It throws the error at this place of the store (ISO/IEC 13211-1, 7.12.2).
    Error(Ref),
    /// It ends the run with this status.
    Halt(i64),
}

/// Does what the built-in predicate of a row of the table of built-in procedures does, as `run`, and makes the term of its error
/// with the row's own name and number of arguments. A number of no row, or of a control construct, fails. Where `names` has the
/// names of `add_names`, it adds none.
///
/// The only error is want of memory. After it the store and `text` are as before, and `names` may hold more names.
pub fn call(
    alloc: Global,
    store: &mut Store,
    names: &mut Names,
    table: &OpTable,
    row: usize,
    args: &[Ref],
    caller: NameId,
    text: &mut Bytes,
) -> Result<Outcome, NoMemory>
    requires places { All (λ r. IsRef store.old.state r) args.now }
    requires standard { operator table.now ≡ operator standard }
    ensures outcome { IfOk result (λ o. Ends store.old.state store.new.state names.old names.new (λ ns. deed_of (by_numbers ns) (row_of row) (map (tree_at store.old.state) args.now) caller.0 store.old.state.next) row o) }
    ensures text { IfOk result (λ o. text.new ≡ text.old ++ written_by (output_of (by_numbers names.new) (row_of row) (map (tree_at store.old.state) args.now)) o) }
    ensures store { OnErr result (store.new.state ≡ store.old.state) }
    ensures bytes { OnErr result (text.new ≡ text.old) }
    ensures front { IsFront names.old names.new }
    ensures kept { HasNames names.old → names.new ≡ names.old }
{
    match row_of(row) {
        None => Ok(Outcome::No),
        Some(known) => match run(alloc, store, names, table, known, args, caller, text)? {
            Done::Yes => Ok(Outcome::Yes),
            Done::No => Ok(Outcome::No),
            Done::Halt(status) => Ok(Outcome::Halt(status)),
            Done::Raise(fault) => {
                let at = row_error(store, names, row, fault)?;
                Ok(Outcome::Error(at))
            }
        },
    }
}

// Makes the term of the error of a row.
fn row_error(
    store: &mut Store,
    names: &mut Names,
    row: usize,
    fault: Raised,
) -> Result<Ref, NoMemory>
    requires row { row < 62 }
    requires culprit { HasCulprit store.old.state fault }
    ensures grows { Grows store.old.state store.new.state }
    ensures next { store.new.state.next ≡ store.old.state.next }
    ensures place { IfOk result (λ at. IsRef store.new.state at) }
    ensures tree { IfOk result (λ at. tree_at store.new.state at ≡ fault_tree (by_numbers names.new) (fault_of store.old.state fault) (number_in names.new (row_at row).name) (row_at row).arity) }
    ensures err { OnErr result (store.new.state ≡ store.old.state) }
    ensures front { IsFront names.old names.new }
    ensures kept { HasNames names.old → names.new ≡ names.old }
{
    let indicator = builtins()[row];
    let name = intern(names, indicator.name)?;
    let at = error_place(store, names, fault, name, indicator.arity as u8)?;
    let _count = names.len();
    Ok(at)
}
