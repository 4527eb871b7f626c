//! Copies of terms (ISO/IEC 13211-1, 8.5.4).
ghost use Rattle.std.specs.Prelude.{◌≡◌, [], ◌∷◌, nat_eq, IfOk, OnOk, OnErr};
ghost use Rattle.indexmap.specs.IndexSet.{insert_all};
ghost use Rattle.pl_terms.specs.CellNumbers.{cell_by, numbers};
ghost use Rattle.pl_terms.specs.Occurrence.{canon, place_of};
ghost use Rattle.pl_unify.specs.State.{tree_at, IsRef, Extends};
ghost use Rattle.builtin_model.specs.Deeds.{copy_deed};
ghost use Rattle.pl_builtin_ends.specs.Meets.{Meets, Answers};

use indexmap::IndexSet;
use pl_atoms::NoMemory;
use pl_builtin_ends::{Done, settle, unify};
use pl_terms::{Cell, Term, TermBuf};
use pl_unify::{Ref, Store};
use std::alloc::Global;

/// Unifies a term with a copy of another, whose variables are new: `copy_term` (ISO/IEC 13211-1, 8.5.4).
pub fn copy_term(alloc: Global, store: &mut Store, term: Ref, copy: Ref) -> Result<Done, NoMemory>
    requires { IsRef store.old.state term × IsRef store.old.state copy }
    ensures done { IfOk result (λ done. Meets store.old.state store.new.state (copy_deed (tree_at store.old.state term) (tree_at store.old.state copy) store.old.state.next) done) }
    ensures memory { OnErr result (store.new.state ≡ store.old.state) }
{
    let mark = store.mark();
    let ended = unify_copy(alloc, store, term, copy);
    settle(store, &mark, ended)
}

// As `copy_term`, but what was made is still there.
fn unify_copy(alloc: Global, store: &mut Store, term: Ref, copy: Ref) -> Result<Done, NoMemory>
    requires { IsRef store.old.state term × IsRef store.old.state copy }
    ensures done { IfOk result (λ done. Answers store.old.state store.new.state (copy_deed (tree_at store.old.state term) (tree_at store.old.state copy) store.old.state.next) done) }
    ensures extends { Extends store.old.state store.new.state }
{
    let original = store.copy_out(alloc, term)?;
    let numbered = numbered(alloc, &original)?;
    let next = store.next_var();
    let made = store.load(&numbered, next)?;
    unify(store, copy, made)
}

/// The term with its variables numbered from 0 in order of first occurrence. The only error is want of memory.
pub fn numbered(alloc: Global, term: &Term) -> Result<Term, NoMemory>
    ensures { IfOk result (λ numbered. numbered ≡ canon term.now) }
{
    let mut seen = IndexSet::new(alloc);
    let cells = term.cells();
    let mut copy = TermBuf::with_capacity(alloc, cells.len())?;
    for cell in cells {
        let renumbered = numbered_cell(&mut seen, *cell)?;
        copy.push(renumbered)?;
    }
    Ok(copy.end_whole())
}

// The cell with its place among the variables for its number. The variable is put last if it is new.
fn numbered_cell(seen: &mut IndexSet<usize>, cell: Cell) -> Result<Cell, NoMemory>
    ensures cell { IfOk result (λ numbered. numbered ≡ cell_by (λ n. place_of n seen.new.keys) cell) }
    ensures keys { OnOk result (seen.new.keys ≡ insert_all nat_eq seen.old.keys (numbers (cell ∷ []))) }
{
    match cell {
        Cell::Var(number) => {
            let (place, _) = seen.insert_full(number)?;
            Ok(Cell::Var(place))
        }
        other => Ok(other),
    }
}
