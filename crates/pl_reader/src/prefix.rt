ghost use Rattle.std.specs.Prelude.{◌≡◌, ◌+◌, ◌-◌, ◌≤◌, ◌<◌, ◌∷◌, ◌++◌, [], ℕ, List, IfOk, reverse, length, take};
ghost use Rattle.pl_terms.specs.Trees.{Tree};
ghost use Rattle.pl_reader.specs.Stands.{behind};
ghost use Rattle.pl_reader.specs.Turning.{settle, turned, missing_of, take_cell, in_front, backed};
ghost use Rattle.pl_reader.specs.declared.prefix.Pending.{Pending};

use pl_atoms::NoMemory;
use pl_terms::Cell;
use std::alloc::Global;

/// A compound that waits for arguments, read from the right.
#[derive(Debug, Clone, Copy)]
pub struct Pending {
    pub cell: Cell,
    pub missing: u8,
}

/// Puts the compounds that are whole now in front of their arguments.
fn settle(pending: &mut Vec<Pending>, out: &mut Vec<Cell>) -> Result<(), NoMemory>
    ensures { IfOk result (λ _. (ps : List Pending) → pending.old.items ≡ backed ps → (pending.new.items ≡ backed (settle ps out.old.items).0) × (out.new.items ≡ (settle ps out.old.items).1)) }
{
    'settling: while let Some(last) = pending.pop() {
        if last.missing > 1 {
            pending.push(Pending {
                cell: last.cell,
                missing: last.missing - 1,
            })?;
            break;
        }
        out.push(last.cell)?;
    }
    Ok(())
}

fn missing_of(cell: Cell) -> u8
    ensures { result ≡ missing_of cell }
{
    match cell {
        Cell::Comp(_, arity) => arity,
        _ => 0,
    }
}

/// The next cell from the right.
fn take_cell(cell: Cell, pending: &mut Vec<Pending>, out: &mut Vec<Cell>) -> Result<(), NoMemory>
    ensures { IfOk result (λ _. (ps : List Pending) → pending.old.items ≡ backed ps → (pending.new.items ≡ backed (take_cell cell (ps, out.old.items)).0) × (out.new.items ≡ (take_cell cell (ps, out.old.items)).1)) }
{
    let missing = missing_of(cell);
    if missing > 0 {
        pending.push(Pending { cell, missing })?;
        Ok(())
    } else {
        out.push(cell)?;
        settle(pending, out)?;
        Ok(())
    }
}

/// The cells of a term in prefix order, from its cells with each compound behind its arguments.
pub fn to_prefix(alloc: Global, cells: &[Cell]) -> Result<Vec<Cell>, NoMemory>
    ensures { IfOk result (λ v. (num : List ℕ → ℕ) (t : Tree (List ℕ)) → cells.now ≡ behind num t → v.items ≡ in_front num t) }
{
    let mut pending: Vec<Pending> = Vec::new(alloc);
    let mut out: Vec<Cell> = Vec::new(alloc);
    let mut at = cells.len();
    'turning: while at > 0 {
        at -= 1;
        take_cell(cells[at], &mut pending, &mut out)?;
    }
    out.reverse();
    Ok(out)
}
