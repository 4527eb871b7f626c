//! Terms under other numbers of their names.
ghost use Rattle.std.specs.Prelude.{◌≡◌, ◌<◌, Some, true, length, slice_index, IfOk};
ghost use Rattle.pl_terms.specs.Trees.{renamed};
ghost use Rattle.unit_model.specs.Facts.{tree_names};
ghost use Rattle.unit_model.specs.Validity.{is_head};
ghost use Rattle.unit_model.specs.Views.{ind_view};
ghost use Rattle.mod_visible.specs.Placing.{AllBelow};
ghost use Rattle.program_model.specs.Saying.{head_indicator};
ghost use Rattle.mod_linker.specs.Cells.{mapped_cell, CellBelow, is_begun, begun};

use pl_atoms::{NameId, NoMemory, Remap};
use pl_terms::{Cell, Term, TermBuf};
use std::alloc::Global;
use unit_model::Ind;

/// A copy of a term with its names' numbers in another table.
pub fn mapped(alloc: Global, term: &Term, remap: &Remap) -> Result<Term, NoMemory>
    requires { AllBelow (length remap.now) (tree_names term.now) }
    ensures { IfOk result (λ copy. copy ≡ renamed (slice_index remap.now) term.now) }
{
    let cells = term.cells();
    let mut copy = TermBuf::with_capacity(alloc, cells.len())?;
    for cell in cells {
        copy.push(mapped_cell(*cell, remap))?;
    }
    Ok(copy.end_whole())
}

fn mapped_cell(cell: Cell, remap: &Remap) -> Cell
    requires { CellBelow (length remap.now) cell }
    ensures { result ≡ mapped_cell (slice_index remap.now) cell }
{
    match cell {
        Cell::Name(name) => Cell::Name(remap.get(name)),
        Cell::Comp(name, arity) => Cell::Comp(remap.get(name), arity),
        other => other,
    }
}

/// The name and the number of arguments of a head.
pub fn indicator(head: &Term) -> Ind
    requires { is_head head.now ≡ true }
    ensures { head_indicator head.now ≡ Some (ind_view result) }
{
    begun(head.cells())
}

// Of a head that begins with these cells.
fn begun(cells: &[Cell]) -> Ind
    requires { is_begun cells.now ≡ true }
    ensures { begun cells.now ≡ Some (ind_view result) }
{
    match cells {
        [Cell::Name(name), ..] => Ind {
            name: *name,
            arity: 0,
        },
        [Cell::Comp(name, arity), ..] => Ind {
            name: *name,
            arity: *arity,
        },
        _ => unreachable!(),
    }
}
