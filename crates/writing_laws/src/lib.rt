//! Laws of written terms.
#![tactic(auto)]

ghost use Rattle.std.specs.Prelude.{◌≡◌, ℕ, List, [], All, IsUtf8};
ghost use Rattle.pl_terms.specs.Order.{texts_of};
ghost use Rattle.pl_terms.specs.Occurrence.{variables};
ghost use Rattle.text_model.specs.ReadBack.{IsGround, ReadsBack};
ghost use Rattle.writing_laws.specs.Ranges.{IsRanged};

use pl_terms::{Cell, Term};

/// A term without variables, written in quotes under the operators that every text begins with, and followed by a
/// space and a full stop, reads back as the same term (ISO/IEC 13211-1, 7.10.5).
pub fn reads_back()
    ensures { ReadsBack }
{}

/// A term without variables whose names are UTF-8 is one of those that `reads_back` speaks of. It computes nothing.
pub fn ground_law(term: &Term)
    ensures { (names : List (List ℕ)) → All IsUtf8 names → variables term.now ≡ [] → IsGround (texts_of names term.now) }
{
    all_ranged(term.cells());
}

/// The numbers of cells are in their ranges.
fn all_ranged(cells: &[Cell])
    ensures { All IsRanged cells.now }
{
    for cell in cells {
        ranged(*cell);
    }
}

fn ranged(cell: Cell)
    ensures { IsRanged cell }
{
    match cell {
        Cell::Int(number) => {
            let _ = number;
        }
        Cell::Comp(_, arity) => {
            let _ = arity;
        }
        _ => {}
    }
}
