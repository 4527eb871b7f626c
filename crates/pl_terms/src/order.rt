//! The standard order of terms.
ghost use Rattle.std.specs.Prelude.{◌≡◌, ◌<◌, length};
ghost use Rattle.pl_terms.specs.Order.{standard_cmp, texts_of};
ghost use Rattle.pl_terms.specs.NameBounds.{NamesBelow, NameBelow};
ghost use Rattle.pl_terms.specs.CellOrder.{cell_cmp, name_cmp};

use crate::cell::Cell;
use crate::term::Term;
use pl_atoms::{NameId, Names};
use std::cmp::Ordering;

/// The standard order of two terms whose names are in `names` (ISO/IEC 13211-1, 7.2): variables by number, integers by value, atoms
/// by text, compound terms by arity, then name, then arguments from the left. It takes no memory.
pub fn compare(first: &Term, second: &Term, names: &Names) -> Ordering
    requires first_named { NamesBelow (length names.now) first.now }
    requires second_named { NamesBelow (length names.now) second.now }
    ensures { result ≡ standard_cmp (texts_of names.now first.now) (texts_of names.now second.now) }
{
    let left = first.cells();
    let right = second.cells();
    // Compounds of different arity differ at their own cells, so the cells before the first two that differ are at like places.
    let both = left.len().min(right.len());
    for at in 0..both {
        let found = compare_cells(left[at], right[at], names);
        if found.is_ne() {
            return found;
        }
    }
    left.len().cmp(&right.len())
}

fn compare_cells(left: Cell, right: Cell, names: &Names) -> Ordering
    requires left_named { NameBelow (length names.now) left }
    requires right_named { NameBelow (length names.now) right }
    ensures { result ≡ cell_cmp (name_cmp names.now) left right }
{
    match left {
        Cell::Var(left) => match right {
            Cell::Var(right) => left.cmp(&right),
            _ => Ordering::Less,
        },
        Cell::Int(left) => match right {
            Cell::Var(_) => Ordering::Greater,
            Cell::Int(right) => left.cmp(&right),
            _ => Ordering::Less,
        },
        Cell::Name(left) => match right {
            Cell::Name(right) => compare_names(left, right, names),
            Cell::Comp(_, _) => Ordering::Less,
            _ => Ordering::Greater,
        },
        Cell::Comp(left, left_arity) => match right {
            Cell::Comp(right, right_arity) => match left_arity.cmp(&right_arity) {
                Ordering::Less => Ordering::Less,
                Ordering::Equal => compare_names(left, right, names),
                Ordering::Greater => Ordering::Greater,
            },
            _ => Ordering::Greater,
        },
    }
}

/// The order of two names by their texts.
fn compare_names(left: NameId, right: NameId, names: &Names) -> Ordering
    requires left_named { left.0 < length names.now }
    requires right_named { right.0 < length names.now }
    ensures { result ≡ name_cmp names.now left.0 right.0 }
{
    let left = names.text(left);
    let right = names.text(right);
    left.cmp(&right)
}
