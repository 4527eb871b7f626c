//! Indicators and mode terms.
ghost use Rattle.std.specs.Prelude.{◌≡◌, ℕ, ◌<◌, List, IfOk, IfSome, option_map};
ghost use Rattle.pl_terms.specs.Order.{text_of, texts_of};
ghost use Rattle.pl_terms.specs.Cells.{first};
ghost use Rattle.pl_terms.specs.NameBounds.{AllNamesBelow};
ghost use Rattle.unit_model.specs.Directives.{small, indicator_in, mode_term_in};
ghost use Rattle.term_walk.specs.Walks.{first_cell, entered};
ghost use Rattle.term_walk.specs.Items.{indicator_text, indicator_of, mode_term_text, mode_of, front_modes};

use crate::walk::{Walk, text};
use pl_atoms::{NameId, Names, NoMemory};
use pl_terms::Cell;
use std::alloc::Global;
use unit_model::{Ind, ModeList};

/// A metapredicate's name, and for each of its arguments whether it is a metaargument.
#[derive(Drop)]
pub struct ModeTerm {
    pub name: NameId,
    pub modes: ModeList,
}

/// The indicator that stands next: an atom and an integer from 0 to 255 under `/`. None exactly where none does.
pub fn indicator(walk: &Walk<'_>, names: &Names) -> Option<Ind>
    ensures form { option_map (indicator_text (text_of names.now)) result ≡ indicator_in (texts_of names.now (first walk.now)) }
    ensures below { (n : ℕ) → AllNamesBelow n walk.now → IfSome result (λ i. i.name.0 < n) }
{
    if walk.is_functor(names, b"/", 2) {
        indicator_parts(walk.again())
    } else {
        None
    }
}

// The indicator of the two arguments that follow the next cell.
fn indicator_parts(mut walk: Walk<'_>) -> Option<Ind>
    ensures form { (f : ℕ → List ℕ) → option_map (indicator_text f) result ≡ indicator_of f (first_cell (entered walk.entry)) (first_cell (entered (entered walk.entry))) }
    ensures below { (n : ℕ) → AllNamesBelow n walk.entry → IfSome result (λ i. i.name.0 < n) }
{
    walk.enter();
    let name = walk.peek();
    walk.enter();
    match (name, walk.peek()) {
        (Some(Cell::Name(name)), Some(Cell::Int(number))) => {
            let arity = small(number)?;
            Some(Ind { name, arity })
        }
        _ => None,
    }
}

// A number from 0 to 255.
fn small(number: i64) -> Option<u8>
    ensures { result ≡ small number }
{
    if number < 0 || number > 255 {
        None
    } else {
        Some(number as u8)
    }
}

/// The mode term that stands next: a compound term whose arguments are each the atom `:` or the atom `*`. None exactly where
/// none does.
pub fn mode_term(
    alloc: Global,
    walk: &Walk<'_>,
    names: &Names,
) -> Result<Option<ModeTerm>, NoMemory>
    ensures form { IfOk result (λ found. option_map (mode_term_text (text_of names.now)) found ≡ mode_term_in (texts_of names.now (first walk.now))) }
    ensures below { (n : ℕ) → AllNamesBelow n walk.now → IfOk result (λ found. IfSome found (λ m. m.name.0 < n)) }
{
    let mut args = walk.again();
    let Some(Cell::Comp(name, count)) = args.peek() else {
        return Ok(None);
    };
    args.enter();
    match modes_of(alloc, args, count, names)? {
        Some(modes) => Ok(Some(ModeTerm { name, modes })),
        None => Ok(None),
    }
}

// The modes that the next terms are, so many of them. None where one is no mode.
fn modes_of(
    alloc: Global,
    mut args: Walk<'_>,
    mut count: u8,
    names: &Names,
) -> Result<Option<ModeList>, NoMemory>
    ensures { IfOk result (λ found. found ≡ front_modes (text_of names.now) count args.entry) }
{
    let mut modes = ModeList::new(alloc);
    while count > 0 {
        let Some(is_meta) = mode(&args, names) else {
            return Ok(None);
        };
        modes.push(is_meta)?;
        args.enter();
        count -= 1;
    }
    Ok(Some(modes))
}

// Whether the next term is the mode of a metaargument. None where it is no mode.
fn mode(args: &Walk<'_>, names: &Names) -> Option<bool>
    ensures { result ≡ mode_of (text_of names.now) (first_cell args.now) }
{
    let Some(Cell::Name(name)) = args.peek() else {
        return None;
    };
    match text(names, name) {
        b":" => Some(true),
        b"*" => Some(false),
        _ => None,
    }
}
