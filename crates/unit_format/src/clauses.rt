//! The rules on heads, bodies and modes.
ghost use Rattle.std.specs.Prelude.{◌≡◌, ◌<◌, ◌^◌, ◌+◌, ◌-◌};
ghost use Rattle.unit_model.specs.Encoding.{text_at};
ghost use Rattle.unit_model.specs.Facts.{what_by, clause};
ghost use Rattle.unit_model.specs.Views.{what_view};
ghost use Rattle.unit_model.specs.Validity.{is_control, is_head, is_converted, is_clause};
ghost use Rattle.pl_terms.specs.Trees.{renamed};
ghost use Rattle.unit_format.specs.Reading.{arity_of};
ghost use Rattle.unit_format.specs.Bodies.{begins_head, past_cell};

use crate::order::is_numbered;
use crate::terms::arity;
use pl_atoms::{NameId, Names};
use pl_terms::{Cell, Term};
use unit_model::What;

/// The text of a name, or no text where the table ends before it.
pub fn text_of(names: &Names, name: NameId) -> &[u8]
    ensures { result.now ≡ text_at names.now name.0 }
{
    if name.0 < names.len() {
        names.text(name)
    } else {
        b"".as_slice()
    }
}

fn begins_head(cells: &[Cell]) -> bool
    ensures { result ≡ begins_head cells.now }
{
    match cells {
        [Cell::Name(_), ..] => true,
        [Cell::Comp(_, _), ..] => true,
        _ => false,
    }
}

fn is_head(head: &Term) -> bool
    ensures { result ≡ is_head head.now }
{
    begins_head(head.cells())
}

fn is_control_name(text: &[u8]) -> bool
    ensures { result ≡ is_control text.now 2 }
{
    match text {
        b"," => true,
        b";" => true,
        b"->" => true,
        _ => false,
    }
}

fn is_control(text: &[u8], arity: u8) -> bool
    ensures { result ≡ is_control text.now arity }
{
    arity == 2 && is_control_name(text)
}

/// Whether a cell may stand where so many trees are passed over first, and how many are passed over after it.
fn past_cell(names: &Names, passed: usize, cell: Cell) -> Option<usize>
    requires { passed - 1 + arity_of cell < 2 ^ 64 }
    ensures value { result ≡ past_cell names.now passed cell }
{
    if passed > 0 {
        return Some(passed - 1 + arity(cell));
    }
    match cell {
        Cell::Var(_) => None,
        Cell::Int(_) => None,
        Cell::Name(_) => Some(0),
        Cell::Comp(name, arity) => {
            let goals = is_control(text_of(names, name), arity);
            Some(if goals { 0 } else { arity as usize })
        }
    }
}

/// Whether no variable or integer stands in a goal place of `,`, `;` and `->`.
fn is_converted(names: &Names, body: &Term) -> bool
    ensures { result ≡ is_converted (renamed (text_at names.now) body.now) }
{
    let cells = body.cells();
    let mut passed = 0;
    for cell in cells {
        let Some(after) = past_cell(names, passed, *cell) else {
            return false;
        };
        passed = after;
    }
    true
}

fn are_parts(names: &Names, variables: usize, head: &Term, body: &Term) -> bool
    ensures { result ≡ is_clause (what_by (text_at names.now) (clause variables head.now body.now)) }
{
    if !is_head(head) {
        return false;
    }
    if !is_converted(names, body) {
        return false;
    }
    is_numbered(variables, head, body)
}

/// Whether a metapredicate has an argument; whether a clause has a head, a converted body, and variables in order.
pub fn is_clause(names: &Names, what: &What) -> bool
    ensures { result ≡ is_clause (what_by (text_at names.now) (what_view what.now)) }
{
    match what {
        What::Meta(_, modes) => modes.as_slice().len() > 0,
        What::Clause(variables, head, body) => are_parts(names, *variables, head, body),
        _ => true,
    }
}
