//! Conversion of bodies (ISO/IEC 13211-1, 7.6.2).
ghost use Rattle.std.specs.Prelude.{◌≡◌, ◌<◌, ◌++◌, ◌↔◌, length, codes, Some, None, All, IsTrue, IfOk, IfErr, OnOk};
ghost use Rattle.pl_atoms.specs.Names.{IsFront};
ghost use Rattle.pl_terms.specs.Trees.{count};
ghost use Rattle.pl_terms.specs.Cells.{first, IsCell};
ghost use Rattle.pl_terms.specs.Order.{text_of, texts_of};
ghost use Rattle.unit_model.specs.Directives.{is_control, both, converted};
ghost use Rattle.term_walk.specs.Walks.{first_cell, size};
ghost use Rattle.pl_terms.specs.NameBounds.{NamesBelow};
ghost use Rattle.mod_body.specs.Places as places;
ghost use Rattle.mod_body.specs.Converting as spec;

use pl_atoms::{NameId, Names, NoMemory};
use pl_terms::{Cell, Term, TermBuf};
use std::alloc::Global;
use term_walk::{Walk, text};
use thiserror::Error;

/// Why a body is not converted.
#[derive(Clone, Copy, Debug, PartialEq, Eq, Error)]
pub enum BodyFault {
    /// An integer stands where a goal has to.
    #[error("an integer is no goal")]
    NotCallable,
    /// A growth was refused.
    #[error("no memory")]
    NoMemory,
}

impl From<NoMemory> for BodyFault {
    ghost use Rattle.mod_body.specs.declared.convert.BodyFault.TheVariants.{NoMemory as OutOfMemory};

    ghost from_gives = { λ _ e. e ≡ OutOfMemory };

    fn from(_e: NoMemory) -> BodyFault {
        BodyFault::NoMemory
    }
}

/// The body with each variable in a goal place as the goal that calls it (ISO/IEC 13211-1, 7.6.2). `names` may gain the name
/// `call`, and each name that it had keeps its number. `NotCallable` exactly where a goal place has an integer.
pub fn convert_body(alloc: Global, body: &Term, names: &mut Names) -> Result<Term, BodyFault>
    requires { NamesBelow (length names.old) body.now }
    ensures ok { IfOk result (λ t. converted (texts_of names.old body.now) ≡ Some (texts_of names.new t)) }
    ensures below { IfOk result (NamesBelow (length names.new)) }
    ensures none { IfErr result (λ e. e ≡ BodyFault.NotCallable → converted (texts_of names.old body.now) ≡ None) }
    ensures front { IsFront names.old names.new }
{
    let call = names.intern(b"call")?;
    converted(alloc, Walk::of(body), call, names)
}

/// Whether conversion leaves the body as it is: no goal place has a variable or an integer.
pub fn is_converted(_alloc: Global, body: &Term, names: &Names) -> Result<bool, NoMemory>
    ensures { IfOk result (λ b. IsTrue b ↔ (converted (texts_of names.now body.now) ≡ Some (texts_of names.now body.now))) }
{
    Ok(all_stay(Walk::of(body), names))
}

// What stands in a goal place.
enum Place {
    Variable,
    Integer,
    // A control construct, whose two arguments are goal places too.
    Control(NameId),
    Other,
}

// What stands in the first of these goal places.
fn place_of(goals: &Walk<'_>, names: &Names) -> Place
    ensures { result ≡ places.place_of (text_of names.now) (first_cell goals.now) }
{
    match goals.peek() {
        Some(Cell::Var(_)) => Place::Variable,
        Some(Cell::Int(_)) => Place::Integer,
        Some(Cell::Comp(name, 2)) if is_control(text(names, name)) => Place::Control(name),
        _ => Place::Other,
    }
}

// Whether a name with two arguments is a control construct.
fn is_control(name: &[u8]) -> bool
    ensures { result ≡ is_control name.now }
{
    match name {
        b"," | b";" | b"->" => true,
        _ => false,
    }
}

// The one tree of these goals, converted.
pub(crate) fn converted(
    alloc: Global,
    mut goals: Walk<'_>,
    call: NameId,
    names: &Names,
) -> Result<Term, BodyFault>
    requires { count goals ≡ 1 }
    ensures ok { IfOk result (λ t. spec.converted_by (text_of names.now) call.0 (first goals.entry) ≡ Some t) }
    ensures none { IfErr result (λ e. e ≡ BodyFault.NotCallable → spec.converted_by (text_of names.now) call.0 (first goals.entry) ≡ None) }
{
    let mut out = TermBuf::new(alloc);
    while goals.has_more() {
        convert_goal(&mut goals, &mut out, call, names)?;
    }
    Ok(out.end_whole())
}

// Converts the first of these goals, or where it is a control construct goes on to its arguments.
fn convert_goal(
    goals: &mut Walk<'_>,
    out: &mut TermBuf,
    call: NameId,
    names: &Names,
) -> Result<(), BodyFault>
    requires some { 0 < count goals.old }
    requires are { All IsCell out.old }
    ensures ok { OnOk result (both (Some out.new) (spec.goal_cells (text_of names.now) call.0 goals.new) ≡ both (Some out.old) (spec.goal_cells (text_of names.now) call.0 goals.old)) }
    ensures are { OnOk result (All IsCell out.new) }
    ensures less { OnOk result (size goals.new < size goals.old) }
    ensures none { IfErr result (λ e. e ≡ BodyFault.NotCallable → spec.goal_cells (text_of names.now) call.0 goals.old ≡ None) }
{
    match place_of(goals, names) {
        Place::Variable => {
            out.push(Cell::Comp(call, 1))?;
            push_all(out, goals.take_tree())?;
        }
        Place::Integer => return Err(BodyFault::NotCallable),
        Place::Control(name) => {
            out.push(Cell::Comp(name, 2))?;
            goals.enter();
        }
        Place::Other => push_all(out, goals.take_tree())?,
    }
    Ok(())
}

// Puts cells last.
pub(crate) fn push_all(out: &mut TermBuf, cells: &[Cell]) -> Result<(), NoMemory>
    requires { All IsCell cells.now }
    ensures { OnOk result (out.new ≡ out.old ++ cells.now) }
{
    for cell in cells {
        out.push(*cell)?;
    }
    Ok(())
}

// Whether each of these goals stays as it is.
fn all_stay(mut goals: Walk<'_>, names: &Names) -> bool
    ensures { result ≡ spec.all_stay (text_of names.now) goals.entry }
{
    while goals.has_more() {
        match place_of(&goals, names) {
            Place::Variable | Place::Integer => return false,
            Place::Control(_) => goals.enter(),
            Place::Other => {
                goals.take_tree();
            }
        }
    }
    true
}
