//! Which terms are control constructs that have instructions of their own.
ghost use Rattle.std.specs.Prelude.{◌≡◌, ◌<◌, length, nat_eq};
ghost use Rattle.pl_unify.specs.Code.{code_tree};
ghost use Rattle.pl_unify.specs.Shape.{root};
ghost use Rattle.goal_code.specs.Shapes.{Shape, shape_of, disjunction_shape, is_truth};
ghost use Rattle.goal_code.specs.Parts.{HasShape};

use pl_atoms::NameId;
use pl_unify::{Code, View};

/// The names of the control constructs that a body's instructions run (ISO/IEC 13211-1, 7.8).
#[derive(Clone, Copy, Debug)]
pub struct ControlNames {
    /// `,`
    pub conjunction: NameId,
    /// `;`
    pub disjunction: NameId,
    /// `->`
    pub implication: NameId,
    /// `!`
    pub cut: NameId,
    /// `true`
    pub truth: NameId,
}

/// A term as one of these constructs, with the places of its parts.
#[derive(Clone, Copy, Debug)]
pub(crate) enum Parts {
    Conjunction(usize, usize),
    Disjunction(usize, usize),
    IfThenElse(usize, usize, usize),
    IfThen(usize, usize),
    Cut,
    Other,
}

fn is_name(name: NameId, other: NameId) -> bool
    ensures { result ≡ nat_eq name.0 other.0 }
{
    name.0 == other.0
}

/// What the term at a place is.
pub(crate) fn split(code: &Code, p: usize, names: ControlNames) -> Parts
    requires { p < length code.now.words }
    ensures { HasShape code.now.words (shape_of names (code_tree code.now.words p)) result }
{
    match code.view(p) {
        View::Name(name) => {
            if is_name(name, names.cut) {
                return Parts::Cut;
            }
            Parts::Other
        }
        View::Comp(name, 2) => binary(code, p, name, names),
        _ => Parts::Other,
    }
}

// What the term at a place is, which has this name and two arguments.
fn binary(code: &Code, p: usize, name: NameId, names: ControlNames) -> Parts
    requires place { p < length code.now.words }
    requires root { root (code_tree code.now.words p) ≡ View.Comp name 2 }
    ensures { HasShape code.now.words (shape_of names (code_tree code.now.words p)) result }
{
    let _len = code.len();
    let left = code.arguments(p);
    let right = left + 1;
    if is_name(name, names.conjunction) {
        return Parts::Conjunction(left, right);
    }
    if is_name(name, names.disjunction) {
        return disjunction(code, left, right, names);
    }
    if is_name(name, names.implication) {
        return Parts::IfThen(left, right);
    }
    Parts::Other
}

// What a disjunction is, whose sides are the terms at these places.
fn disjunction(code: &Code, left: usize, right: usize, names: ControlNames) -> Parts
    requires left { left < length code.now.words }
    requires right { right < length code.now.words }
    ensures { HasShape code.now.words (disjunction_shape names (code_tree code.now.words left) (code_tree code.now.words right)) result }
{
    let _len = code.len();
    if let View::Comp(name, 2) = code.view(left) {
        if is_name(name, names.implication) {
            let condition = code.arguments(left);
            return Parts::IfThenElse(condition, condition + 1, right);
        }
    }
    Parts::Disjunction(left, right)
}

/// Whether the term at a place is the atom `true`.
pub(crate) fn is_truth(code: &Code, p: usize, names: ControlNames) -> bool
    requires { p < length code.now.words }
    ensures { result ≡ is_truth names (code_tree code.now.words p) }
{
    match code.view(p) {
        View::Name(name) => is_name(name, names.truth),
        _ => false,
    }
}
