//! The clauses of texts (ISO/IEC 13211-1, 7.4.3).
ghost use Rattle.std.specs.Prelude.{◌≡◌, ℕ, List, ◌<◌, length, codes, false, All, Some, None, Err, IfOk, IfSome, option_map};
ghost use Rattle.pl_atoms.specs.Names.{IsFront};
ghost use Rattle.pl_terms.specs.Trees.{atom, count, back, renamed};
ghost use Rattle.pl_terms.specs.Cells.{cells, first, IsCell, IsTerm};
ghost use Rattle.pl_terms.specs.Order.{text_of, texts_of};
ghost use Rattle.pl_terms.specs.NameBounds.{NamesBelow, AllNamesBelow};
ghost use Rattle.unit_model.specs.Builtins.{is_builtin};
ghost use Rattle.unit_model.specs.Directives.{head_indicator, converted};
ghost use Rattle.unit_model.specs.Preparing.{clause_in};
ghost use Rattle.term_walk.specs.Items.{indicator_text};
ghost use Rattle.term_walk.specs.Walks.{is_functor};
ghost use Rattle.mod_body.specs.Clauses.{clause_by, IsClause};
ghost use Rattle.mod_body.specs.Converting.{converted_by};
ghost use Rattle.mod_directives.specs.declared.fault.DirFault.TheVariants.{Fault};

use crate::convert::{BodyFault, converted, push_all};
use mod_directives::DirFault;
use pl_atoms::{CaseTable, NameId, Names, NoMemory};
use pl_terms::{Cell, Term, TermBuf};
use std::alloc::Global;
use term_walk::{Walk, text};
use unit_model::{Ind, What, builtins};

/// The clause that a term is: its number of variables, its head and its converted body. P13 where the head is a variable or an
/// integer, or the body has an integer where a goal has to stand; else P14 for a built-in procedure or a grammar rule. `names` may
/// gain `call` and `true`.
pub(crate) fn clause(alloc: Global, term: &Term, names: &mut Names) -> Result<What, DirFault>
    requires { NamesBelow (length names.old) term.now }
    ensures clause { IsClause names.new (clause_in (texts_of names.old term.now)) result }
    ensures front { IsFront names.old names.new }
{
    let variables = term.variables(alloc)?;
    let count = variables.as_slice().len();
    let mut walk = Walk::of(term);
    if walk.is_functor(names, b":-", 2) {
        walk.enter();
        rule(alloc, walk, count, names)
    } else {
        fact(alloc, walk, count, names)
    }
}

// The clause of a head and a body, which stand next.
fn rule(
    alloc: Global,
    mut parts: Walk<'_>,
    variables: usize,
    names: &mut Names,
) -> Result<What, DirFault>
    requires two { count parts ≡ 2 }
    requires below { AllNamesBelow (length names.old) parts }
    ensures clause { IsClause names.new (clause_by variables false (texts_of names.old (first parts.entry)) (converted (texts_of names.old (first (back 1 parts.entry))))) result }
    ensures front { IsFront names.old names.new }
{
    let Some(ind) = procedure(&parts) else {
        return Err(DirFault::Fault(13));
    };
    let is_builtin = is_builtin(text(names, ind.name), ind.arity);
    let head = copy(alloc, parts.take_tree())?;
    let call = names.intern(b"call")?;
    let body = goal(alloc, parts, call, names)?;
    if is_builtin {
        return Err(DirFault::Fault(14));
    }
    Ok(What::Clause(variables, head, body))
}

// The clause of a head alone, which stands next.
fn fact(
    alloc: Global,
    mut head: Walk<'_>,
    variables: usize,
    names: &mut Names,
) -> Result<What, DirFault>
    requires one { count head ≡ 1 }
    requires below { AllNamesBelow (length names.old) head }
    ensures clause { IsClause names.new (clause_by variables (is_functor (text_of names.old) (codes "-->") 2 head.entry) (texts_of names.old (first head.entry)) (Some (atom (codes "true")))) result }
    ensures front { IsFront names.old names.new }
{
    let Some(ind) = procedure(&head) else {
        return Err(DirFault::Fault(13));
    };
    if head.is_functor(names, b"-->", 2) {
        return Err(DirFault::Fault(14));
    }
    if is_builtin(text(names, ind.name), ind.arity) {
        return Err(DirFault::Fault(14));
    }
    let head = copy(alloc, head.take_tree())?;
    let name = names.intern(b"true")?;
    let body = atom(alloc, name)?;
    Ok(What::Clause(variables, head, body))
}

// The one goal that stands next, converted. P13 where an integer stands in place of a goal.
fn goal(alloc: Global, goal: Walk<'_>, call: NameId, names: &Names) -> Result<Term, DirFault>
    requires { count goal ≡ 1 }
    ensures ok { IfOk result (λ t. converted_by (text_of names.now) call.0 (first goal.entry) ≡ Some t) }
    ensures fault { (n : ℕ) → result ≡ Err (Fault n) → (n ≡ 13) × (converted_by (text_of names.now) call.0 (first goal.entry) ≡ None) }
{
    match converted(alloc, goal, call, names) {
        Ok(body) => Ok(body),
        Err(BodyFault::NotCallable) => Err(DirFault::Fault(13)),
        Err(BodyFault::NoMemory) => Err(DirFault::NoMemory),
    }
}

// The procedure of which the next term may be the head. None for a variable and an integer.
fn procedure(head: &Walk<'_>) -> Option<Ind>
    ensures procedure { (f : ℕ → List ℕ) → option_map (indicator_text f) result ≡ head_indicator (renamed f (first head.now)) }
    ensures below { (n : ℕ) → AllNamesBelow n head.now → IfSome result (λ i. i.name.0 < n) }
{
    match head.peek() {
        Some(Cell::Name(name)) => Some(Ind { name, arity: 0 }),
        Some(Cell::Comp(name, arity)) => Some(Ind { name, arity }),
        _ => None,
    }
}

// Whether a procedure is built in.
fn is_builtin(name: &[u8], arity: u8) -> bool
    ensures { result ≡ is_builtin name.now arity }
{
    let table = CaseTable::new(builtins());
    table.find(name, arity as u32).is_some()
}

// The term of these cells.
fn copy(alloc: Global, term: &[Cell]) -> Result<Term, NoMemory>
    requires are { All IsCell term.now }
    requires whole { IsTerm term.now }
    ensures { IfOk result (λ t. cells t ≡ term.now) }
{
    let mut out = TermBuf::with_capacity(alloc, term.len())?;
    push_all(&mut out, term)?;
    Ok(out.end_whole())
}

// The atom of this name.
fn atom(alloc: Global, name: NameId) -> Result<Term, NoMemory>
    ensures { IfOk result (λ t. t ≡ atom name.0) }
{
    let mut out = TermBuf::with_capacity(alloc, 1)?;
    out.push(Cell::Name(name))?;
    Ok(out.end_whole())
}
