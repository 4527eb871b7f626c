//! Directives of sections, and directives that take from modules.
ghost use Rattle.std.specs.Prelude.{◌≡◌, Bool, List, length, Ok, IfSome};
ghost use Rattle.pl_terms.specs.NameBounds.{NamesBelow};
ghost use Rattle.std.specs.Option.{option_map};
ghost use Rattle.pl_ops.specs.Tables.{Declaration};
ghost use Rattle.pl_terms.specs.Order.{texts_of};
ghost use Rattle.unit_model.specs.Preparing.{Said, sort_of, said, source_of};
ghost use Rattle.term_walk.specs.Walks.{first_cell};
ghost use Rattle.prep_texts.specs.Sections as spec;

use pl_atoms::{NameId, Names};
use pl_terms::{Cell, Term};
use term_walk::{Walk, text};
use unit_model::SectionKind;

/// A directive that opens or ends a section, and its module where its argument is an atom (ISO/IEC 13211-2, 6.2).
#[derive(Clone, Copy, Debug)]
pub enum SectionDirective {
    Opens(SectionKind, Option<NameId>),
    Ends(SectionKind, Option<NameId>),
}

/// The module from which a directive takes: what it gives is passed on, or taken in with its operators.
#[derive(Clone, Copy, Debug)]
pub enum ModuleSource {
    Passing(NameId),
    Taking(NameId),
}

// The name of the next term, where it is compound with one argument.
fn unary_name(walk: &Walk<'_>) -> Option<NameId>
    ensures { result ≡ spec.unary_name (first_cell walk.now) }
{
    match walk.peek() {
        Some(Cell::Comp(name, 1)) => Some(name),
        _ => None,
    }
}

// The name of the next term, where it is compound with one or two arguments.
fn short_name(walk: &Walk<'_>) -> Option<NameId>
    ensures { result ≡ spec.short_name (first_cell walk.now) }
{
    match walk.peek() {
        Some(Cell::Comp(name, 1 | 2)) => Some(name),
        _ => None,
    }
}

// The name of the next term, where it is an atom.
fn atom_name(walk: &Walk<'_>) -> Option<NameId>
    ensures { result ≡ spec.atom_name (first_cell walk.now) }
{
    match walk.peek() {
        Some(Cell::Name(name)) => Some(name),
        _ => None,
    }
}

// The directive of a section that this word names.
fn section_word(word: &[u8], name: Option<NameId>) -> Option<SectionDirective>
    ensures { result ≡ spec.section_word word.now name }
{
    if word == b"module".as_slice() {
        Some(SectionDirective::Opens(SectionKind::Interface, name))
    } else if word == b"end_module".as_slice() {
        Some(SectionDirective::Ends(SectionKind::Interface, name))
    } else if word == b"body".as_slice() {
        Some(SectionDirective::Opens(SectionKind::Body, name))
    } else if word == b"end_body".as_slice() {
        Some(SectionDirective::Ends(SectionKind::Body, name))
    } else {
        None
    }
}

// Where a directive of this word takes from.
fn source_word(word: &[u8], name: NameId) -> Option<ModuleSource>
    ensures { result ≡ spec.source_word word.now name }
{
    if word == b"reexport".as_slice() {
        Some(ModuleSource::Passing(name))
    } else if word == b"import".as_slice() {
        Some(ModuleSource::Taking(name))
    } else {
        None
    }
}

/// The directive that opens or ends a section, where the term is one.
pub fn section_directive(term: &Term, names: &Names) -> Option<SectionDirective>
    requires { NamesBelow (length names.now) term.now }
    ensures directive { option_map (spec.directive_view names.now) result ≡ spec.section_part (sort_of (texts_of names.now term.now)) }
    ensures below { IfSome result (spec.DirectiveBelow (length names.now)) }
{
    let mut walk = Walk::of(term);
    if !walk.is_functor(names, b":-", 1) {
        return None;
    }
    walk.enter();
    let word = unary_name(&walk)?;
    walk.enter();
    section_word(text(names, word), atom_name(&walk))
}

/// The module from which the term takes, where it is a directive without a fault.
pub fn module_source(term: &Term, names: &Names) -> Option<ModuleSource>
    requires { NamesBelow (length names.now) term.now }
    ensures source { (in_one : Bool) (table : List Declaration) (said_is : Said) → said in_one (texts_of names.now term.now) table ≡ Ok said_is → spec.source_view names.now result ≡ source_of (sort_of (texts_of names.now term.now)) }
    ensures below { IfSome result (spec.SourceBelow (length names.now)) }
{
    let mut walk = Walk::of(term);
    if !walk.is_functor(names, b":-", 1) {
        return None;
    }
    walk.enter();
    let word = short_name(&walk)?;
    walk.enter();
    let name = atom_name(&walk)?;
    source_word(text(names, word), name)
}
