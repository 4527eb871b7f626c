//! The rules on sections and on the entries in them.
ghost use Rattle.std.specs.Prelude.{◌≡◌, not};
ghost use Rattle.std.specs.List.{list_all};
ghost use Rattle.unit_model.specs.Views.{what_view, kind_view};
ghost use Rattle.unit_model.specs.Validity.{is_user, is_system, is_interface, is_for_interface, same_bool};
ghost use Rattle.unit_format.specs.Rules.{is_reserved, is_first, begins_by, has_entries_of_kind, has_clauses};

use crate::clauses::{is_clause, text_of};
use pl_atoms::Names;
use unit_model::{Section, SectionKind, What};

/// Whether a module is `user`.
pub fn is_user(text: &[u8]) -> bool
    ensures { result ≡ is_user text.now }
{
    match text {
        b"user" => true,
        _ => false,
    }
}

/// Whether a module is `system`.
pub fn is_system(text: &[u8]) -> bool
    ensures { result ≡ is_system text.now }
{
    text == b"system".as_slice()
}

/// Whether a section is an interface.
pub fn is_interface(kind: SectionKind) -> bool
    ensures { result ≡ is_interface (kind_view kind) }
{
    match kind {
        SectionKind::Interface => true,
        SectionKind::Body => false,
    }
}

fn is_for_interface(what: &What) -> bool
    ensures { result ≡ is_for_interface (what_view what.now) }
{
    match what {
        What::Export(_) => true,
        What::ReexportAll(_) => true,
        What::Reexport(_, _) => true,
        What::Meta(_, _) => true,
        What::Operator(_) => true,
        What::ImportAll(_) => false,
        What::Import(_, _) => false,
        What::Clause(_, _, _) => false,
    }
}

fn same_bool(first: bool, second: bool) -> bool
    ensures { result ≡ same_bool first second }
{
    if first { second } else { !second }
}

fn is_reserved(names: &Names, section: &Section) -> bool
    ensures { result ≡ is_reserved names.now section.now }
{
    let module = text_of(names, section.module);
    is_user(module) || is_system(module)
}

fn is_first(names: &Names, section: &Section) -> bool
    ensures { result ≡ is_first names.now section.now }
{
    !is_interface(section.kind) && section.byte == 0 && is_user(text_of(names, section.module))
}

fn are_unreserved(names: &Names, sections: &[Section]) -> bool
    ensures { result ≡ list_all (λ t. not (is_reserved names.now t)) sections.now }
{
    sections.iter().all(|s| !is_reserved(names, s))
}

/// Whether the first section is a body of `user` at byte 0, and no other is of `user` or `system`.
pub fn begins_with_user(names: &Names, sections: &[Section]) -> bool
    ensures { result ≡ begins_by names.now sections.now }
{
    match sections {
        [] => false,
        [first, others @ ..] => is_first(names, first) && are_unreserved(names, others),
    }
}

fn has_entries_of_kind(section: &Section) -> bool
    ensures { result ≡ has_entries_of_kind section.now }
{
    let interface = is_interface(section.kind);
    section
        .entries
        .as_slice()
        .iter()
        .all(|e| same_bool(interface, is_for_interface(&e.what)))
}

fn has_clauses(names: &Names, section: &Section) -> bool
    ensures { result ≡ has_clauses names.now section.now }
{
    section
        .entries
        .as_slice()
        .iter()
        .all(|e| is_clause(names, &e.what))
}

/// Whether all sections have the entries of their kind.
pub fn have_entries_of_kind(sections: &[Section]) -> bool
    ensures { result ≡ list_all has_entries_of_kind sections.now }
{
    sections.iter().all(|s| has_entries_of_kind(s))
}

/// Whether the clauses and modes of all sections keep their rules.
pub fn have_clauses(names: &Names, sections: &[Section]) -> bool
    ensures { result ≡ list_all (has_clauses names.now) sections.now }
{
    sections.iter().all(|s| has_clauses(names, s))
}
