//! The names of directives.
ghost use Rattle.std.specs.Prelude.{◌≡◌, codes};
ghost use Rattle.pl_ops.specs.Tables.{same_text};
ghost use Rattle.mod_directives.specs.Words as spec;

/// A directive with one argument, but those of sections.
#[derive(Clone, Copy)]
pub(crate) enum Unary {
    Export,
    Reexport,
    Metapredicate,
    Import,
    Discontiguous,
    Unknown,
}

/// The directive of this name with one argument.
pub(crate) fn unary_word(name: &[u8]) -> Unary
    ensures { result ≡ spec.unary_word name.now }
{
    if name == b"export".as_slice() {
        Unary::Export
    } else if name == b"reexport".as_slice() {
        Unary::Reexport
    } else if name == b"metapredicate".as_slice() {
        Unary::Metapredicate
    } else if name == b"import".as_slice() {
        Unary::Import
    } else if name == b"discontiguous".as_slice() {
        Unary::Discontiguous
    } else {
        Unary::Unknown
    }
}

/// A directive with two arguments.
#[derive(Clone, Copy)]
pub(crate) enum Binary {
    Reexport,
    Import,
    Unknown,
}

/// The directive of this name with two arguments.
pub(crate) fn binary_word(name: &[u8]) -> Binary
    ensures { result ≡ spec.binary_word name.now }
{
    if name == b"reexport".as_slice() {
        Binary::Reexport
    } else if name == b"import".as_slice() {
        Binary::Import
    } else {
        Binary::Unknown
    }
}

/// Whether a directive of this name with three arguments declares operators.
pub(crate) fn is_op(name: &[u8]) -> bool
    ensures { result ≡ same_text name.now (codes "op") }
{
    match name {
        b"op" => true,
        _ => false,
    }
}

/// Whether this is the name of the empty list.
pub(crate) fn is_nil(name: &[u8]) -> bool
    ensures { result ≡ same_text name.now (codes "[]") }
{
    match name {
        b"[]" => true,
        _ => false,
    }
}
