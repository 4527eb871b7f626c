//! Directives, queries and clauses.
ghost use Rattle.std.specs.Prelude.{◌≡◌};
ghost use Rattle.pl_terms.specs.Cells.{first};
ghost use Rattle.pl_terms.specs.Order.{texts_of};
ghost use Rattle.unit_model.specs.Preparing.{sort_of};
ghost use Rattle.term_walk.specs.Walks.{entered};
ghost use Rattle.mod_directives.specs.Sorts.{sort_view};

use pl_atoms::Names;
use term_walk::Walk;

/// What a term of a text is.
#[derive(Clone, Copy, Debug, PartialEq, Eq)]
pub enum Sort {
    /// `:- D`, a directive (ISO/IEC 13211-1, 7.4.2).
    Directive,
    /// `?- G`.
    Query,
    /// Any other term.
    Clause,
}

/// What the term is that stands next. A directive's own term comes after its first cell.
pub fn sort_of(walk: &Walk<'_>, names: &Names) -> Sort
    ensures { sort_of (texts_of names.now (first walk.now)) ≡ sort_view result (texts_of names.now (first (entered walk.now))) }
{
    if walk.is_functor(names, b":-", 1) {
        Sort::Directive
    } else if walk.is_functor(names, b"?-", 1) {
        Sort::Query
    } else {
        Sort::Clause
    }
}
