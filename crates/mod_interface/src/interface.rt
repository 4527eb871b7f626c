//! The terms of interfaces (ISO/IEC 13211-2, 6.2).
ghost use Rattle.std.specs.Prelude.{◌≡◌, ℕ, length, true, Err, IfOk};
ghost use Rattle.pl_terms.specs.Order.{texts_of};
ghost use Rattle.pl_terms.specs.NameBounds.{NamesBelow};
ghost use Rattle.unit_model.specs.Views.{entries_view};
ghost use Rattle.unit_model.specs.Preparing.{said, sort_of};
ghost use Rattle.unit_model.specs.Entries.{EntriesBelow, entries_in};
ghost use Rattle.unit_model.specs.Saying.{IsSectionDirective, Says};
ghost use Rattle.mod_directives.specs.declared.fault.DirFault.TheVariants.{Fault};

use mod_directives::{DirFault, Sort, directive_entries, sort_of};
use pl_atoms::Names;
use pl_ops::OpTable;
use pl_terms::ReadTerm;
use std::alloc::Global;
use term_walk::Walk;
use unit_model::Entries;

/// The entries that a term of an interface makes, unless it opens or ends a section: exported and re-exported procedures,
/// metapredicates and operators, which the table has from then on. The fault is the least of these: P8 for a query or an unknown
/// directive, P9 for arguments of another form, P10 for a directive that may not stand in an interface, P12 where an operator is
/// refused, P16 for a clause. After a fault the table is open.
pub fn interface_entries(
    alloc: Global,
    term: &ReadTerm,
    names: &Names,
    table: &mut OpTable,
) -> Result<Entries, DirFault>
    requires below { NamesBelow (length names.now) term.now.term }
    requires other { IsSectionDirective (sort_of (texts_of names.now term.now.term)) → ⊥ }
    ensures ok { IfOk result (λ es. Says true (texts_of names.now term.now.term) term.now.byte table.old table.new (entries_in names.now es)) }
    ensures below { IfOk result (λ es. EntriesBelow (length names.now) (entries_view es)) }
    ensures fault { (n : ℕ) → result ≡ Err (Fault n) → said true (texts_of names.now term.now.term) table.old ≡ Err n }
{
    let mut walk = Walk::of(&term.term);
    match sort_of(&walk, names) {
        Sort::Directive => {
            walk.enter();
            directive_entries(alloc, true, walk, term.byte, names, table)
        }
        Sort::Query => Err(DirFault::Fault(8)),
        Sort::Clause => Err(DirFault::Fault(16)),
    }
}
