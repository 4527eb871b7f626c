//! The terms outside interfaces (ISO/IEC 13211-2, 6.2).
ghost use Rattle.std.specs.Prelude.{◌≡◌, ℕ, List, length, false, Err, IfOk};
ghost use Rattle.pl_atoms.specs.Names.{IsFront};
ghost use Rattle.pl_terms.specs.Order.{texts_of};
ghost use Rattle.pl_terms.specs.NameBounds.{NamesBelow};
ghost use Rattle.pl_ops.specs.Tables.{Declaration};
ghost use Rattle.unit_model.specs.Views.{entries_view};
ghost use Rattle.unit_model.specs.Preparing.{said, clause_said, sort_of};
ghost use Rattle.unit_model.specs.Entries.{EntriesBelow, entries_in};
ghost use Rattle.unit_model.specs.Saying.{IsSectionDirective, Says};
ghost use Rattle.mod_directives.specs.Reads.{Tells};
ghost use Rattle.mod_directives.specs.declared.fault.DirFault.TheVariants.{Fault};

use crate::clause::clause;
use mod_directives::{DirFault, Sort, directive_entries, sort_of};
use pl_atoms::Names;
use pl_ops::OpTable;
use pl_terms::ReadTerm;
use std::alloc::Global;
use term_walk::Walk;
use unit_model::{Entries, Entry};

/// The entries that a term outside interfaces makes, unless it opens or ends a section: its clause, or imported procedures; operators
/// go into the table alone. The fault is the least of these: P8 for a query or an unknown directive, P9 for arguments of another form,
/// P10 for a directive that may stand only in an interface, P12 where an operator is refused, P13 and P14 for what is no clause of the
/// user's. After a fault the table is open. `names` may gain names, and each that it had keeps its number.
pub fn body_entries(
    alloc: Global,
    term: &ReadTerm,
    names: &mut Names,
    table: &mut OpTable,
) -> Result<Entries, DirFault>
    requires below { NamesBelow (length names.old) term.now.term }
    requires other { IsSectionDirective (sort_of (texts_of names.old term.now.term)) → ⊥ }
    ensures ok { IfOk result (λ es. Says false (texts_of names.old term.now.term) term.now.byte table.old table.new (entries_in names.new es)) }
    ensures below { IfOk result (λ es. EntriesBelow (length names.new) (entries_view es)) }
    ensures fault { (n : ℕ) → result ≡ Err (Fault n) → said false (texts_of names.old term.now.term) table.old ≡ Err n }
    ensures front { IsFront names.old names.new }
{
    let mut walk = Walk::of(&term.term);
    match sort_of(&walk, names) {
        Sort::Directive => {
            walk.enter();
            directive_entries(alloc, false, walk, term.byte, names, table)
        }
        Sort::Query => Err(DirFault::Fault(8)),
        Sort::Clause => clause_entries(alloc, term, names),
    }
}

// The entry of a clause.
fn clause_entries(alloc: Global, term: &ReadTerm, names: &mut Names) -> Result<Entries, DirFault>
    requires { NamesBelow (length names.old) term.now.term }
    ensures tells { (table : List Declaration) → Tells names.new term.now.byte (clause_said false (texts_of names.old term.now.term) table) table result }
    ensures front { IsFront names.old names.new }
{
    let what = clause(alloc, &term.term, names)?;
    let mut entries = Entries::new(alloc);
    entries.push(Entry {
        byte: term.byte,
        what,
    })?;
    Ok(entries)
}
