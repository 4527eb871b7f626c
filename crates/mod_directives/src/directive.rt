//! Directives, but those of sections.
ghost use Rattle.std.specs.Prelude.{◌≡◌, ℕ, List, length, Ok, Err};
ghost use Rattle.pl_terms.specs.Trees.{count, back};
ghost use Rattle.pl_terms.specs.Cells.{first};
ghost use Rattle.pl_terms.specs.Order.{texts_of};
ghost use Rattle.pl_terms.specs.NameBounds.{AllNamesBelow};
ghost use Rattle.pl_ops.specs.Tables.{Declaration};
ghost use Rattle.unit_model.specs.Directives.{directive_of, unary_form, binary_form};
ghost use Rattle.unit_model.specs.Preparing.{a_directive, form_said};
ghost use Rattle.unit_model.specs.Saying.{IsSectionDirective};
ghost use Rattle.mod_directives.specs.Reads.{Tells, placed};

use crate::fault::DirFault;
use crate::listing::{Item, Role, Whole, list_entries, part_entries, whole_entries};
use crate::operators::operator_entries;
use crate::words::{Binary, Unary, binary_word, is_op, unary_word};
use pl_atoms::Names;
use pl_ops::OpTable;
use pl_terms::Cell;
use std::alloc::Global;
use term_walk::{Walk, text};
use unit_model::Entries;

/// The entries of the directive that stands next, in an interface or outside interfaces, and its operators in the table. The faults
/// are P8 for an unknown directive, P9 for arguments of another form, P10 where it may not stand there, and P12 where an operator is
/// refused, the least of them; after a fault the table is open. Directives of sections are for the caller.
pub fn directive_entries(
    alloc: Global,
    in_interface: bool,
    mut directive: Walk<'_>,
    byte: usize,
    names: &Names,
    table: &mut OpTable,
) -> Result<Entries, DirFault>
    requires one { count directive ≡ 1 }
    requires below { AllNamesBelow (length names.now) directive }
    requires other { IsSectionDirective (a_directive (directive_of (texts_of names.now (first directive)))) → ⊥ }
    ensures { Tells names.now byte (form_said in_interface (directive_of (texts_of names.now (first directive.entry))) table.old) table.new result }
{
    let Some(Cell::Comp(name, arity)) = directive.peek() else {
        return Err(DirFault::Fault(8));
    };
    directive.enter();
    let name = text(names, name);
    match arity {
        1 => unary_entries(alloc, in_interface, name, directive, byte, names),
        2 => binary_entries(alloc, in_interface, name, directive, byte, names),
        3 => {
            if is_op(name) {
                operator_entries(alloc, in_interface, directive, byte, names, table)
            } else {
                Err(DirFault::Fault(8))
            }
        }
        _ => Err(DirFault::Fault(8)),
    }
}

// The entries of a directive of this name, whose one argument stands next.
fn unary_entries(
    alloc: Global,
    in_interface: bool,
    name: &[u8],
    arg: Walk<'_>,
    byte: usize,
    names: &Names,
) -> Result<Entries, DirFault>
    requires one { count arg ≡ 1 }
    requires below { AllNamesBelow (length names.now) arg }
    requires other { IsSectionDirective (a_directive (unary_form name.now (texts_of names.now (first arg)))) → ⊥ }
    ensures { (table : List Declaration) → Tells names.now byte (form_said in_interface (unary_form name.now (texts_of names.now (first arg.entry))) table) table result }
{
    match unary_word(name) {
        Unary::Export => {
            let item = Item::Indicator(Role::Exported);
            placed(in_interface, list_entries(alloc, arg, item, byte, names))
        }
        Unary::Reexport => {
            placed(
                in_interface,
                whole_entries(alloc, &arg, Whole::Reexported, byte, names),
            )
        }
        Unary::Metapredicate => {
            placed(
                in_interface,
                list_entries(alloc, arg, Item::Modes, byte, names),
            )
        }
        Unary::Import => {
            placed(
                !in_interface,
                whole_entries(alloc, &arg, Whole::Imported, byte, names),
            )
        }
        Unary::Discontiguous => {
            let item = Item::Indicator(Role::Discontiguous);
            placed(!in_interface, list_entries(alloc, arg, item, byte, names))
        }
        Unary::Unknown => Err(DirFault::Fault(8)),
    }
}

// The entries of a directive of this name, whose two arguments stand next.
fn binary_entries(
    alloc: Global,
    in_interface: bool,
    name: &[u8],
    args: Walk<'_>,
    byte: usize,
    names: &Names,
) -> Result<Entries, DirFault>
    requires two { count args ≡ 2 }
    requires below { AllNamesBelow (length names.now) args }
    ensures { (table : List Declaration) → Tells names.now byte (form_said in_interface (binary_form name.now (texts_of names.now (first args.entry)) (texts_of names.now (first (back 1 args.entry)))) table) table result }
{
    match binary_word(name) {
        Binary::Reexport => {
            placed(
                in_interface,
                part_entries(alloc, args, Whole::Reexported, byte, names),
            )
        }
        Binary::Import => {
            placed(
                !in_interface,
                part_entries(alloc, args, Whole::Imported, byte, names),
            )
        }
        Binary::Unknown => Err(DirFault::Fault(8)),
    }
}

// The entries of a directive that is allowed. P10 where it has its form and isn't.
fn placed(allowed: bool, read: Result<Entries, DirFault>) -> Result<Entries, DirFault>
    ensures { result ≡ placed allowed read }
{
    match read {
        Ok(entries) => {
            if allowed {
                Ok(entries)
            } else {
                Err(DirFault::Fault(10))
            }
        }
        Err(fault) => Err(fault),
    }
}
