//! Directives that declare operators.
ghost use Rattle.std.specs.Prelude.{◌≡◌, ◌<◌, [], ◌∷◌, ◌++◌, ℕ, List, codes, length, None, Some, Err, All, IfOk, IfSome, OnOk, option_map, if◌then◌else◌};
ghost use Rattle.pl_terms.specs.Trees.{count, back};
ghost use Rattle.pl_terms.specs.Cells.{first};
ghost use Rattle.pl_terms.specs.Order.{text_of, texts_of};
ghost use Rattle.pl_terms.specs.NameBounds.{AllNamesBelow};
ghost use Rattle.pl_ops.specs.Refusals as refusals;
ghost use Rattle.pl_ops.specs.Tables.{operator, Operators, same_text};
ghost use Rattle.unit_model.specs.Facts.{operator_by};
ghost use Rattle.unit_model.specs.Views.{op_view, entries_view};
ghost use Rattle.unit_model.specs.Directives.{operator_names_in, operator_form, single, text_in};
ghost use Rattle.unit_model.specs.Preparing.{form_said, operators_said, operator_entries, entries_at, declaration};
ghost use Rattle.unit_model.specs.Entries.{EntriesBelow, entries_in};
ghost use Rattle.mod_directives.specs.Several.{listed_by};
ghost use Rattle.mod_directives.specs.Operators.{texts, IsDeclared};
ghost use Rattle.mod_directives.specs.Reads.{Tells};
ghost use Rattle.mod_directives.specs.declared.fault.DirFault.TheVariants.{Fault};

use crate::fault::DirFault;
use crate::listing::{atom, is_end};
use crate::words::is_nil;
use pl_atoms::{Items, NameId, Names, NoMemory};
use pl_ops::{Kind, OpRefusal, OpTable};
use pl_terms::Cell;
use std::alloc::Global;
use term_walk::{Walk, text};
use unit_model::{Entries, Entry, OpDecl, What};

/// Declares the operators of an operator directive, whose three arguments stand next (ISO/IEC 13211-1, 7.4.2.4). In an interface each
/// is an entry. P9 exactly where the arguments have another form, then P12 where an operator is refused; the table is then open.
pub(crate) fn operator_entries(
    alloc: Global,
    in_interface: bool,
    mut args: Walk<'_>,
    byte: usize,
    names: &Names,
    table: &mut OpTable,
) -> Result<Entries, DirFault>
    requires three { count args ≡ 3 }
    requires below { AllNamesBelow (length names.now) args }
    ensures { let arg = λ (k : ℕ). texts_of names.now (first (back k args.entry)) in Tells names.now byte (form_said in_interface (operator_form (arg 0) (arg 1) (arg 2)) table.old) table.new result }
{
    let Some(Cell::Int(priority)) = args.peek() else {
        return Err(DirFault::Fault(9));
    };
    args.enter();
    let Some(kind) = atom(&args) else {
        return Err(DirFault::Fault(9));
    };
    args.enter();
    let Some(list) = operator_names(alloc, args, names)? else {
        return Err(DirFault::Fault(9));
    };
    let declared = Declared {
        priority,
        kind: text(names, kind),
        byte,
        is_entry: in_interface,
    };
    declare_all(alloc, &declared, &list, names, table)
}

// What an operator directive declares of each of its names.
#[derive(Drop)]
struct Declared<'a> {
    priority: i64,
    kind: &'a [u8],
    byte: usize,
    // Whether each operator is an entry.
    is_entry: bool,
}

// The names of an operator directive: one atom, or a proper list of atoms. None where there stands neither.
fn operator_names(
    alloc: Global,
    list: Walk<'_>,
    names: &Names,
) -> Result<Option<Items<NameId>>, NoMemory>
    requires { AllNamesBelow (length names.now) list }
    ensures names { IfOk result (λ found. option_map (texts (text_of names.now)) found ≡ operator_names_in (texts_of names.now (first list.entry))) }
    ensures below { IfOk result (λ found. IfSome found (All (λ id. id.0 < length names.now))) }
{
    match atom(&list) {
        Some(name) => {
            let found = single_name(alloc, name, names)?;
            Ok(Some(found))
        }
        None => listed_names(alloc, list, names),
    }
}

// An atom alone is a name, but for the empty list.
fn single_name(alloc: Global, name: NameId, names: &Names) -> Result<Items<NameId>, NoMemory>
    ensures { IfOk result (λ found. found ≡ (if same_text (text_of names.now name.0) (codes "[]") then [] else name ∷ [])) }
{
    let mut found = Items::new(alloc);
    if is_nil(text(names, name)) {
        return Ok(found);
    }
    found.push(name)?;
    Ok(found)
}

// The atoms of a proper list. None where there stands no such list.
fn listed_names(
    alloc: Global,
    mut list: Walk<'_>,
    names: &Names,
) -> Result<Option<Items<NameId>>, NoMemory>
    requires { AllNamesBelow (length names.now) list }
    ensures names { IfOk result (λ found. option_map (texts (text_of names.now)) found ≡ listed_by (λ t. single (text_in t)) (texts_of names.now (first list.entry))) }
    ensures below { IfOk result (λ found. IfSome found (All (λ id. id.0 < length names.now))) }
{
    let mut found = Items::new(alloc);
    'items: while list.is_functor(names, b".", 2) {
        list.enter();
        let Some(name) = atom(&list) else {
            return Ok(None);
        };
        found.push(name)?;
        list.enter();
    }
    if is_end(&list, names) {
        Ok(Some(found))
    } else {
        Ok(None)
    }
}

// Declares an operator of each name, up to the first that is refused.
fn declare_all(
    alloc: Global,
    declared: &Declared<'_>,
    list: &Items<NameId>,
    names: &Names,
    table: &mut OpTable,
) -> Result<Entries, DirFault>
    requires { All (λ id. id.0 < length names.now) list.now }
    ensures { Tells names.now declared.now.byte (operators_said declared.now.is_entry declared.now.priority declared.now.kind.now (texts (text_of names.now) list.now) table.old) table.new result }
{
    let mut entries = Entries::new(alloc);
    let ids = list.as_slice();
    for id in ids {
        declare(declared, *id, names, table, &mut entries)?;
    }
    Ok(entries)
}

// Declares an operator of one name.
fn declare(
    declared: &Declared<'_>,
    name: NameId,
    names: &Names,
    table: &mut OpTable,
    entries: &mut Entries,
) -> Result<(), DirFault>
    requires below { name.0 < length names.now }
    requires entries_below { EntriesBelow (length names.now) (entries_view entries.old) }
    ensures ok { OnOk result (IsDeclared names.now declared.now name table.old table.new entries.old entries.new) }
    ensures below { OnOk result (EntriesBelow (length names.now) (entries_view entries.new)) }
    ensures fault { (n : ℕ) → result ≡ Err (Fault n) → (n ≡ 12) × (refusals.refusal (operator table.old) declared.now.priority declared.now.kind.now (text_of names.now name.0) ≡ None → ⊥) }
{
    let Some(operator) = operator(declared, name) else {
        return Err(DirFault::Fault(12));
    };
    add(table, declared, text(names, name))?;
    push_operator(entries, declared, operator)?;
    Ok(())
}

// Puts the entry of an operator last, if it makes one.
fn push_operator(
    entries: &mut Entries,
    declared: &Declared<'_>,
    operator: OpDecl,
) -> Result<(), NoMemory>
    ensures entries { OnOk result ((names : List (List ℕ)) → entries_in names entries.new ≡ entries_in names entries.old ++ entries_at declared.now.byte (operator_entries declared.now.is_entry (operator_by (text_of names) (op_view operator) ∷ []))) }
    ensures below { OnOk result ((n : ℕ) → operator.name.0 < n → EntriesBelow n (entries_view entries.old) → EntriesBelow n (entries_view entries.new)) }
{
    if declared.is_entry {
        let what = What::Operator(operator);
        entries.push(Entry {
            byte: declared.byte,
            what,
        })?;
    }
    Ok(())
}

// Adds an operator of this name to the table. P12 where it is refused.
fn add(table: &mut OpTable, declared: &Declared<'_>, name: &[u8]) -> Result<(), DirFault>
    ensures free { OnOk result (refusals.refusal (operator table.old) declared.now.priority declared.now.kind.now name.now ≡ None) }
    ensures ok { OnOk result (operator table.new ≡ operator (table.old ++ refusals.declared declared.now.priority declared.now.kind.now name.now)) }
    ensures fault { (n : ℕ) → result ≡ Err (Fault n) → (n ≡ 12) × (refusals.refusal (operator table.old) declared.now.priority declared.now.kind.now name.now ≡ None → ⊥) }
{
    match table.add(declared.priority, declared.kind, name) {
        Ok(()) => Ok(()),
        Err(OpRefusal::NoMemory) => Err(DirFault::NoMemory),
        Err(_) => Err(DirFault::Fault(12)),
    }
}

// The operator that is declared of this name. None only where each name is refused.
fn operator(declared: &Declared<'_>, name: NameId) -> Option<OpDecl>
    ensures some { IfSome result (λ o. (f : ℕ → List ℕ) → refusals.declared declared.now.priority declared.now.kind.now (f name.0) ≡ declaration (operator_by f (op_view o)) ∷ []) }
    ensures named { IfSome result (λ o. o.name ≡ name) }
    ensures none { result ≡ None → (look : Operators) (text : List ℕ) → refusals.refusal look declared.now.priority declared.now.kind.now text ≡ None → ⊥ }
{
    let priority = declared.priority;
    if priority < 0 || priority > 1200 {
        return None;
    }
    let kind = Kind::of_word(declared.kind)?;
    Some(OpDecl {
        priority: priority as u16,
        kind,
        name,
    })
}
