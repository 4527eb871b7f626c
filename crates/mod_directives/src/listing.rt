//! The entries of directives that list indicators or mode terms.
ghost use Rattle.std.specs.Prelude.{◌≡◌, ℕ, List, ◌++◌, ◌<◌, length, None, Some, Err, IfOk, IfSome, OnOk, option_map};
ghost use Rattle.pl_terms.specs.Trees.{count, back, renamed, all_renamed};
ghost use Rattle.pl_terms.specs.Cells.{first};
ghost use Rattle.pl_terms.specs.Order.{text_of, texts_of};
ghost use Rattle.pl_terms.specs.NameBounds.{AllNamesBelow};
ghost use Rattle.unit_model.specs.Directives.{both, text_in};
ghost use Rattle.unit_model.specs.Preparing.{entries_at};
ghost use Rattle.unit_model.specs.Views.{entries_view};
ghost use Rattle.unit_model.specs.Entries.{EntriesBelow, entries_in};
ghost use Rattle.term_walk.specs.Walks.{first_cell, size};
ghost use Rattle.term_walk.specs.Items.{indicator_text};
ghost use Rattle.mod_directives.specs.Lists.{role_said, RoleBelow, ItemBelow};
ghost use Rattle.mod_directives.specs.Lists as spec;
ghost use Rattle.mod_directives.specs.Several.{all_joined, listed_by};
ghost use Rattle.mod_directives.specs.Reads.{Pushes, Lists};
ghost use Rattle.mod_directives.specs.declared.fault.DirFault.TheVariants.{Fault};

use crate::fault::DirFault;
use crate::words::is_nil;
use pl_atoms::{NameId, Names, NoMemory};
use pl_terms::Cell;
use std::alloc::Global;
use term_walk::{ModeTerm, Walk, indicator, mode_term, text};
use unit_model::{Entries, Entry, Ind, What};

/// What a directive says of an indicator.
#[derive(Clone, Copy)]
pub(crate) enum Role {
    Exported,
    /// Re-exported from this module.
    Reexported(NameId),
    /// Imported from this module.
    Imported(NameId),
    /// Nothing.
    Discontiguous,
}

/// An item of a directive's list.
#[derive(Clone, Copy)]
pub(crate) enum Item {
    Indicator(Role),
    Modes,
}

/// What a directive says of all that a module gives.
#[derive(Clone, Copy)]
pub(crate) enum Whole {
    Reexported,
    Imported,
}

/// The atom that stands next. None where none does.
pub(crate) fn atom(walk: &Walk<'_>) -> Option<NameId>
    ensures text { (f : ℕ → List ℕ) → option_map (λ id. f id.0) result ≡ text_in (renamed f (first walk.now)) }
    ensures below { (n : ℕ) → AllNamesBelow n walk.now → IfSome result (λ id. id.0 < n) }
{
    match walk.peek() {
        Some(Cell::Name(id)) => Some(id),
        _ => None,
    }
}

/// The entries of one item, of a proper list of items, or of items joined by commas, whichever is found first. P9 exactly where
/// none is found.
pub(crate) fn list_entries(
    alloc: Global,
    mut list: Walk<'_>,
    item: Item,
    byte: usize,
    names: &Names,
) -> Result<Entries, DirFault>
    requires one { count list ≡ 1 }
    requires below { AllNamesBelow (length names.now) list }
    requires item_below { ItemBelow (length names.now) item }
    ensures { Lists names.now (spec.list_entries (text_of names.now) item byte (texts_of names.now (first list.entry))) result }
{
    let mut entries = Entries::new(alloc);
    if push_item(alloc, &mut list, item, byte, names, &mut entries)? {
        return Ok(entries);
    }
    if list.is_functor(names, b",", 2) {
        joined_entries(alloc, list, item, byte, names)
    } else {
        proper_list_entries(alloc, list, item, byte, names)
    }
}

// The entries of items joined by commas.
fn joined_entries(
    alloc: Global,
    mut list: Walk<'_>,
    item: Item,
    byte: usize,
    names: &Names,
) -> Result<Entries, DirFault>
    requires below { AllNamesBelow (length names.now) list }
    requires item_below { ItemBelow (length names.now) item }
    ensures { Lists names.now (all_joined (spec.item_entries (text_of names.now) item byte) (all_renamed (text_of names.now) list.entry)) result }
{
    let mut entries = Entries::new(alloc);
    while list.has_more() {
        push_joined(alloc, &mut list, item, byte, names, &mut entries)?;
    }
    Ok(entries)
}

// Puts the entries of the next item last, or goes past the comma that stands next.
fn push_joined(
    alloc: Global,
    list: &mut Walk<'_>,
    item: Item,
    byte: usize,
    names: &Names,
    entries: &mut Entries,
) -> Result<(), DirFault>
    requires some { 0 < count list.old }
    requires below { AllNamesBelow (length names.now) list.old }
    requires item_below { ItemBelow (length names.now) item }
    requires entries_below { EntriesBelow (length names.now) (entries_view entries.old) }
    ensures ok { let one = spec.item_entries (text_of names.now) item byte in OnOk result (both (Some (entries_in names.now entries.new)) (all_joined one (all_renamed (text_of names.now) list.new)) ≡ both (Some (entries_in names.now entries.old)) (all_joined one (all_renamed (text_of names.now) list.old))) }
    ensures below { OnOk result (AllNamesBelow (length names.now) list.new) }
    ensures entries_below { OnOk result (EntriesBelow (length names.now) (entries_view entries.new)) }
    ensures less { OnOk result (size list.new < size list.old) }
    ensures fault { (n : ℕ) → result ≡ Err (Fault n) → (n ≡ 9) × (all_joined (spec.item_entries (text_of names.now) item byte) (all_renamed (text_of names.now) list.old) ≡ None) }
{
    if push_item(alloc, list, item, byte, names, entries)? {
        return Ok(());
    }
    if list.is_functor(names, b",", 2) {
        list.enter();
        Ok(())
    } else {
        Err(DirFault::Fault(9))
    }
}

// The entries of a proper list of items.
fn proper_list_entries(
    alloc: Global,
    mut list: Walk<'_>,
    item: Item,
    byte: usize,
    names: &Names,
) -> Result<Entries, DirFault>
    requires below { AllNamesBelow (length names.now) list }
    requires item_below { ItemBelow (length names.now) item }
    ensures { Lists names.now (listed_by (spec.item_entries (text_of names.now) item byte) (texts_of names.now (first list.entry))) result }
{
    let mut entries = Entries::new(alloc);
    'items: while list.is_functor(names, b".", 2) {
        list.enter();
        if !push_item(alloc, &mut list, item, byte, names, &mut entries)? {
            return Err(DirFault::Fault(9));
        }
    }
    if is_end(&list, names) {
        Ok(entries)
    } else {
        Err(DirFault::Fault(9))
    }
}

/// The entry of all that the module that stands next gives. P9 exactly where no module stands next.
pub(crate) fn whole_entries(
    alloc: Global,
    arg: &Walk<'_>,
    whole: Whole,
    byte: usize,
    names: &Names,
) -> Result<Entries, DirFault>
    requires { AllNamesBelow (length names.now) arg.now }
    ensures { Lists names.now (spec.whole_entries whole byte (texts_of names.now (first arg.now))) result }
{
    let Some(module) = atom(arg) else {
        return Err(DirFault::Fault(9));
    };
    let what = match whole {
        Whole::Reexported => What::ReexportAll(module),
        Whole::Imported => What::ImportAll(module),
    };
    let mut entries = Entries::new(alloc);
    entries.push(Entry { byte, what })?;
    Ok(entries)
}

/// The entries of the procedures of a module: the module and their indicators stand next. P9 exactly where they don't.
pub(crate) fn part_entries(
    alloc: Global,
    mut args: Walk<'_>,
    whole: Whole,
    byte: usize,
    names: &Names,
) -> Result<Entries, DirFault>
    requires two { count args ≡ 2 }
    requires below { AllNamesBelow (length names.now) args }
    ensures { Lists names.now (spec.part_entries whole byte (texts_of names.now (first args.entry)) (texts_of names.now (first (back 1 args.entry)))) result }
{
    let Some(module) = atom(&args) else {
        return Err(DirFault::Fault(9));
    };
    args.enter();
    let item = Item::Indicator(part(whole, module));
    list_entries(alloc, args, item, byte, names)
}

// What is said of some procedures of a module.
fn part(whole: Whole, from: NameId) -> Role
    ensures { result ≡ spec.part whole from }
{
    match whole {
        Whole::Reexported => Role::Reexported(from),
        Whole::Imported => Role::Imported(from),
    }
}

/// Whether the end of a list stands next.
pub(crate) fn is_end(list: &Walk<'_>, names: &Names) -> bool
    ensures { result ≡ spec.is_end (text_of names.now) (first_cell list.now) }
{
    match list.peek() {
        Some(Cell::Name(id)) => is_nil(text(names, id)),
        _ => false,
    }
}

// Puts the entries of the next item last, and goes past it. False where none stands next.
fn push_item(
    alloc: Global,
    list: &mut Walk<'_>,
    item: Item,
    byte: usize,
    names: &Names,
    entries: &mut Entries,
) -> Result<bool, NoMemory>
    requires some { 0 < count list.old }
    requires below { AllNamesBelow (length names.now) list.old }
    requires item_below { ItemBelow (length names.now) item }
    requires entries_below { EntriesBelow (length names.now) (entries_view entries.old) }
    ensures { IfOk result (Pushes names.now (spec.item_entries (text_of names.now) item byte) list.old list.new entries.old entries.new) }
{
    match item {
        Item::Indicator(role) => match indicator(list, names) {
            Some(ind) => {
                push_role(entries, byte, role, ind)?;
                list.take_tree();
                Ok(true)
            }
            None => Ok(false),
        },
        Item::Modes => match mode_term(alloc, list, names)? {
            Some(found) => {
                let ModeTerm { name, modes } = found;
                entries.push(Entry {
                    byte,
                    what: What::Meta(name, modes),
                })?;
                list.take_tree();
                Ok(true)
            }
            None => Ok(false),
        },
    }
}

// Puts the entry of an indicator last, if it makes one.
fn push_role(entries: &mut Entries, byte: usize, role: Role, ind: Ind) -> Result<(), NoMemory>
    ensures entries { OnOk result ((names : List (List ℕ)) → entries_in names entries.new ≡ entries_in names entries.old ++ entries_at byte (role_said (text_of names) role (indicator_text (text_of names) ind))) }
    ensures below { OnOk result ((n : ℕ) → RoleBelow n role → ind.name.0 < n → EntriesBelow n (entries_view entries.old) → EntriesBelow n (entries_view entries.new)) }
{
    let what = match role {
        Role::Exported => What::Export(ind),
        Role::Reexported(module) => What::Reexport(module, ind),
        Role::Imported(module) => What::Import(module, ind),
        Role::Discontiguous => return Ok(()),
    };
    entries.push(Entry { byte, what })
}
