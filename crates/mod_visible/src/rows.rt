//! What is visible where, in order.
ghost use Rattle.std.specs.Prelude.{◌≡◌, List, ◌∷◌, [], ◌++◌, map, IfOk, OnOk, Contains};
ghost use Rattle.std.specs.List.{filter_map, list_any};
ghost use Rattle.std.specs.List.Sorted.{IsPermutation, IsSorted};
ghost use Rattle.pl_atoms.specs.Names.{same_text};
ghost use Rattle.search_model.specs.declared.rows.VisibleRow.{VisibleRow};
ghost use Rattle.unit_model.specs.Directives.{Text};
ghost use Rattle.unit_model.specs.Facts.{Facts};
ghost use Rattle.link_model.specs.Rows.{row_cmp};
ghost use Rattle.mod_visible.specs.Clashing as clashing;
ghost use Rattle.mod_visible.specs.Finding.{row_text, AreRows};
ghost use Rattle.mod_visible.specs.Ordered.{distinct_after};
ghost use Rattle.mod_visible.specs.Visibility.{HasCauses, AreModules};

use crate::cause::{Cause, Sort};
use crate::texts::text;
use pl_atoms::{Names, NoMemory};
use search_model::{VisibleRow, VisibleRows};
use std::alloc::Global;
use std::cmp::Ordering;

/// The rows of these causes in the modules that exist, in order, each once.
pub fn rows_of(
    alloc: Global,
    names: &Names,
    modules: &Names,
    causes: &[Cause],
) -> Result<VisibleRows, NoMemory>
    ensures { IfOk result (λ rows. (units : List (Facts Text)) → HasCauses units names.now causes.now → AreModules units modules.now → AreRows names.now units rows) }
{
    let mut found = found_rows(alloc, names, modules, causes)?;
    sort_rows(names, &mut found)?;
    distinct_rows(alloc, names, found.as_slice())
}

fn found_rows(
    alloc: Global,
    names: &Names,
    modules: &Names,
    causes: &[Cause],
) -> Result<Vec<VisibleRow>, NoMemory>
    ensures { IfOk result (λ rows. rows.items ≡ filter_map (clashing.row_of names.now modules.now) causes.now) }
{
    let mut found = Vec::new(alloc);
    for cause in causes {
        add_row(names, modules, cause, &mut found)?;
    }
    Ok(found)
}

fn add_row(
    names: &Names,
    modules: &Names,
    cause: &Cause,
    found: &mut Vec<VisibleRow>,
) -> Result<(), NoMemory>
    ensures { OnOk result (found.new.items ≡ found.old.items ++ filter_map (clashing.row_of names.now modules.now) (cause.now ∷ [])) }
{
    if is_shown(names, modules, cause) {
        found.push(VisibleRow {
            module: cause.module,
            ind: cause.ind,
            definer: cause.definer,
        })?;
    }
    Ok(())
}

// Whether a cause is one of visibility in a module that exists.
fn is_shown(names: &Names, modules: &Names, cause: &Cause) -> bool
    ensures { result ≡ clashing.is_shown names.now modules.now cause.now }
{
    match cause.sort {
        Sort::Seeing => exists(modules, text(names, cause.module)),
        Sort::Giving => false,
    }
}

/// Whether a module is one of these.
pub fn exists(modules: &Names, home: &[u8]) -> bool
    ensures { result ≡ list_any (same_text home.now) modules.now }
{
    modules.find(home).is_some()
}

fn compare(names: &Names, a: &VisibleRow, b: &VisibleRow) -> Ordering
    ensures { result ≡ row_cmp (row_text names.now a.now) (row_text names.now b.now) }
{
    let home = text(names, a.module).cmp(text(names, b.module));
    let name = text(names, a.ind.name).cmp(text(names, b.ind.name));
    let arity = a.ind.arity.cmp(&b.ind.arity);
    let definer = text(names, a.definer).cmp(text(names, b.definer));
    home.then(name.then(arity.then(definer)))
}

fn sort_rows(names: &Names, rows: &mut Vec<VisibleRow>) -> Result<(), NoMemory>
    ensures permutation { IsPermutation rows.old.items rows.new.items }
    ensures sorted { OnOk result (IsSorted (λ a b. row_cmp (row_text names.now a) (row_text names.now b)) rows.new.items) }
{
    rows.sort_by(|a, b| compare(names, a, b))?;
    Ok(())
}

fn distinct_rows(alloc: Global, names: &Names, rows: &[VisibleRow]) -> Result<VisibleRows, NoMemory>
    ensures texts { IfOk result (λ rs. map (row_text names.now) rs ≡ distinct_after row_cmp None (map (row_text names.now) rows.now)) }
    ensures those { IfOk result (λ rs. (r : VisibleRow) → Contains rs r → Contains rows.now r) }
{
    let mut distinct = VisibleRows::new(alloc);
    let mut last = None;
    for row in rows {
        if rises(names, last, row) {
            distinct.push(*row)?;
            last = Some(*row);
        }
    }
    Ok(distinct)
}

fn rises(names: &Names, last: Option<VisibleRow>, row: &VisibleRow) -> bool
    ensures { result ≡ clashing.rises row_cmp (row_text names.now) last row.now }
{
    match last {
        Some(last) => compare(names, &last, row).is_lt(),
        None => true,
    }
}
