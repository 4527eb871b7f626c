//! Where definers clash.
ghost use Rattle.std.specs.Prelude.{◌≡◌, List, ◌∷◌, [], ◌++◌, map, IfOk, OnOk};
ghost use Rattle.std.specs.List.{filter_map};
ghost use Rattle.std.specs.List.Sorted.{IsPermutation, IsSorted};
ghost use Rattle.unit_model.specs.Directives.{Text};
ghost use Rattle.unit_model.specs.Facts.{Facts};
ghost use Rattle.mod_visible.specs.Clashing as clashing;
ghost use Rattle.mod_visible.specs.Finding.{place_cmp, clash_place, clash_places};
ghost use Rattle.mod_visible.specs.Leasts.{AreLeasts};
ghost use Rattle.mod_visible.specs.Ordered.{distinct_after};
ghost use Rattle.mod_visible.specs.Visibility.{HasCauses};

use crate::cause::{Cause, Sort};
use crate::keys::Key;
use crate::leasts::{Leasts, is_upto, leasts_of};
use crate::texts::{is_builtin, text};
use pl_atoms::{Names, NoMemory};
use std::alloc::Global;
use std::cmp::Ordering;

/// The place of a cause whose definer is another than that of an earlier cause, or of one at the same place: the number of the
/// unit, and the byte.
#[derive(Clone, Copy, Debug, PartialEq, Eq)]
pub struct Clash {
    pub unit: usize,
    pub byte: usize,
}

/// The places of clashes among these causes, in order, each once. `firsts` has the causes at the first places.
pub fn clashes_of(
    alloc: Global,
    names: &Names,
    causes: &[Cause],
    firsts: &Leasts,
) -> Result<Vec<Clash>, NoMemory>
    ensures { IfOk result (λ cs. (units : List (Facts Text)) → HasCauses units names.now causes.now → AreLeasts [] causes.now firsts.now.causes.entries → map clash_place cs.items ≡ clash_places units) }
{
    let others = leasts_of(alloc, causes, firsts)?;
    let mut found = found_clashes(alloc, names, causes, &others)?;
    sort_clashes(&mut found)?;
    distinct_clashes(alloc, found.as_slice())
}

fn found_clashes(
    alloc: Global,
    names: &Names,
    causes: &[Cause],
    others: &Leasts,
) -> Result<Vec<Clash>, NoMemory>
    ensures { IfOk result (λ cs. cs.items ≡ filter_map (clashing.clash_of names.now others.now.causes.entries) causes.now) }
{
    let mut found = Vec::new(alloc);
    for cause in causes {
        add_clash(names, cause, others, &mut found)?;
    }
    Ok(found)
}

fn add_clash(
    names: &Names,
    cause: &Cause,
    others: &Leasts,
    found: &mut Vec<Clash>,
) -> Result<(), NoMemory>
    ensures { OnOk result (found.new.items ≡ found.old.items ++ filter_map (clashing.clash_of names.now others.now.causes.entries) (cause.now ∷ [])) }
{
    if is_clash(names, cause, others) {
        found.push(Clash {
            unit: cause.unit,
            byte: cause.byte,
        })?;
    }
    Ok(())
}

// Whether another definer is against a cause.
fn is_clash(names: &Names, cause: &Cause, others: &Leasts) -> bool
    ensures { result ≡ clashing.is_clash_in names.now others.now.causes.entries cause.now }
{
    overrides(names, cause) || is_after(others.get(Key::of(cause)), cause)
}

// Whether a cause makes another procedure of a built-in one's name visible.
fn overrides(names: &Names, cause: &Cause) -> bool
    ensures { result ≡ clashing.overrides names.now cause.now }
{
    match cause.sort {
        Sort::Seeing => is_builtin(text(names, cause.ind.name), cause.ind.arity),
        Sort::Giving => false,
    }
}

fn is_after(other: Option<Cause>, cause: &Cause) -> bool
    ensures { result ≡ clashing.is_after other cause.now }
{
    match other {
        Some(other) => is_upto(&other, cause),
        None => false,
    }
}

fn compare(a: &Clash, b: &Clash) -> Ordering
    ensures { result ≡ place_cmp (clash_place a.now) (clash_place b.now) }
{
    a.unit.cmp(&b.unit).then(a.byte.cmp(&b.byte))
}

fn sort_clashes(clashes: &mut Vec<Clash>) -> Result<(), NoMemory>
    ensures permutation { IsPermutation clashes.old.items clashes.new.items }
    ensures sorted { OnOk result (IsSorted (λ a b. place_cmp (clash_place a) (clash_place b)) clashes.new.items) }
{
    clashes.sort_by(|a, b| compare(a, b))?;
    Ok(())
}

fn distinct_clashes(alloc: Global, clashes: &[Clash]) -> Result<Vec<Clash>, NoMemory>
    ensures { IfOk result (λ cs. map clash_place cs.items ≡ distinct_after place_cmp None (map clash_place clashes.now)) }
{
    let mut distinct = Vec::new(alloc);
    let mut last = None;
    for clash in clashes {
        if rises(last, clash) {
            distinct.push(*clash)?;
            last = Some(*clash);
        }
    }
    Ok(distinct)
}

fn rises(last: Option<Clash>, clash: &Clash) -> bool
    ensures { result ≡ clashing.rises place_cmp clash_place last clash.now }
{
    match last {
        Some(last) => compare(&last, clash).is_lt(),
        None => true,
    }
}
