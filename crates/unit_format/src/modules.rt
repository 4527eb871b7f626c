//! The rules on the modules that a unit names.
ghost use Rattle.std.specs.Prelude.{◌≡◌, ℕ, [], ◌∷◌, ◌++◌, nat_eq, true, ◌||◌, OnOk, IfOk};
ghost use Rattle.std.specs.List.{list_all, list_any, filter_map};
ghost use Rattle.unit_format.specs.Rules.{holds_id, own_id, own_holds, need_ids, needs_by, known_by, entries_known_by, section_known_by, all_known_by, modules_by};

use crate::clauses::text_of;
use crate::sections::{is_interface, is_system, is_user};
use indexmap::IndexSet;
use pl_atoms::{NameId, Names, NoMemory};
use std::alloc::Global;
use unit_model::{Facts, Need, Section, What};

// Names by number.
#[derive(Drop)]
struct NameSet {
    ids: IndexSet<usize>,
}

impl NameSet {
    fn has(&self, name: NameId) -> bool
        ensures { result ≡ holds_id self.now.ids.keys name.0 }
    {
        self.ids.contains(&name.0)
    }

    fn add(&mut self, name: NameId) -> Result<(), NoMemory>
        ensures { OnOk result ((n : ℕ) → holds_id self.new.ids.keys n ≡ (nat_eq n name.0 || holds_id self.old.ids.keys n)) }
    {
        self.ids.insert(name.0)?;
        Ok(())
    }
}

fn own_modules(alloc: Global, sections: &[Section]) -> Result<NameSet, NoMemory>
    ensures { IfOk result (λ set. (n : ℕ) → holds_id set.ids.keys n ≡ holds_id (filter_map own_id sections.now) n) }
{
    let mut own = NameSet {
        ids: IndexSet::new(alloc),
    };
    for section in sections {
        add_own(&mut own, section)?;
    }
    Ok(own)
}

fn add_own(own: &mut NameSet, section: &Section) -> Result<(), NoMemory>
    ensures { OnOk result ((n : ℕ) → holds_id own.new.ids.keys n ≡ (own_holds section.now n || holds_id own.old.ids.keys n)) }
{
    if !is_interface(section.kind) {
        return Ok(());
    }
    own.add(section.module)
}

fn may_be_needed(names: &Names, known: &NameSet, wanted: NameId) -> bool
    ensures { result ≡ needs_by names.now known.now.ids.keys (wanted.0 ∷ []) }
{
    let text = text_of(names, wanted);
    if is_user(text) {
        return false;
    }
    if is_system(text) {
        return false;
    }
    !known.has(wanted)
}

/// Whether the needs are distinct modules, none of them `user`, `system` or known before. Then they are known.
fn add_needs(names: &Names, needs: &[Need], known: &mut NameSet) -> Result<bool, NoMemory>
    ensures test { IfOk result (λ b. b ≡ needs_by names.now known.old.ids.keys (need_ids needs.now)) }
    ensures known { IfOk result (λ b. b ≡ true → (n : ℕ) → holds_id known.new.ids.keys n ≡ holds_id (known.old.ids.keys ++ need_ids needs.now) n) }
{
    for need in needs {
        if !may_be_needed(names, known, need.module) {
            return Ok(false);
        }
        known.add(need.module)?;
    }
    Ok(true)
}

fn is_known(known: &NameSet, what: &What) -> bool
    ensures { result ≡ known_by (holds_id known.now.ids.keys) what.now }
{
    match what {
        What::ReexportAll(module) => known.has(*module),
        What::Reexport(module, _) => known.has(*module),
        What::ImportAll(module) => known.has(*module),
        What::Import(module, _) => known.has(*module),
        _ => true,
    }
}

fn entries_known(known: &NameSet, section: &Section) -> bool
    ensures { result ≡ entries_known_by (holds_id known.now.ids.keys) section.now }
{
    section
        .entries
        .as_slice()
        .iter()
        .all(|e| is_known(known, &e.what))
}

fn section_known(known: &NameSet, section: &Section) -> bool
    ensures { result ≡ section_known_by (holds_id known.now.ids.keys) section.now }
{
    (is_interface(section.kind) || known.has(section.module)) && entries_known(known, section)
}

fn are_known(known: &NameSet, sections: &[Section]) -> bool
    ensures { result ≡ list_all (section_known_by (holds_id known.now.ids.keys)) sections.now }
{
    sections.iter().all(|s| section_known(known, s))
}

fn all_known(known: &NameSet, sections: &[Section]) -> bool
    ensures { result ≡ all_known_by (holds_id known.now.ids.keys) sections.now }
{
    match sections {
        [] => true,
        [first, others @ ..] => entries_known(known, first) && are_known(known, others),
    }
}

/// Whether the needs are distinct, and each module that is named has a need or an interface.
pub fn are_modules_known(alloc: Global, names: &Names, facts: &Facts) -> Result<bool, NoMemory>
    ensures { IfOk result (λ b. b ≡ modules_by names.now facts.now) }
{
    let sections = facts.sections.as_slice();
    let mut known = own_modules(alloc, sections)?;
    if !add_needs(names, facts.needs.as_slice(), &mut known)? {
        return Ok(false);
    }
    Ok(all_known(&known, sections))
}
