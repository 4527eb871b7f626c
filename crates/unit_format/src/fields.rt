//! Facts, from the left of bytes. A list grows item by item: a count takes no memory by itself.
ghost use Rattle.std.specs.Prelude.{◌≡◌, map, [], ◌∷◌, ◌++◌, true, OnOk, IfErr};
ghost use Rattle.std.specs.Str.{is_utf8};
ghost use Rattle.unit_model.specs.Views.{ops_view, ind_view, need_view, what_view, entry_view, section_view};
ghost use Rattle.unit_format.specs.Reading.{items_at, counted_at, names_from, names_at, is_new_name, name_or_none, operator_at, flag_at, need_at, entry_at, section_at, modes_at, passed_at, with_modes_at, clause_at, what_at, begins, parts_at, raw_of};
ghost use Rattle.unit_format.specs.Views.{Gives, Fails, raw_view};

use crate::fault::UnitFault;
use crate::numbers::{
    flag_at, indicator_at, name_at, operator_at, section_kind_at, text_at, u8_at, u32_at,
};
use crate::terms::tree_at;
use pl_atoms::{Items, NameId, Names};
use pl_terms::Term;
use std::alloc::Global;
use unit_model::{
    Entries, Entry, Facts, Ind, ModeList, Need, Needs, OpDecls, Section, Sections, What,
};

fn ops_of(alloc: Global, count: u32, bytes: &[u8]) -> Result<(OpDecls, &[u8]), UnitFault>
    ensures { Gives (λ x. (ops_view x.0, x.1.now)) result (items_at operator_at count bytes.now) }
{
    let mut items = Items::new(alloc);
    let mut rest = bytes;
    for _ in 0..count {
        let (item, after) = operator_at(rest)?;
        items.push(item)?;
        rest = after;
    }
    Ok((items, rest))
}

fn flags_of(alloc: Global, count: u8, bytes: &[u8]) -> Result<(ModeList, &[u8]), UnitFault>
    ensures { Gives (λ x. (x.0, x.1.now)) result (items_at flag_at count bytes.now) }
{
    let mut items = Items::new(alloc);
    let mut rest = bytes;
    for _ in 0..count {
        let (item, after) = flag_at(rest)?;
        items.push(item)?;
        rest = after;
    }
    Ok((items, rest))
}

fn names_of(alloc: Global, count: u32, bytes: &[u8]) -> Result<(Names, &[u8]), UnitFault>
    ensures { Gives (λ x. (x.0, x.1.now)) result (names_from count [] bytes.now) }
{
    let mut names = Names::new(alloc);
    let mut rest = bytes;
    for _ in 0..count {
        let (text, after) = text_at(rest)?;
        add_name(&mut names, text)?;
        rest = after;
    }
    Ok((names, rest))
}

fn is_utf8(text: &[u8]) -> bool
    ensures { result ≡ is_utf8 text.now }
{
    std::str::from_utf8(text).is_ok()
}

/// Puts in a name that is UTF-8 and new.
fn add_name(names: &mut Names, text: &[u8]) -> Result<(), UnitFault>
    ensures ok { OnOk result ((is_new_name names.old text.now ≡ true) × (names.new ≡ names.old ++ text.now ∷ [])) }
    ensures err { IfErr result (λ e. Fails e (name_or_none names.old text.now)) }
{
    if !is_utf8(text) {
        return Err(UnitFault::NotUnit);
    }
    let before = names.len();
    names.intern(text)?;
    if names.len() == before {
        return Err(UnitFault::NotUnit);
    }
    Ok(())
}

fn needs_of(alloc: Global, count: u32, bytes: &[u8]) -> Result<(Needs, &[u8]), UnitFault>
    ensures { Gives (λ x. (map need_view x.0, x.1.now)) result (items_at need_at count bytes.now) }
{
    let mut items = Items::new(alloc);
    let mut rest = bytes;
    for _ in 0..count {
        let (item, after) = need_at(alloc, rest)?;
        items.push(item)?;
        rest = after;
    }
    Ok((items, rest))
}

fn entries_of(alloc: Global, count: u32, bytes: &[u8]) -> Result<(Entries, &[u8]), UnitFault>
    ensures { Gives (λ x. (map entry_view x.0, x.1.now)) result (items_at entry_at count bytes.now) }
{
    let mut items = Items::new(alloc);
    let mut rest = bytes;
    for _ in 0..count {
        let (item, after) = entry_at(alloc, rest)?;
        items.push(item)?;
        rest = after;
    }
    Ok((items, rest))
}

fn sections_of(alloc: Global, count: u32, bytes: &[u8]) -> Result<(Sections, &[u8]), UnitFault>
    ensures { Gives (λ x. (map section_view x.0, x.1.now)) result (items_at section_at count bytes.now) }
{
    let mut items = Items::new(alloc);
    let mut rest = bytes;
    for _ in 0..count {
        let (item, after) = section_at(alloc, rest)?;
        items.push(item)?;
        rest = after;
    }
    Ok((items, rest))
}

#[tactic(auto, unfolding(crate::specs::Reading::counted_at))]
fn counted_ops(alloc: Global, bytes: &[u8]) -> Result<(OpDecls, &[u8]), UnitFault>
    ensures { Gives (λ x. (ops_view x.0, x.1.now)) result (counted_at operator_at bytes.now) }
{
    let (count, rest) = u32_at(bytes)?;
    ops_of(alloc, count, rest)
}

#[tactic(auto, unfolding(crate::specs::Reading::names_at))]
fn names_at(alloc: Global, bytes: &[u8]) -> Result<(Names, &[u8]), UnitFault>
    ensures { Gives (λ x. (x.0, x.1.now)) result (names_at bytes.now) }
{
    let (count, rest) = u32_at(bytes)?;
    names_of(alloc, count, rest)
}

#[tactic(auto, unfolding(crate::specs::Reading::counted_at))]
fn counted_needs(alloc: Global, bytes: &[u8]) -> Result<(Needs, &[u8]), UnitFault>
    ensures { Gives (λ x. (map need_view x.0, x.1.now)) result (counted_at need_at bytes.now) }
{
    let (count, rest) = u32_at(bytes)?;
    needs_of(alloc, count, rest)
}

#[tactic(auto, unfolding(crate::specs::Reading::counted_at))]
fn counted_entries(alloc: Global, bytes: &[u8]) -> Result<(Entries, &[u8]), UnitFault>
    ensures { Gives (λ x. (map entry_view x.0, x.1.now)) result (counted_at entry_at bytes.now) }
{
    let (count, rest) = u32_at(bytes)?;
    entries_of(alloc, count, rest)
}

#[tactic(auto, unfolding(crate::specs::Reading::counted_at))]
fn counted_sections(alloc: Global, bytes: &[u8]) -> Result<(Sections, &[u8]), UnitFault>
    ensures { Gives (λ x. (map section_view x.0, x.1.now)) result (counted_at section_at bytes.now) }
{
    let (count, rest) = u32_at(bytes)?;
    sections_of(alloc, count, rest)
}

#[tactic(auto, unfolding(crate::specs::Reading::need_at))]
fn need_at(alloc: Global, bytes: &[u8]) -> Result<(Need, &[u8]), UnitFault>
    ensures { Gives (λ x. (need_view x.0, x.1.now)) result (need_at bytes.now) }
{
    let (byte, rest) = u32_at(bytes)?;
    let (module, rest) = name_at(rest)?;
    let (ops, rest) = counted_ops(alloc, rest)?;
    Ok((
        Need {
            byte: byte as usize,
            module,
            ops,
        },
        rest,
    ))
}

#[tactic(auto, unfolding(crate::specs::Reading::modes_at))]
fn modes_at(alloc: Global, bytes: &[u8]) -> Result<(ModeList, &[u8]), UnitFault>
    ensures { Gives (λ x. (x.0, x.1.now)) result (modes_at bytes.now) }
{
    let (count, rest) = u8_at(bytes)?;
    flags_of(alloc, count, rest)
}

#[tactic(auto, unfolding(crate::specs::Reading::passed_at))]
fn passed_at(bytes: &[u8]) -> Result<((NameId, Ind), &[u8]), UnitFault>
    ensures { Gives (λ x. ((x.0.0.0, ind_view x.0.1), x.1.now)) result (passed_at bytes.now) }
{
    let (module, rest) = name_at(bytes)?;
    let (ind, rest) = indicator_at(rest)?;
    Ok(((module, ind), rest))
}

#[tactic(auto, unfolding(crate::specs::Reading::with_modes_at))]
fn with_modes_at(alloc: Global, bytes: &[u8]) -> Result<((NameId, ModeList), &[u8]), UnitFault>
    ensures { Gives (λ x. ((x.0.0.0, x.0.1), x.1.now)) result (with_modes_at bytes.now) }
{
    let (name, rest) = name_at(bytes)?;
    let (modes, rest) = modes_at(alloc, rest)?;
    Ok(((name, modes), rest))
}

#[tactic(auto, unfolding(crate::specs::Reading::clause_at))]
fn clause_at(alloc: Global, bytes: &[u8]) -> Result<((usize, Term, Term), &[u8]), UnitFault>
    ensures { Gives (λ x. (((x.0.0, x.0.1), x.0.2), x.1.now)) result (clause_at bytes.now) }
{
    let (variables, rest) = u32_at(bytes)?;
    let (head, rest) = tree_at(alloc, rest)?;
    let (body, rest) = tree_at(alloc, rest)?;
    Ok(((variables as usize, head, body), rest))
}

#[tactic(auto, unfolding(crate::specs::Reading::what_at))]
fn what_at(alloc: Global, tag: u8, bytes: &[u8]) -> Result<(What, &[u8]), UnitFault>
    ensures { Gives (λ x. (what_view x.0, x.1.now)) result (what_at tag bytes.now) }
{
    match tag {
        1 => {
            let (ind, rest) = indicator_at(bytes)?;
            Ok((What::Export(ind), rest))
        }
        2 => {
            let (module, rest) = name_at(bytes)?;
            Ok((What::ReexportAll(module), rest))
        }
        3 => {
            let ((module, ind), rest) = passed_at(bytes)?;
            Ok((What::Reexport(module, ind), rest))
        }
        4 => {
            let ((name, modes), rest) = with_modes_at(alloc, bytes)?;
            Ok((What::Meta(name, modes), rest))
        }
        5 => {
            let (op, rest) = operator_at(bytes)?;
            Ok((What::Operator(op), rest))
        }
        6 => {
            let (module, rest) = name_at(bytes)?;
            Ok((What::ImportAll(module), rest))
        }
        7 => {
            let ((module, ind), rest) = passed_at(bytes)?;
            Ok((What::Import(module, ind), rest))
        }
        8 => {
            let ((variables, head, body), rest) = clause_at(alloc, bytes)?;
            Ok((What::Clause(variables, head, body), rest))
        }
        _ => Err(UnitFault::NotUnit),
    }
}

#[tactic(auto, unfolding(crate::specs::Reading::entry_at))]
fn entry_at(alloc: Global, bytes: &[u8]) -> Result<(Entry, &[u8]), UnitFault>
    ensures { Gives (λ x. (entry_view x.0, x.1.now)) result (entry_at bytes.now) }
{
    let (tag, rest) = u8_at(bytes)?;
    let (byte, rest) = u32_at(rest)?;
    let (what, rest) = what_at(alloc, tag, rest)?;
    Ok((
        Entry {
            byte: byte as usize,
            what,
        },
        rest,
    ))
}

#[tactic(auto, unfolding(crate::specs::Reading::section_at))]
fn section_at(alloc: Global, bytes: &[u8]) -> Result<(Section, &[u8]), UnitFault>
    ensures { Gives (λ x. (section_view x.0, x.1.now)) result (section_at bytes.now) }
{
    let (kind, rest) = section_kind_at(bytes)?;
    let (byte, rest) = u32_at(rest)?;
    let (module, rest) = name_at(rest)?;
    let (entries, rest) = counted_entries(alloc, rest)?;
    Ok((
        Section {
            kind,
            byte: byte as usize,
            module,
            entries,
        },
        rest,
    ))
}

fn begins(bytes: &[u8]) -> bool
    ensures { result ≡ begins bytes.now }
{
    match bytes {
        [b0, b1, b2, b3, b4, ..] => {
            *b0 == 0x50 && *b1 == 0x4c && *b2 == 0x4d && *b3 == 0x55 && *b4 == 1
        }
        _ => false,
    }
}

#[tactic(auto, unfolding(crate::specs::Reading::parts_at))]
fn parts_at(alloc: Global, bytes: &[u8]) -> Result<((Names, Facts), &[u8]), UnitFault>
    ensures { Gives (λ x. (raw_view x.0, x.1.now)) result (parts_at bytes.now) }
{
    let (names, rest) = names_at(alloc, bytes)?;
    let (needs, rest) = counted_needs(alloc, rest)?;
    let (sections, rest) = counted_sections(alloc, rest)?;
    Ok(((names, Facts { needs, sections }), rest))
}

/// Names and facts as the bytes spell them, before any rule on them.
#[tactic(auto, unfolding(crate::specs::Reading::raw_of))]
pub fn raw(alloc: Global, bytes: &[u8]) -> Result<(Names, Facts), UnitFault>
    ensures { Gives raw_view result (raw_of bytes.now) }
{
    if !begins(bytes) {
        return Err(UnitFault::NotUnit);
    }
    let (parts, rest) = parts_at(alloc, &bytes[5..])?;
    if !rest.is_empty() {
        return Err(UnitFault::NotUnit);
    }
    Ok(parts)
}
