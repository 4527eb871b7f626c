//! Sections that open and end (ISO/IEC 13211-2, 6.2).
ghost use Rattle.std.specs.Prelude.{◌≡◌, ◌<◌, ◌∷◌, ◌++◌, ◌||◌, [], List, ℕ, length, is_some, Some, None, OnOk, Ok, Err, IfSome};
ghost use Rattle.pl_ops.specs.Tables.{operator};
ghost use Rattle.unit_model.specs.Encoding.{text_at};
ghost use Rattle.unit_model.specs.Preparing.{Interface};
ghost use Rattle.unit_model.specs.Preparing as preparing;
ghost use Rattle.unit_model.specs.Views.{kind_view};
ghost use Rattle.unit_model.specs.Facts.{body};
ghost use Rattle.prep_texts.specs.Drafts.{state_of, closes_section, IsWell};
ghost use Rattle.prep_texts.specs.Seen.{seen, opened_section, open_interface_seen, open_named_seen, opened_seen, closed_seen};
ghost use Rattle.prep_texts.specs.Sections.{module_text};
ghost use Rattle.mod_directives.specs.declared.fault.DirFault.TheVariants.{Fault as FaultOf};

use crate::draft::{Draft, OpenSection};
use crate::known::Known;
use crate::making::interface_made;
use mod_directives::DirFault;
use pl_atoms::{NameId, Names, NoMemory};
use pl_ops::OpTable;
use std::alloc::Global;
use std::mem;
use term_walk::text;
use unit_model::{Entries, Section, SectionKind};

/// Whether a section of this kind is an interface.
pub fn is_interface(kind: SectionKind) -> bool
    ensures { result ≡ preparing.is_interface (kind_view kind) }
{
    match kind {
        SectionKind::Interface => true,
        SectionKind::Body => false,
    }
}

// Whether two kinds of sections are one.
fn same_kind(kind: SectionKind, other: SectionKind) -> bool
    ensures { result ≡ preparing.same_kind (kind_view kind) (kind_view other) }
{
    match (kind, other) {
        (SectionKind::Interface, SectionKind::Interface) => true,
        (SectionKind::Body, SectionKind::Body) => true,
        _ => false,
    }
}

/// Whether no text may have an interface of this module.
fn is_reserved(name: &[u8]) -> bool
    ensures { result ≡ preparing.is_reserved name.now }
{
    if name == b"user".as_slice() {
        true
    } else {
        name == b"system".as_slice()
    }
}

impl Draft {
    /// A section begins, with this table.
    fn begin(&mut self, alloc: Global, kind: SectionKind, byte: usize, name: NameId, table: OpTable)
        requires outside { self.old.section ≡ None }
        requires well { IsWell self.old }
        requires below { name.0 < length self.old.names }
        ensures seen { (known : List Interface) → seen (state_of known self.new) ≡ opened_section (kind_view kind) (text_at self.old.names name.0) byte (operator table) (seen (state_of known self.old)) }
        ensures well { IsWell self.new }
        ensures same { self.new ≡ record self.old { entries = []; table = table; section = self.new.section } }
    {
        let user = mem::replace(&mut self.entries, Entries::new(alloc));
        let outside = mem::replace(&mut self.table, table);
        self.section = Some(OpenSection {
            kind,
            byte,
            module: name,
            user,
            outside,
        });
    }
}

impl Draft {
    /// Opens an interface. Fault 15 where the module has one that is known, or is reserved.
    fn open_interface(
        &mut self,
        alloc: Global,
        known: &Known,
        name: NameId,
        byte: usize,
    ) -> Result<(), DirFault>
        requires outside { self.old.section ≡ None }
        requires well { IsWell self.old }
        requires below { name.0 < length self.old.names }
        ensures ok { OnOk result (open_interface_seen (text_at self.old.names name.0) byte (seen (state_of known.now self.old)) ≡ Ok (seen (state_of known.now self.new))) }
        ensures well { OnOk result (IsWell self.new) }
        ensures fault { (n : ℕ) → result ≡ Err (FaultOf n) → open_interface_seen (text_at self.old.names name.0) byte (seen (state_of known.now self.old)) ≡ Err n }
    {
        if self.may_not_open(known, text(&self.names, name)) {
            return Err(DirFault::Fault(15));
        }
        let table = OpTable::standard(alloc)?;
        self.begin(alloc, SectionKind::Interface, byte, name, table);
        Ok(())
    }

    /// Whether the module has an interface that is known, or is reserved.
    fn may_not_open(&self, known: &Known, name: &[u8]) -> bool
        requires { IsWell self.now }
        ensures { result ≡ (is_some (preparing.operators_known (state_of known.now self.now).known name.now) || preparing.is_reserved name.now) }
    {
        match known.operators(name) {
            Some(_) => true,
            None => match self.own.operators(name) {
                Some(_) => true,
                None => is_reserved(name),
            },
        }
    }

    /// Opens a body, which starts with the operators of its module's interface. Fault 11 where no interface of it is known.
    fn open_body(
        &mut self,
        alloc: Global,
        known: &Known,
        name: NameId,
        byte: usize,
    ) -> Result<(), DirFault>
        requires outside { self.old.section ≡ None }
        requires well { IsWell self.old }
        requires below { name.0 < length self.old.names }
        ensures ok { OnOk result (open_named_seen body (Some (text_at self.old.names name.0)) byte (seen (state_of known.now self.old)) ≡ Ok (seen (state_of known.now self.new))) }
        ensures well { OnOk result (IsWell self.new) }
        ensures fault { (n : ℕ) → result ≡ Err (FaultOf n) → open_named_seen body (Some (text_at self.old.names name.0)) byte (seen (state_of known.now self.old)) ≡ Err n }
    {
        self.need_of(alloc, known, name, byte)?;
        let table = OpTable::standard(alloc)?;
        self.begin(alloc, SectionKind::Body, byte, name, table);
        // A standard table accepts the operators of each interface.
        match self.take_operators(known, name) {
            Ok(()) => Ok(()),
            Err(_) => Err(DirFault::NoMemory),
        }
    }

    /// Opens a section (ISO/IEC 13211-2, 6.2.2 and 6.2.4). Fault 7 where one is open, 9 where its argument is no atom, 11 where a
    /// body's module has no interface that is known, and 15 where an interface's module has one, or is reserved.
    pub fn open_section(
        &mut self,
        alloc: Global,
        known: &Known,
        kind: SectionKind,
        name: Option<NameId>,
        byte: usize,
    ) -> Result<(), DirFault>
        requires well { IsWell self.old }
        requires below { IfSome name (λ m. m.0 < length self.old.names) }
        ensures ok { OnOk result (opened_seen (kind_view kind) (module_text self.old.names name) byte (seen (state_of known.now self.old)) ≡ Ok (seen (state_of known.now self.new))) }
        ensures well { OnOk result (IsWell self.new) }
        ensures fault { (n : ℕ) → result ≡ Err (FaultOf n) → opened_seen (kind_view kind) (module_text self.old.names name) byte (seen (state_of known.now self.old)) ≡ Err n }
    {
        if self.section.is_some() {
            return Err(DirFault::Fault(7));
        }
        let Some(name) = name else {
            return Err(DirFault::Fault(9));
        };
        match kind {
            SectionKind::Interface => self.open_interface(alloc, known, name, byte),
            SectionKind::Body => self.open_body(alloc, known, name, byte),
        }
    }

    /// Ends the open section (ISO/IEC 13211-2, 6.2.3 and 6.2.5). Fault 7 where none is open, or one of another kind or module.
    pub fn end_section(
        &mut self,
        alloc: Global,
        kind: SectionKind,
        name: Option<NameId>,
    ) -> Result<(), DirFault>
        requires well { IsWell self.old }
        ensures ok { OnOk result ((known : List Interface) → closed_seen (kind_view kind) (module_text self.old.names name) (seen (state_of known self.old)) ≡ Ok (seen (state_of known self.new))) }
        ensures well { OnOk result (IsWell self.new) }
        ensures fault { (n : ℕ) → result ≡ Err (FaultOf n) → (known : List Interface) → closed_seen (kind_view kind) (module_text self.old.names name) (seen (state_of known self.old)) ≡ Err n }
    {
        let Some(section) = self.section.take() else {
            return Err(DirFault::Fault(7));
        };
        if !ends(&self.names, kind, name, &section) {
            return Err(DirFault::Fault(7));
        }
        if is_interface(section.kind) {
            let interface = interface_made(
                alloc,
                &self.names,
                section.module,
                self.entries.as_slice(),
            )?;
            self.own.push(alloc, interface)?;
        }
        self.close(section)?;
        Ok(())
    }
}

/// Whether the directive ends this section.
fn ends(names: &Names, kind: SectionKind, name: Option<NameId>, section: &OpenSection) -> bool
    ensures { result ≡ closes_section names.now kind name section.now }
{
    match name {
        Some(name) => {
            same_kind(kind, section.kind) && text(names, name) == text(names, section.module)
        }
        None => false,
    }
}

impl Draft {
    /// The section is over, which was taken out before.
    fn close(&mut self, section: OpenSection) -> Result<(), NoMemory>
        ensures ok { OnOk result (self.new ≡ record self.old { sections = self.new.sections; entries = section.user; table = section.outside }) }
        ensures sections { OnOk result (self.new.sections.items ≡ self.old.sections.items ++ record { kind = section.kind; byte = section.byte; «module» = section.module; entries = self.old.entries } ∷ []) }
    {
        let OpenSection {
            kind,
            byte,
            module: name,
            user,
            outside,
        } = section;
        let entries = mem::replace(&mut self.entries, user);
        self.table = outside;
        self.sections.push(Section {
            kind,
            byte,
            module: name,
            entries,
        })?;
        Ok(())
    }
}
