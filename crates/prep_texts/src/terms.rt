//! Terms of a text, one after another.
ghost use Rattle.std.specs.Prelude.{◌≡◌, ◌<◌, ℕ, length, Some, Ok, Err, OnOk, IfOk, IfSome};
ghost use Rattle.pl_atoms.specs.Names.{IsFront};
ghost use Rattle.pl_terms.specs.NameBounds.{NamesBelow};
ghost use Rattle.pl_terms.specs.Order.{texts_of};
ghost use Rattle.unit_model.specs.Preparing.{sort_of, said, step};
ghost use Rattle.unit_model.specs.Views.{entries_view};
ghost use Rattle.unit_model.specs.Entries.{entries_in, EntriesBelow};
ghost use Rattle.unit_model.specs.Saying.{IsSectionDirective, Says};
ghost use Rattle.prep_texts.specs.Drafts.{state_of, opens_interface, IsWell};
ghost use Rattle.prep_texts.specs.Seen.{seen, next_seen, sourced_seen, section_seen};
ghost use Rattle.prep_texts.specs.Sections.{source_view, directive_view, SourceBelow, DirectiveBelow};
ghost use Rattle.mod_directives.specs.declared.fault.DirFault.TheVariants.{Fault as FaultOf};

use crate::copies::append;
use crate::directives::{ModuleSource, SectionDirective, module_source, section_directive};
use crate::draft::Draft;
use crate::known::Known;
use crate::sections::is_interface;
use mod_body::body_entries;
use mod_directives::DirFault;
use mod_interface::interface_entries;
use pl_terms::ReadTerm;
use std::alloc::Global;
use unit_model::Entries;

impl Draft {
    /// Whether an interface is open.
    fn in_interface(&self) -> bool
        ensures { result ≡ opens_interface self.now.section }
    {
        match &self.section {
            Some(open) => is_interface(open.kind),
            None => false,
        }
    }

    /// The entries that the term says by itself, and its operators in the table.
    fn entries_said(&mut self, alloc: Global, term: &ReadTerm) -> Result<Entries, DirFault>
        requires below { NamesBelow (length self.old.names) term.now.term }
        requires other { IsSectionDirective (sort_of (texts_of self.old.names term.now.term)) → ⊥ }
        ensures ok { IfOk result (λ es. Says (opens_interface self.old.section) (texts_of self.old.names term.now.term) term.now.byte self.old.table self.new.table (entries_in self.new.names es)) }
        ensures below { IfOk result (λ es. EntriesBelow (length self.new.names) (entries_view es)) }
        ensures names { OnOk result (IsFront self.old.names self.new.names) }
        ensures same { OnOk result (self.new ≡ record self.old { names = self.new.names; table = self.new.table }) }
        ensures fault { (n : ℕ) → result ≡ Err (FaultOf n) → said (opens_interface self.old.section) (texts_of self.old.names term.now.term) self.old.table ≡ Err n }
    {
        if self.in_interface() {
            interface_entries(alloc, term, &self.names, &mut self.table)
        } else {
            body_entries(alloc, term, &mut self.names, &mut self.table)
        }
    }

    /// Takes from a module: notes its need, and where it is taken in, its operators in the table.
    fn take_from(
        &mut self,
        alloc: Global,
        known: &Known,
        source: ModuleSource,
        byte: usize,
    ) -> Result<(), DirFault>
        requires well { IsWell self.old }
        requires below { SourceBelow (length self.old.names) source }
        ensures ok { OnOk result (sourced_seen (source_view self.old.names (Some source)) byte (seen (state_of known.now self.old)) ≡ Ok (seen (state_of known.now self.new))) }
        ensures well { OnOk result (IsWell self.new) }
        ensures fault { (n : ℕ) → result ≡ Err (FaultOf n) → sourced_seen (source_view self.old.names (Some source)) byte (seen (state_of known.now self.old)) ≡ Err n }
        ensures names { OnOk result (IsFront self.old.names self.new.names) }
    {
        match source {
            ModuleSource::Passing(name) => self.need_of(alloc, known, name, byte),
            ModuleSource::Taking(name) => {
                self.need_of(alloc, known, name, byte)?;
                self.take_operators(known, name)
            }
        }
    }

    /// Takes from the module of a directive, where it has one.
    fn take_source(
        &mut self,
        alloc: Global,
        known: &Known,
        source: Option<ModuleSource>,
        byte: usize,
    ) -> Result<(), DirFault>
        requires well { IsWell self.old }
        requires below { IfSome source (λ s. SourceBelow (length self.old.names) s) }
        ensures ok { OnOk result (sourced_seen (source_view self.old.names source) byte (seen (state_of known.now self.old)) ≡ Ok (seen (state_of known.now self.new))) }
        ensures well { OnOk result (IsWell self.new) }
        ensures fault { (n : ℕ) → result ≡ Err (FaultOf n) → sourced_seen (source_view self.old.names source) byte (seen (state_of known.now self.old)) ≡ Err n }
        ensures names { OnOk result (IsFront self.old.names self.new.names) }
    {
        match source {
            None => Ok(()),
            Some(source) => self.take_from(alloc, known, source, byte),
        }
    }

    /// Goes on after a term that opens and ends no section.
    fn take_other(&mut self, alloc: Global, known: &Known, term: &ReadTerm) -> Result<(), DirFault>
        requires well { IsWell self.old }
        requires below { NamesBelow (length self.old.names) term.now.term }
        requires other { IsSectionDirective (sort_of (texts_of self.old.names term.now.term)) → ⊥ }
        ensures ok { OnOk result (next_seen (step (texts_of self.old.names term.now.term) term.now.byte (state_of known.now self.old)) ≡ Ok (seen (state_of known.now self.new))) }
        ensures well { OnOk result (IsWell self.new) }
        ensures fault { (n : ℕ) → result ≡ Err (FaultOf n) → next_seen (step (texts_of self.old.names term.now.term) term.now.byte (state_of known.now self.old)) ≡ Err n }
    {
        let source = module_source(&term.term, &self.names);
        let entries = self.entries_said(alloc, term)?;
        self.take_source(alloc, known, source, term.byte)?;
        append(alloc, &mut self.entries, entries.as_slice())?;
        Ok(())
    }

    /// Goes on after a directive that opens or ends a section.
    fn take_section(
        &mut self,
        alloc: Global,
        known: &Known,
        directive: SectionDirective,
        byte: usize,
    ) -> Result<(), DirFault>
        requires well { IsWell self.old }
        requires below { DirectiveBelow (length self.old.names) directive }
        ensures ok { OnOk result (section_seen (directive_view self.old.names directive) byte (seen (state_of known.now self.old)) ≡ Ok (seen (state_of known.now self.new))) }
        ensures well { OnOk result (IsWell self.new) }
        ensures fault { (n : ℕ) → result ≡ Err (FaultOf n) → section_seen (directive_view self.old.names directive) byte (seen (state_of known.now self.old)) ≡ Err n }
    {
        match directive {
            SectionDirective::Opens(kind, name) => {
                self.open_section(alloc, known, kind, name, byte)
            }
            SectionDirective::Ends(kind, name) => self.end_section(alloc, kind, name),
        }
    }

    /// Goes on after a term. The faults are those of `step`.
    pub fn take(&mut self, alloc: Global, known: &Known, term: &ReadTerm) -> Result<(), DirFault>
        requires well { IsWell self.old }
        requires below { NamesBelow (length self.old.names) term.now.term }
        ensures ok { OnOk result (next_seen (step (texts_of self.old.names term.now.term) term.now.byte (state_of known.now self.old)) ≡ Ok (seen (state_of known.now self.new))) }
        ensures well { OnOk result (IsWell self.new) }
        ensures fault { (n : ℕ) → result ≡ Err (FaultOf n) → next_seen (step (texts_of self.old.names term.now.term) term.now.byte (state_of known.now self.old)) ≡ Err n }
    {
        match section_directive(&term.term, &self.names) {
            Some(directive) => self.take_section(alloc, known, directive, term.byte),
            None => self.take_other(alloc, known, term),
        }
    }
}
