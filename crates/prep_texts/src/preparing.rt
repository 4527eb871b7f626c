//! Preparing a text (ISO/IEC 13211-1, 7.4; ISO/IEC 13211-2, 6.2).
ghost use Rattle.std.specs.Prelude.{◌≡◌, ◌≤◌, List, [], ℕ, length, is_some, None, Ok, Err, IfOk, OnOk};
ghost use Rattle.unit_format.specs.Views.{unit_facts};
ghost use Rattle.unit_model.specs.Prepared.{Prepared, FirstFault};
ghost use Rattle.unit_model.specs.Preparing.{Interface, start, facts_of};
ghost use Rattle.unit_model.specs.Entries.{IsSound};
ghost use Rattle.pl_tokens.specs.Views.{tokens_view};
ghost use Rattle.pl_reader.specs.Runs.{IsRead};
ghost use Rattle.pl_reader.specs.Reads as reads;
ghost use Rattle.prep_texts.specs.Seen.{Alike};
ghost use Rattle.prep_texts.specs.Drafts.{state_of, IsWell};
ghost use Rattle.prep_texts.specs.Taking.{TakesRun, FailsRun, EndsWith};
ghost use Rattle.prep_texts.specs.declared.fault.PrepFault.TheVariants.{Fault as PrepFaultOf};

use crate::draft::Draft;
use crate::fault::PrepFault;
use crate::interfaces::Interfaces;
use crate::known::Known;
use mod_directives::DirFault;
use pl_atoms::{Items, Names, NoMemory};
use pl_ops::OpTable;
use pl_reader::{ReadFault, read};
use pl_tokens::{TokenRun, Tokens};
use std::alloc::Global;
use unit_format::Unit;
use unit_model::{Entries, Facts, Needs, Section, SectionKind};
use unit_order::ordered;

/// The unit of a text, where these interfaces are known. The faults, by their numbers and bytes: 1 to 4 and 6 are those of its
/// tokens, 5 a run of tokens that is no term, at its first token, 7 to 16 those of a term, at its first token, and 7 at the
/// text's end where a section is open there. The first of them is given, and of those of one term the least.
pub fn prepare(alloc: Global, text: &[u8], known: &Known) -> Result<Unit, PrepFault>
    requires { length text.now ≤ 67108864 }
    ensures ok { IfOk result (λ u. Prepared known.now text.now (unit_facts u)) }
    ensures fault { (n byte : ℕ) → result ≡ Err (PrepFaultOf n byte) → FirstFault known.now text.now n byte }
{
    known.are_good();
    let draft = draft_of(alloc, text, known)?;
    if draft.is_open() {
        return Err(PrepFault::Fault {
            number: 7,
            byte: text.len(),
        });
    }
    Ok(draft.into_unit(alloc)?)
}

// What stands after the terms of a text.
fn draft_of(alloc: Global, text: &[u8], known: &Known) -> Result<Draft, PrepFault>
    ensures ends { IfOk result (EndsWith known.now text.now) }
    ensures well { IfOk result IsWell }
    ensures fault { (n byte : ℕ) → result ≡ Err (PrepFaultOf n byte) → FirstFault known.now text.now n byte }
{
    let mut draft = Draft::new(alloc)?;
    let mut tokens = Tokens::new(text);
    'terms: while let Some(run) = tokens.next_run(alloc)? {
        draft.take_run(alloc, known, &run)?;
    }
    Ok(draft)
}

// The byte of a run's first token.
fn first_byte(run: &TokenRun) -> usize
    requires { IsRead run.now }
    ensures { result ≡ reads.first_byte run.now }
{
    match run.as_slice().first() {
        Some(token) => token.byte,
        None => 0,
    }
}

impl Draft {
    /// What stands before the first term.
    fn new(alloc: Global) -> Result<Draft, NoMemory>
        ensures alike { IfOk result (λ d. (known : List Interface) → Alike (start known) (state_of known d)) }
        ensures well { IfOk result IsWell }
    {
        Ok(Draft {
            names: Names::new(alloc),
            own: Interfaces::new(alloc),
            needed: Names::new(alloc),
            needs: Needs::new(alloc),
            sections: Vec::new(alloc),
            entries: Entries::new(alloc),
            table: OpTable::standard(alloc)?,
            section: None,
        })
    }

    /// Whether a section is open.
    fn is_open(&self) -> bool
        ensures { result ≡ is_some self.now.section }
    {
        self.section.is_some()
    }

    /// The unit, where no section is open.
    fn into_unit(mut self, alloc: Global) -> Result<Unit, NoMemory>
        requires well { IsWell self }
        requires outside { self.section ≡ None }
        requires sound { IsSound (facts_of (state_of [] self)) }
        ensures { IfOk result (λ u. unit_facts u ≡ facts_of (state_of [] self)) }
    {
        let user = self.names.intern(b"user")?;
        let mut sections = Vec::new(alloc);
        sections.push(Section {
            kind: SectionKind::Body,
            byte: 0,
            module: user,
            entries: self.entries,
        })?;
        sections.append(&mut self.sections)?;
        let facts = Facts {
            needs: self.needs,
            sections: Items::from_vec(sections),
        };
        ordered(alloc, &self.names, facts)
    }

    /// Goes on after the term of a run of tokens.
    fn take_run(&mut self, alloc: Global, known: &Known, run: &TokenRun) -> Result<(), PrepFault>
        requires well { IsWell self.old }
        requires run { IsRead run.now }
        ensures ok { OnOk result (TakesRun (tokens_view run.now) (state_of known.now self.old) (state_of known.now self.new)) }
        ensures well { OnOk result (IsWell self.new) }
        ensures fault { (n byte : ℕ) → result ≡ Err (PrepFaultOf n byte) → FailsRun (tokens_view run.now) (state_of known.now self.old) n byte }
    {
        let term = match read(alloc, run, &self.table, &mut self.names) {
            Ok(term) => term,
            Err(ReadFault::NoTerm) => {
                return Err(PrepFault::Fault {
                    number: 5,
                    byte: first_byte(run),
                });
            }
            Err(ReadFault::NoMemory) => return Err(PrepFault::NoMemory),
        };
        match self.take(alloc, known, &term) {
            Ok(()) => Ok(()),
            Err(DirFault::Fault(number)) => Err(PrepFault::Fault {
                number,
                byte: term.byte,
            }),
            Err(DirFault::NoMemory) => Err(PrepFault::NoMemory),
        }
    }
}
