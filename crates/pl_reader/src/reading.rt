//! Terms of runs of tokens (ISO/IEC 13211-1, 6.3).
ghost use Rattle.std.specs.Prelude.{◌≡◌, ℕ, ◌+◌, ◌<◌, ◌≤◌, List, [], ◌++◌, length, map, slice_index_or, All, IfOk, IfSome, IfNone, OnSome, IsErrOf, None};
ghost use Rattle.pl_terms.specs.Trees.{Tree};
ghost use Rattle.pl_terms.specs.Cells.{cells, IsCell};
ghost use Rattle.pl_terms.specs.Order.{texts_of};
ghost use Rattle.pl_ops.specs.Tables.{operator};
ghost use Rattle.text_model.specs.Reading.{numbered};
ghost use Rattle.pl_atoms.specs.Names.{IsFront, AreDistinct};
ghost use Rattle.pl_reader.specs.Runs.{HasEnd, IsRead, body_of};
ghost use Rattle.pl_reader.specs.Numbering.{IsPaired, met};
ghost use Rattle.pl_reader.specs.Reads.{Agrees, AreKnown, HasGrammar, Found, ReadsRun, IsWithin, run_parse, first_byte};

use crate::machine::{Context, Entry, GrammarNames, Stepped, take_end};
use crate::prefix::to_prefix;
use crate::tokens_taken::{ReadState, take_token};
use crate::variables::{Variables, no_variables};
use pl_atoms::{Names, NoMemory};
use pl_ops::OpTable;
use pl_terms::{Cell, ReadTerm, Term, TermBuf};
use pl_tokens::{Token, TokenRun};
use std::alloc::Global;
use thiserror::Error;

/// Why a run gives no term.
#[derive(Clone, Copy, Debug, Error)]
pub enum ReadFault {
    /// No tree has the run.
    #[error("no term")]
    NoTerm,
    /// A growth was refused.
    #[error("no memory")]
    NoMemory,
}

impl From<NoMemory> for ReadFault {
    ghost use Rattle.pl_reader.specs.declared.reading.ReadFault.TheVariants.{NoMemory as OutOfMemory};

    ghost from_gives = { λ _ e. e ≡ OutOfMemory };

    fn from(_e: NoMemory) -> ReadFault {
        ReadFault::NoMemory
    }
}

/// The numbers of the names that the grammar itself gives to terms.
fn grammar_names(names: &mut Names) -> Result<GrammarNames, NoMemory>
    ensures grammar { IfOk result (λ g. HasGrammar names.new g) }
    ensures front { IsFront names.old names.new }
{
    let comma = names.intern(b",")?;
    let nil = names.intern(b"[]")?;
    let curly = names.intern(b"{}")?;
    let dot = names.intern(b".")?;
    Ok(GrammarNames {
        comma,
        nil,
        curly,
        dot,
    })
}

/// The names of a table are distinct, so that a text has one number.
fn are_distinct(names: &Names)
    ensures { AreDistinct names.now }
{
    let _count = names.len();
}

/// The token after the next, or the next where that is the last.
fn after_next(tokens: &[Token], at: usize) -> &Token
    requires { at + 1 < length tokens.now }
    ensures within { at + 2 < length tokens.now → result.now ≡ slice_index_or tokens.now (at + 2) result.now }
    ensures past { length tokens.now ≤ at + 2 → result.now ≡ slice_index_or tokens.now (at + 1) result.now }
{
    if at + 2 < tokens.len() {
        &tokens[at + 2]
    } else {
        &tokens[at + 1]
    }
}

/// The byte of the first token.
fn first_byte(tokens: &[Token]) -> usize
    requires { 0 < length tokens.now }
    ensures { result ≡ first_byte tokens.now }
{
    tokens[0].byte
}

/// The cells of the run's term, each compound behind its arguments. None exactly where there is no term.
fn read_cells(
    alloc: Global,
    tokens: &[Token],
    table: &OpTable,
    grammar: GrammarNames,
    names: &mut Names,
    variables: &mut Variables,
) -> Result<Option<Vec<Cell>>, NoMemory>
    requires run { HasEnd tokens.now }
    requires paired { IsPaired variables.old }
    requires none { met variables.old ≡ record { names = []; next = 0 } }
    requires grammar { HasGrammar names.old grammar }
    ensures none { IfOk result (λ r. IfNone r ((num : List ℕ → ℕ) → Agrees num names.new → run_parse (operator table.now) tokens.now ≡ None)) }
    ensures found { IfOk result (λ r. IfSome r (λ v. (num : List ℕ → ℕ) → Agrees num names.new → Found num (run_parse (operator table.now) tokens.now) v.items)) }
    ensures known { IfOk result (λ r. OnSome r (AreKnown names.new (body_of tokens.now))) }
    ensures met { IfOk result (λ r. OnSome r ((met variables.new).names ≡ (numbered [] 0 (body_of tokens.now)).names)) }
    ensures paired { IfOk result (λ r. OnSome r (IsPaired variables.new)) }
    ensures front { IsFront names.old names.new }
{
    let mut contexts: Vec<Context> = Vec::new(alloc);
    let mut waiting: Vec<Entry> = Vec::new(alloc);
    let mut out: Vec<Cell> = Vec::new(alloc);
    let mut state = ReadState {
        more: 0,
        to_operand: true,
        last: Stepped::ToOperand,
    };
    'reading: for at in 0..tokens.len() - 1 {
        let after = after_next(tokens, at);
        state = take_token(
            &tokens[at],
            &tokens[at + 1],
            after,
            state,
            table,
            grammar,
            names,
            variables,
            &mut contexts,
            &mut waiting,
            &mut out,
        )?;
        if let Stepped::Fails = state.last {
            return Ok(None);
        }
    }
    if state.to_operand {
        return Ok(None);
    }
    let ended = take_end(state.last, contexts.as_slice(), &mut waiting, &mut out)?;
    if ended { Ok(Some(out)) } else { Ok(None) }
}

/// The term of cells in prefix order.
fn term_of(alloc: Global, prefix: &[Cell]) -> Result<Term, NoMemory>
    requires each { All IsCell prefix.now }
    requires whole { (t : Tree ℕ) × (cells t ≡ prefix.now) }
    ensures { IfOk result (λ t. cells t ≡ prefix.now) }
{
    let mut buf = TermBuf::new(alloc);
    for cell in prefix {
        buf.push(*cell)?;
    }
    match buf.end() {
        Ok(term) => Ok(term),
        Err(_) => unreachable!(),
    }
}

/// The one term of a run: the tokens up to and with an end. Its variables are numbered in order of first occurrence, and its
/// names are put into the table, which keeps those that it had, whatever the answer. `NoTerm` where no tree has the run.
pub fn read(
    alloc: Global,
    run: &TokenRun,
    table: &OpTable,
    names: &mut Names,
) -> Result<ReadTerm, ReadFault>
    requires { IsRead run.now }

    ensures ok { IfOk result (λ r. ReadsRun (operator table.now) run.now (texts_of names.new r.term)) }
    ensures variables { IfOk result (λ r. map (λ v. (v.name, v.number)) r.names ≡ (numbered [] 0 (body_of run.now)).names) }
    ensures byte { IfOk result (λ r. r.byte ≡ first_byte run.now) }
    ensures within { IfOk result (λ r. IsWithin (length names.new) r.term) }

    ensures no_term { IsErrOf result ReadFault.NoTerm → (t : Tree (List ℕ)) → ReadsRun (operator table.now) run.now t → ⊥ }
    ensures names { IsFront names.old names.new }
{
    let tokens = run.as_slice();
    let grammar = grammar_names(names)?;
    let mut variables = no_variables(alloc);
    let found = read_cells(alloc, tokens, table, grammar, names, &mut variables)?;
    are_distinct(names);
    match found {
        None => Err(ReadFault::NoTerm),
        Some(behind) => {
            let prefix = to_prefix(alloc, behind.as_slice())?;
            let term = term_of(alloc, prefix.as_slice())?;
            let var_names = variables.into_names(alloc)?;
            Ok(ReadTerm {
                term,
                names: var_names,
                byte: first_byte(tokens),
            })
        }
    }
}
