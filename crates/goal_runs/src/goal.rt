//! Goals of texts.
ghost use Rattle.std.specs.Prelude.{◌≡◌, ◌<◌, length, map, All, IfOk, IfErr, OnOk};
ghost use Rattle.pl_atoms.specs.Names.{IsFront};
ghost use Rattle.pl_terms.specs.NameBounds.{NamesBelow};
ghost use Rattle.pl_terms.specs.Occurrence.{variables, from_to};
ghost use Rattle.pl_terms.specs.Order.{texts_of};
ghost use Rattle.text_model.specs.Tokens.{none_left};
ghost use Rattle.pl_tokens.specs.Reader.{next_of};
ghost use Rattle.pl_tokens.specs.Views.{tokens_view};
ghost use Rattle.pl_reader.specs.Runs.{IsRead};
ghost use Rattle.pl_reader.specs.Reads as reads;
ghost use Rattle.goal_runs.specs.Goals.{ReadsAs, IsGoal};
ghost use Rattle.goal_runs.specs.GoalFaults.{IsFault, IsTermFault, IsFaultAfter};

use crate::goal_fault::GoalFault;
use pl_atoms::Names;
use pl_ops::OpTable;
use pl_reader::{ReadFault, read};
use pl_terms::ReadTerm;
use pl_tokens::{TokenRun, Tokens};
use std::alloc::Global;

/// Reads the goal that a text is, under the standard operators: one term with its end, and nothing but layout and comments
/// behind. Its names are put into the table, which keeps those that it had, whatever the answer.
///
/// The faults, by their numbers and bytes: 1 to 4 are those of the tokens, 5 a first run of tokens that is no term, at its
/// first token, or a token after the end of a term, at that token, and 6 a text that ends without an end, at its first token,
/// or at the text's end where it has none.
pub fn read_goal(alloc: Global, text: &[u8], names: &mut Names) -> Result<ReadTerm, GoalFault>
    ensures goal { IfOk result (λ r. IsGoal text.now (texts_of names.new r.term) (map (λ v. (v.name, v.number)) r.names)) }
    ensures variables { IfOk result (λ r. variables r.term ≡ from_to 0 (length (variables r.term))) }
    ensures numbers { IfOk result (λ r. All (λ v. v.number < length (variables r.term)) r.names) }
    ensures below { IfOk result (λ r. NamesBelow (length names.new) r.term) }
    ensures front { IsFront names.old names.new }
    ensures fault { IfErr result (IsFault text.now) }
{
    let mut tokens = Tokens::new(text);
    let Some(run) = tokens.next_run(alloc)? else {
        return Err(GoalFault::Fault {
            number: 6,
            byte: text.len(),
        });
    };
    let goal = term_of(alloc, &run, names)?;
    nothing_left(alloc, &mut tokens)?;
    Ok(goal)
}

// The byte of a run's first token.
fn first_byte(run: &TokenRun) -> usize
    requires { IsRead run.now }
    ensures { result ≡ reads.first_byte run.now }
{
    match run.as_slice().first() {
        Some(token) => token.byte,
        None => 0,
    }
}

// The term of a run of tokens.
fn term_of(alloc: Global, run: &TokenRun, names: &mut Names) -> Result<ReadTerm, GoalFault>
    requires { IsRead run.now }
    ensures term { IfOk result (λ r. ReadsAs (tokens_view run.now) (texts_of names.new r.term) (map (λ v. (v.name, v.number)) r.names)) }
    ensures below { IfOk result (λ r. NamesBelow (length names.new) r.term) }
    ensures front { IsFront names.old names.new }
    ensures fault { IfErr result (IsTermFault (tokens_view run.now)) }
{
    let table = OpTable::standard(alloc)?;
    match read(alloc, run, &table, names) {
        Ok(term) => Ok(term),
        Err(ReadFault::NoTerm) => Err(GoalFault::Fault {
            number: 5,
            byte: first_byte(run),
        }),
        Err(ReadFault::NoMemory) => Err(GoalFault::NoMemory),
    }
}

// That no token is left.
fn nothing_left(alloc: Global, tokens: &mut Tokens<'_>) -> Result<(), GoalFault>
    ensures none { OnOk result (next_of tokens.old ≡ none_left) }
    ensures fault { IfErr result (IsFaultAfter (next_of tokens.old)) }
{
    match tokens.next(alloc)? {
        None => Ok(()),
        Some(token) => Err(GoalFault::Fault {
            number: 5,
            byte: token.byte,
        }),
    }
}
