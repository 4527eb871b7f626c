//! Lines of answers.
ghost use Rattle.std.specs.Prelude.{◌≡◌, ◌<◌, ◌≤◌, ℕ, All, map, IfOk, None};
ghost use Rattle.pl_terms.specs.Trees.{var};
ghost use Rattle.pl_terms.specs.Order.{texts_of};
ghost use Rattle.pl_ops.specs.Tables.{operator};
ghost use Rattle.pl_unify.specs.State.{tree_of_var, Grows};
ghost use Rattle.goal_state.specs.Denotation.{template_of};
ghost use Rattle.prep_report.specs.Lines.{is_shown as is_shown_name};
ghost use Rattle.pl_machine.specs.Shown.{answer_shown};

use pl_atoms::{Bytes, Names, NoMemory};
use pl_ops::OpTable;
use pl_terms::{Cell, Term, TermBuf, VarName};
use pl_unify::Store;
use prep_report::{AnswerList, Binding, answer_line};
use std::alloc::Global;

/// The line of an answer: the values of the goal's named variables. Places may be added to the store.
pub fn line_of(
    alloc: Global,
    variables: &[VarName],
    store: &mut Store,
    names: &Names,
    table: &OpTable,
) -> Result<Bytes, NoMemory>
    requires { All (λ v. v.number < store.old.state.next) variables.now }
    ensures grows { Grows store.old.state store.new.state }
    ensures next { store.new.state.next ≡ store.old.state.next }
    ensures line { IfOk result (λ line. (width : ℕ) → All (λ v. v.number < width) variables.now → line ≡ answer_shown (operator table.now) variables.now (map (texts_of names.now) (template_of store.old.state width None))) }
{
    let mut answer = AnswerList::new(alloc);
    for variable in variables {
        let name = Bytes::from_slice(alloc, variable.name.as_slice())?;
        let term = if is_shown(variable.name.as_slice()) {
            value_of(alloc, store, variable.number)?
        } else {
            hidden(alloc, variable.number)?
        };
        answer.push(Binding { name, term })?;
    }
    answer_line(alloc, &answer, names, table)
}

// Whether an answer shows a variable of this name.
fn is_shown(name: &[u8]) -> bool
    ensures { result ≡ is_shown_name name.now }
{
    match name.first() {
        Some(first) => *first != b'_',
        None => true,
    }
}

// What stands for the value of a variable that is not shown. The value itself may be large.
fn hidden(alloc: Global, number: usize) -> Result<Term, NoMemory>
    ensures { IfOk result (λ t. t ≡ var number) }
{
    let mut cells = TermBuf::new(alloc);
    cells.push(Cell::Var(number))?;
    let term = cells.end_whole();
    Ok(term)
}

// The value of a variable by its number.
fn value_of(alloc: Global, store: &mut Store, number: usize) -> Result<Term, NoMemory>
    requires { number < store.old.state.next }
    ensures grows { Grows store.old.state store.new.state }
    ensures next { store.new.state.next ≡ store.old.state.next }
    ensures value { IfOk result (λ t. t ≡ tree_of_var store.old.state number) }
{
    let term = hidden(alloc, number)?;
    let at = store.load(&term, 0)?;
    store.copy_out(alloc, at)
}
