//! Lines of answers.
ghost use Rattle.std.specs.Prelude.{◌≡◌, ◌++◌, true, false, IfOk, OnOk, if◌then◌else◌};
ghost use Rattle.pl_ops.specs.Tables.{operator};
ghost use Rattle.prep_report.specs.Lines.{is_shown as is_shown_name, binding_text, next_text, bindings_text, answer_text};

use pl_atoms::{Bytes, Items, Names, NoMemory};
use pl_ops::OpTable;
use pl_terms::Term;
use pl_writer::{Quote, write_onto};
use std::alloc::Global;

/// A variable of a goal and its value.
#[derive(Drop)]
pub struct Binding {
    /// The variable's name.
    pub name: Bytes,
    pub term: Term,
}

/// An answer: the goal's variables in order of first occurrence, with their values.
pub type AnswerList = Items<Binding>;

/// `X = T` for each variable whose name does not begin with `_`, parted by `, `, and then ` ;`. Without such
/// variables it is `true ;`. A value of a priority above 699 stands in round brackets.
///
/// The only error is want of memory.
pub fn answer_line(
    alloc: Global,
    answer: &AnswerList,
    names: &Names,
    table: &OpTable,
) -> Result<Bytes, NoMemory>
    ensures { IfOk result (λ line. line ≡ answer_text (operator table.now) names.now answer.now) }
{
    let mut line = Bytes::new(alloc);
    push_bindings(alloc, &mut line, answer.as_slice(), names, table)?;
    line.extend_from_slice(b" ;\n")?;
    Ok(line)
}

fn push_bindings(
    alloc: Global,
    line: &mut Bytes,
    bindings: &[Binding],
    names: &Names,
    table: &OpTable,
) -> Result<(), NoMemory>
    ensures { OnOk result (line.new ≡ line.old ++ bindings_text (operator table.now) names.now false bindings.now) }
{
    let mut some = false;
    for binding in bindings {
        push_next(alloc, line, some, binding, names, table)?;
        some = some_with(some, is_shown(binding.name.as_slice()));
    }
    if !some {
        line.extend_from_slice(b"true")?;
    }
    Ok(())
}

fn some_with(some: bool, shown: bool) -> bool
    ensures { result ≡ (if shown then true else some) }
{
    if shown { true } else { some }
}

fn is_shown(name: &[u8]) -> bool
    ensures { result ≡ is_shown_name name.now }
{
    match name.first() {
        Some(b) => *b != b'_',
        None => true,
    }
}

/// Puts a binding if it is shown, after a comma where others stand before it.
fn push_next(
    alloc: Global,
    line: &mut Bytes,
    some: bool,
    binding: &Binding,
    names: &Names,
    table: &OpTable,
) -> Result<(), NoMemory>
    ensures { OnOk result (line.new ≡ line.old ++ next_text (operator table.now) names.now some binding.now) }
{
    if is_shown(binding.name.as_slice()) {
        if some {
            line.extend_from_slice(b", ")?;
        }
        push_binding(alloc, line, binding, names, table)
    } else {
        Ok(())
    }
}

fn push_binding(
    alloc: Global,
    line: &mut Bytes,
    binding: &Binding,
    names: &Names,
    table: &OpTable,
) -> Result<(), NoMemory>
    ensures { OnOk result (line.new ≡ line.old ++ binding_text (operator table.now) names.now binding.now) }
{
    line.extend_from_slice(binding.name.as_slice())?;
    line.extend_from_slice(b" = ")?;
    write_onto(alloc, line, &binding.term, names, table, Quote::Quoted, 699)?;
    Ok(())
}
