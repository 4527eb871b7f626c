//! Written terms.
ghost use Rattle.std.specs.Prelude.{◌≡◌, ◌++◌, IfOk, OnOk, OnErr};
ghost use Rattle.pl_terms.specs.Cells.{IsTerm, tree_of};
ghost use Rattle.pl_terms.specs.Order.{texts_of};
ghost use Rattle.pl_ops.specs.Tables.{operator};
ghost use Rattle.text_model.specs.Writing.{written};
ghost use Rattle.pl_writer.specs.Edges.{Begins};

use crate::edge::{Edge, emit};
use crate::todo::{Todo, push_arguments, put_tail, put_term};
use pl_atoms::{Bytes, Names, NoMemory};
use pl_ops::OpTable;
use pl_terms::{Cell, Term};
use std::alloc::Global;
use text_model::Quote;

/// Puts the written text of a term last (ISO/IEC 13211-1, 7.10.5): with the operators of the table, at most
/// at a priority of `max`, and with `_G` and its number for a variable. A term of a greater priority
/// stands in round brackets.
///
/// The only error is want of memory, after which `out` is as before, and a front of the text may stand after it.
pub fn write_onto(
    alloc: Global,
    out: &mut Bytes,
    term: &Term,
    names: &Names,
    table: &OpTable,
    quote: Quote,
    max: u16,
) -> Result<(), NoMemory>
    ensures ok { OnOk result (out.new ≡ out.old ++ written (operator table.now) quote max (texts_of names.now term.now)) }
    ensures err { OnErr result (Begins out.old out.new) }
{
    write_cells(alloc, out, term.cells(), names, table, quote, max)
}

/// The written text of a term, as `write_onto` puts it.
///
/// The only error is want of memory.
pub fn write_text(
    alloc: Global,
    term: &Term,
    names: &Names,
    table: &OpTable,
    quote: Quote,
    max: u16,
) -> Result<Bytes, NoMemory>
    ensures { IfOk result (λ bytes. bytes ≡ written (operator table.now) quote max (texts_of names.now term.now)) }
{
    let mut out = Bytes::new(alloc);
    write_onto(alloc, &mut out, term, names, table, quote, max)?;
    Ok(out)
}

fn write_cells(
    alloc: Global,
    out: &mut Bytes,
    cells: &[Cell],
    names: &Names,
    table: &OpTable,
    quote: Quote,
    max: u16,
) -> Result<(), NoMemory>
    requires { IsTerm cells.now }
    ensures ok { OnOk result (out.new ≡ out.old ++ written (operator table.now) quote max (texts_of names.now (tree_of cells.now))) }
    ensures err { OnErr result (Begins out.old out.new) }
{
    let mut stack = Vec::new(alloc);
    stack.push(Todo::Term(max, false))?;
    let mut edge = Edge {
        started: false,
        last: 256,
        letters: false,
        before: false,
        minus: false,
    };
    let mut at = 0;
    'write: while let Some(todo) = stack.pop() {
        match todo {
            Todo::Term(most, operand) => {
                put_term(&mut stack, table, names, cells, at, most, operand)?;
                at += 1;
            }
            Todo::Tail => {
                if put_tail(&mut stack, names, cells, at)? {
                    at += 1;
                }
            }
            Todo::Arguments(count) => {
                push_arguments(&mut stack, count)?;
            }
            Todo::Put(part) => {
                edge = emit(out, edge, part, names, quote)?;
            }
        }
    }
    Ok(())
}
