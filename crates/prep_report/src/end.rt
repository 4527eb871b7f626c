//! Lines on how a run ended.
ghost use Rattle.std.specs.Prelude.{◌≡◌, ◌++◌, codes, IfOk};
ghost use Rattle.pl_ops.specs.Tables.{operator};
ghost use Rattle.text_model.specs.Writing.{int_text};
ghost use Rattle.prep_report.specs.Lines.{end_text};
ghost use Rattle.prep_report.specs.declared.end.End2.TheVariants.{Uncaught};

use itoa::Buffer;
use pl_atoms::{Bytes, Names, NoMemory};
use pl_ops::OpTable;
use pl_terms::Term;
use pl_writer::{Quote, write_onto};
use std::alloc::Global;

/// How a run ended.
#[derive(Drop)]
pub enum End2 {
    /// No answer is left.
    Exhausted,
    /// The steps that it was given are used up.
    Spent,
    /// An error that nothing caught.
    Uncaught(Term),
    /// It was halted, with this status.
    Halted(i64),
}

/// `no more`, `budget spent`, `uncaught: T` or `halted N`.
///
/// The only error is want of memory.
pub fn end_line(
    alloc: Global,
    end: &End2,
    names: &Names,
    table: &OpTable,
) -> Result<Bytes, NoMemory>
    ensures { IfOk result (λ line. line ≡ end_text (operator table.now) names.now end.now) }
{
    match end {
        End2::Exhausted => Bytes::from_slice(alloc, b"no more\n"),
        End2::Spent => Bytes::from_slice(alloc, b"budget spent\n"),
        End2::Uncaught(term) => uncaught_line(alloc, term, names, table),
        End2::Halted(status) => halted_line(alloc, *status),
    }
}

fn uncaught_line(
    alloc: Global,
    term: &Term,
    names: &Names,
    table: &OpTable,
) -> Result<Bytes, NoMemory>
    ensures { IfOk result (λ line. line ≡ end_text (operator table.now) names.now (Uncaught term.now)) }
{
    let mut line = Bytes::from_slice(alloc, b"uncaught: ")?;
    write_onto(alloc, &mut line, term, names, table, Quote::Quoted, 1200)?;
    line.push(b'\n')?;
    Ok(line)
}

fn halted_line(alloc: Global, status: i64) -> Result<Bytes, NoMemory>
    ensures { IfOk result (λ line. line ≡ codes "halted " ++ int_text status ++ codes "\n") }
{
    let mut buffer = Buffer::new();
    let mut line = Bytes::from_slice(alloc, b"halted ")?;
    line.extend_from_slice(buffer.format(status).as_bytes())?;
    line.push(b'\n')?;
    Ok(line)
}
