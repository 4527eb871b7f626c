//! Lines of what is visible.
ghost use Rattle.std.specs.Prelude.{◌≡◌, ◌++◌, IfOk, OnOk};
ghost use Rattle.text_model.specs.Writing.{name_text};
ghost use Rattle.pl_terms.specs.Order.{text_of as text_of_name};
ghost use Rattle.prep_report.specs.Rows.{procedure_text, row_text, rows_text};

use itoa::Buffer;
use pl_atoms::{Bytes, NameId, Names, NoMemory};
use pl_writer::{Quote, write_name};
use search_model::{VisibleRow, VisibleRows};
use std::alloc::Global;

/// `M:N/A from D` for each row, on a line of its own; names are written in quotes where they would not read back bare.
/// A number that the table of names doesn't have is written as the empty name.
///
/// The only error is want of memory.
pub fn show_rows(alloc: Global, rows: &VisibleRows, names: &Names) -> Result<Bytes, NoMemory>
    ensures { IfOk result (λ lines. lines ≡ rows_text names.now rows.now) }
{
    let mut lines = Bytes::new(alloc);
    let items = rows.as_slice();
    for row in items {
        push_row(alloc, &mut lines, *row, names)?;
    }
    Ok(lines)
}

fn push_row(
    alloc: Global,
    lines: &mut Bytes,
    row: VisibleRow,
    names: &Names,
) -> Result<(), NoMemory>
    ensures { OnOk result (lines.new ≡ lines.old ++ row_text names.now row) }
{
    push_procedure(alloc, lines, row, names)?;
    lines.extend_from_slice(b" from ")?;
    push_name(alloc, lines, row.definer, names)?;
    lines.extend_from_slice(b"\n")?;
    Ok(())
}

/// `M:N/A`.
fn push_procedure(
    alloc: Global,
    lines: &mut Bytes,
    row: VisibleRow,
    names: &Names,
) -> Result<(), NoMemory>
    ensures { OnOk result (lines.new ≡ lines.old ++ procedure_text names.now row) }
{
    let mut buffer = Buffer::new();
    push_name(alloc, lines, row.module, names)?;
    lines.extend_from_slice(b":")?;
    push_name(alloc, lines, row.ind.name, names)?;
    lines.extend_from_slice(b"/")?;
    lines.extend_from_slice(buffer.format(row.ind.arity).as_bytes())?;
    Ok(())
}

fn push_name(alloc: Global, line: &mut Bytes, id: NameId, names: &Names) -> Result<(), NoMemory>
    ensures { OnOk result (line.new ≡ line.old ++ name_text Quote.Quoted (text_of_name names.now id.0)) }
{
    let text = write_name(alloc, text_of(names, id), Quote::Quoted)?;
    line.extend_from_slice(text.as_slice())?;
    Ok(())
}

/// The text of a name, or none where the table has no such name.
fn text_of(names: &Names, id: NameId) -> &[u8]
    ensures { result.now ≡ text_of_name names.now id.0 }
{
    if id.0 < names.len() {
        names.text(id)
    } else {
        &[]
    }
}
