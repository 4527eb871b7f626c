//! Lines of counts, and the usage line.
ghost use Rattle.std.specs.Prelude.{◌≡◌, IfOk, codes};
ghost use Rattle.prep_report.specs.Lines.{prepared_text, linked_text, count_text};

use itoa::Buffer;
use pl_atoms::{Bytes, NoMemory};
use std::alloc::Global;

/// `prepared S sections C clauses`.
///
/// The only error is want of memory.
pub fn prepared_line(alloc: Global, sections: usize, clauses: usize) -> Result<Bytes, NoMemory>
    ensures { IfOk result (λ line. line ≡ prepared_text sections clauses) }
{
    let mut buffer = Buffer::new();
    let mut line = Bytes::from_slice(alloc, b"prepared ")?;
    line.extend_from_slice(buffer.format(sections).as_bytes())?;
    line.extend_from_slice(b" sections ")?;
    line.extend_from_slice(buffer.format(clauses).as_bytes())?;
    line.extend_from_slice(b" clauses\n")?;
    Ok(line)
}

/// `linked M modules P procedures`.
///
/// The only error is want of memory.
pub fn linked_line(alloc: Global, modules: usize, procedures: usize) -> Result<Bytes, NoMemory>
    ensures { IfOk result (λ line. line ≡ linked_text modules procedures) }
{
    let mut buffer = Buffer::new();
    let mut line = Bytes::from_slice(alloc, b"linked ")?;
    line.extend_from_slice(buffer.format(modules).as_bytes())?;
    line.extend_from_slice(b" modules ")?;
    line.extend_from_slice(buffer.format(procedures).as_bytes())?;
    line.extend_from_slice(b" procedures\n")?;
    Ok(line)
}

/// `answers A steps S`.
///
/// The only error is want of memory.
pub fn count_line(alloc: Global, answers: u64, steps: u64) -> Result<Bytes, NoMemory>
    ensures { IfOk result (λ line. line ≡ count_text answers steps) }
{
    let mut buffer = Buffer::new();
    let mut line = Bytes::from_slice(alloc, b"answers ")?;
    line.extend_from_slice(buffer.format(answers).as_bytes())?;
    line.extend_from_slice(b" steps ")?;
    line.extend_from_slice(buffer.format(steps).as_bytes())?;
    line.push(b'\n')?;
    Ok(line)
}

/// The line on how the program is called.
pub fn usage_line() -> &'static [u8]
    ensures { result.now ≡ codes "usage: plmod prepare OUT TEXT KNOWN.. , link UNIT.. , run BUDGET GOAL UNIT.. , all BUDGET GOAL TEXT.. , show UNIT.. , grow N BUDGET\n" }
{
    b"usage: plmod prepare OUT TEXT KNOWN.. , link UNIT.. , run BUDGET GOAL UNIT.. , all BUDGET GOAL TEXT.. , show UNIT.. , grow N BUDGET\n"
}
