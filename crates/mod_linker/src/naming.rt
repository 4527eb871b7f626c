//! The names of a linked program.
ghost use Rattle.std.specs.Prelude.{◌≡◌, IfOk};
ghost use Rattle.pl_store.specs.Linked.{empty, with_names};

use pl_atoms::{NameId, Names, NoMemory};
use pl_store::Program;
use std::alloc::Global;

/// A program with these names and nothing else.
pub fn named(alloc: Global, names: &Names) -> Result<Program, NoMemory>
    ensures { IfOk result (λ p. p ≡ with_names empty names.now) }
{
    let mut program = Program::new(alloc);
    for place in 0..names.len() {
        program.intern(names.text(NameId(place)))?;
    }
    Ok(program)
}
