//! A program that is made, taken apart and put together.
ghost use Rattle.std.specs.Prelude.{◌≡◌};

use pl_atoms::NoMemory;
use pl_store::Program;
use std::alloc::Global;
use std::test::Fail;

// A program of the module `user` and one more name.
pub(crate) fn two_names(alloc: Global) -> Result<Program, NoMemory> {
    let mut program = Program::new(alloc);
    program.add_module(b"user")?;
    program.intern(b"p")?;
    Ok(program)
}

// A program that was taken apart and put together.
fn put_together(program: Program) -> Program
    ensures { result ≡ program }
{
    let (names, tables) = program.into_parts();
    Program::from_parts(names, tables)
}

#[test]
fn a_program_is_put_together(rt: HostRuntime) -> Result<(), Fail> {
    let program = put_together(two_names(rt.alloc())?);
    assert_eq!(rt; program.names().len(), 2);
    assert_eq!(rt; program.tables().modules(), 1);
    assert_eq!(rt; program.tables().procedures(), 0);
    Ok(())
}
