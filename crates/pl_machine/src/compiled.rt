//! What a run is made with.
ghost use Rattle.std.specs.Prelude.{◌≡◌, map, IfOk, OnOk};
ghost use Rattle.pl_atoms.specs.Names.{IsFront, AreDistinct, with_texts};
ghost use Rattle.builtin_model.specs.Naming.{by_numbers};
ghost use Rattle.pl_builtin_ends.specs.Made.{HasNames as MadeNames};
ghost use Rattle.goal_constructs.specs.Constructs.{AreConstructs};
ghost use Rattle.pl_store.specs.Facts.{IsLinked};
ghost use Rattle.clause_code.specs.Codes.{IsCodes};
ghost use Rattle.clause_code.specs.Targets.{AreTargets};
ghost use Rattle.naming_laws.specs.Translation.{written_names};
ghost use Rattle.naming_laws.specs.SameRun.{HasNames};
ghost use Rattle.pl_store.specs.Linked.{with_names};
ghost use Rattle.goal_state.specs.Denotation.{linked};
ghost use Rattle.goal_state.specs.Well.{IsCompiled};

use clause_code::{Codes, Targets};
use goal_constructs::Constructs;
use goal_state::CompiledProgram;
use pl_atoms::{Names, NoMemory};
use pl_builtin_ends::add_names;
use pl_store::laws::facts_stay;
use pl_store::{Program, Tables};
use std::alloc::Global;

// The texts of the names that a run puts into terms or begins with.
const WRITTEN: [&'static [u8]; 33] = [
    b"user",
    b"call",
    b":",
    b"/",
    b".",
    b"[]",
    b"<",
    b"=",
    b">",
    b"error",
    b"instantiation_error",
    b"type_error",
    b"domain_error",
    b"existence_error",
    b"representation_error",
    b"evaluation_error",
    b"module",
    b"procedure",
    b"callable",
    b"evaluable",
    b"max_arity",
    b"atom",
    b"atomic",
    b"character",
    b"compound",
    b"integer",
    b"list",
    b"non_empty_list",
    b"not_less_than_zero",
    b"order",
    b"int_overflow",
    b"zero_divisor",
    b"undefined",
];

fn written() -> &'static [&'static [u8]]
    ensures { map (λ text. text.now) result.now ≡ written_names }
{
    &WRITTEN
}

/// Takes a program apart, puts the names that a run needs into its table, and compiles the bodies of its clauses,
/// whose goals are looked up.
pub fn compiled_of(alloc: Global, program: Program) -> Result<CompiledProgram, NoMemory>
    ensures compiled { IfOk result (λ b. IsCompiled b) }
    ensures names { IfOk result (λ b. IsFront program.names b.names) }
    ensures tables { IfOk result (λ b. linked b ≡ with_names program b.names) }
    ensures written { IfOk result (λ b. HasNames b.names) }
{
    let (old, tables) = program.into_parts();
    let mut names = old;
    let constructs = add_run_names(alloc, &mut names)?;
    facts_stay();
    let (codes, targets) = codes_of(alloc, &names, &tables, &constructs)?;
    Ok(CompiledProgram {
        names,
        tables,
        codes,
        constructs,
        targets,
    })
}

// The codes of a program's clauses, and what their goals lead to.
fn codes_of(
    alloc: Global,
    names: &Names,
    tables: &Tables,
    constructs: &Constructs,
) -> Result<(Codes, Targets), NoMemory>
    requires linked { IsLinked (with_names tables.now names.now) }
    requires constructs { AreConstructs (by_numbers names.now) constructs.now }
    ensures codes { IfOk result (λ made. IsCodes constructs.now.names.control tables.now.clauses made.0) }
    ensures targets { IfOk result (λ made. AreTargets constructs.now tables.now made.0 made.1) }
{
    let codes = Codes::of(alloc, names, tables, constructs.control())?;
    let targets = Targets::of(alloc, tables, &codes, constructs)?;
    Ok((codes, targets))
}

// Puts the names that a run needs into a program's table, and answers the numbers of those of the control constructs.
fn add_run_names(alloc: Global, names: &mut Names) -> Result<Constructs, NoMemory>
    ensures front { IfOk result (λ c. IsFront names.old names.new) }
    ensures distinct { IfOk result (λ c. AreDistinct names.new) }
    ensures constructs { IfOk result (λ c. AreConstructs (by_numbers names.new) c) }
    ensures made { IfOk result (λ c. MadeNames names.new) }
    ensures written { IfOk result (λ c. HasNames names.new) }
{
    let _before = names.len();
    write_names(names)?;
    add_names(names)?;
    let constructs = Constructs::of(alloc, names)?;
    let _after = names.len();
    Ok(constructs)
}

// Puts the names that a run writes into the table.
fn write_names(names: &mut Names) -> Result<(), NoMemory>
    ensures front { IsFront names.old names.new }
    ensures ok { OnOk result (names.new ≡ with_texts names.old written_names) }
{
    for text in written() {
        names.intern(text)?;
    }
    Ok(())
}
