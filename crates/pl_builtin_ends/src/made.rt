//! The names that built-in predicates put into terms.
ghost use Rattle.std.specs.Prelude.{◌≡◌, ℕ, List, map, OnOk};
ghost use Rattle.pl_atoms.specs.Names.{IsFront};
ghost use Rattle.pl_builtin_ends.specs.Made.{made_texts, HasNames};

use crate::name::intern;
use pl_atoms::{Names, NoMemory};
use unit_model::builtins;

// The texts of errors, of lists and of the answers of a comparison.
const TEXTS: [&'static [u8]; 26] = [
    b"error",
    b"/",
    b"instantiation_error",
    b"type_error",
    b"domain_error",
    b"representation_error",
    b"evaluation_error",
    b"atom",
    b"atomic",
    b"character",
    b"compound",
    b"integer",
    b"list",
    b"non_empty_list",
    b"not_less_than_zero",
    b"order",
    b"max_arity",
    b"evaluable",
    b"int_overflow",
    b"zero_divisor",
    b"undefined",
    b"[]",
    b".",
    b"<",
    b"=",
    b">",
];

fn texts() -> &'static [&'static [u8]]
    ensures { map (λ text. text.now) result.now ≡ made_texts }
{
    &TEXTS
}

/// Puts the names into the table that built-in predicates put into terms (ISO/IEC 13211-1, 7.12.2 and 8), and those of the built-in
/// procedures. From then on built-in predicates add no name. NoMemory: some of them may be there.
pub fn add_names(names: &mut Names) -> Result<(), NoMemory>
    ensures front { IsFront names.old names.new }
    ensures ok { OnOk result (HasNames names.new) }
{
    for text in texts() {
        intern(names, text)?;
    }
    for procedure in builtins() {
        intern(names, procedure.name)?;
    }
    Ok(())
}

/// Where a table grows, it keeps these names.
pub fn names_law()
    ensures { (old new : List (List ℕ)) → IsFront old new → HasNames old → HasNames new }
{}
