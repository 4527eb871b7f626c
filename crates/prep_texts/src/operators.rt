//! Operators of interfaces, put into tables and needs.
ghost use Rattle.std.specs.Prelude.{◌≡◌, ◌∷◌, ◌++◌, [], ℕ, length, map, Some, true, false, OnOk, IfOk, Err};
ghost use Rattle.std.specs.List.{AllByRecursion};
ghost use Rattle.pl_atoms.specs.Names.{IsFront};
ghost use Rattle.pl_ops.specs.Tables.{operator};
ghost use Rattle.pl_ops.specs.Refusals.{kind_of, cause_of};
ghost use Rattle.unit_model.specs.Facts.{operator_by};
ghost use Rattle.unit_model.specs.Encoding.{text_at};
ghost use Rattle.unit_model.specs.Views.{ops_view};
ghost use Rattle.unit_model.specs.Preparing.{declaration, refusal_of_operator};
ghost use Rattle.prep_texts.specs.Interfaces.{operator_view, operators_view, IsBelow};
ghost use Rattle.prep_texts.specs.Looking.{extended, accepts_all};
ghost use Rattle.mod_directives.specs.declared.fault.DirFault.TheVariants.{Fault as FaultOf};

use crate::interfaces::KnownOperator;
use mod_directives::DirFault;
use pl_atoms::{Names, NoMemory};
use pl_ops::{Kind, OpRefusal, OpTable};
use std::alloc::Global;
use unit_model::{OpDecl, OpDecls};

/// The word that names a kind.
fn kind_word(kind: Kind) -> &'static [u8]
    ensures { kind_of result.now ≡ Some kind }
{
    match kind {
        Kind::Xfx => b"xfx",
        Kind::Xfy => b"xfy",
        Kind::Yfx => b"yfx",
        Kind::Fx => b"fx",
        Kind::Fy => b"fy",
        Kind::Xf => b"xf",
        Kind::Yf => b"yf",
    }
}

/// Declares one operator of an interface.
fn add_operator(table: &mut OpTable, declared: &KnownOperator) -> Result<(), OpRefusal>
    ensures cause { refusal_of_operator (operator table.old) (operator_view declared.now) ≡ cause_of result }
    ensures ok { OnOk result (operator table.new ≡ operator (table.old ++ declaration (operator_view declared.now) ∷ [])) }
{
    let word = kind_word(declared.op.kind);
    table.add(
        i64::from(declared.op.priority),
        word,
        declared.name.as_slice(),
    )
}

/// Declares the operators of an interface, in their order. Fault 12 exactly where one is refused.
pub fn add_operators(table: &mut OpTable, operators: &[KnownOperator]) -> Result<(), DirFault>
    ensures accepted { OnOk result (accepts_all (operators_view operators.now) (operator table.old) ≡ true) }
    ensures table { OnOk result (operator table.new ≡ extended (operator table.old) (map declaration (operators_view operators.now))) }
    ensures number { (n : ℕ) → result ≡ Err (FaultOf n) → n ≡ 12 }
    ensures refused { (n : ℕ) → result ≡ Err (FaultOf n) → accepts_all (operators_view operators.now) (operator table.old) ≡ false }
{
    'adding: for declared in operators {
        match add_operator(table, declared) {
            Ok(()) => {}
            Err(OpRefusal::NoMemory) => return Err(DirFault::NoMemory),
            Err(_) => return Err(DirFault::Fault(12)),
        }
    }
    Ok(())
}

/// The operators of an interface by number, their names interned.
pub fn interned(
    alloc: Global,
    operators: &[KnownOperator],
    names: &mut Names,
) -> Result<OpDecls, NoMemory>
    ensures same { IfOk result (λ os. map (operator_by (text_at names.new)) (ops_view os) ≡ operators_view operators.now) }
    ensures below { IfOk result (λ os. AllByRecursion (IsBelow (length names.new)) (map (λ o. o.name) (ops_view os))) }
    ensures front { IsFront names.old names.new }
{
    let mut ops = OpDecls::new(alloc);
    'interning: for operator in operators {
        let name = names.intern(operator.name.as_slice())?;
        ops.push(OpDecl {
            priority: operator.op.priority,
            kind: operator.op.kind,
            name,
        })?;
    }
    Ok(ops)
}
