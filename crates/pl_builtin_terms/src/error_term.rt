//! The terms of errors (ISO/IEC 13211-1, 7.12.2).
ghost use Rattle.std.specs.Prelude.{◌≡◌, codes, IfOk, OnErr};
ghost use Rattle.pl_atoms.specs.Names.{IsFront};
ghost use Rattle.pl_unify.specs.State.{tree_at, IsRef, Grows};
ghost use Rattle.builtin_model.specs.Naming.{by_numbers, number_in};
ghost use Rattle.builtin_model.specs.Faults.{fault_tree, expected_text, domain_text, evaluation_text};
ghost use Rattle.pl_builtin_ends.specs.Meets.{fault_of, HasCulprit};
ghost use Rattle.pl_builtin_ends.specs.Made.{HasNames};
ghost use Rattle.pl_builtin_terms.specs.ErrorTerms.{kind_text, detail_text, slash_tree, formal_tree, error_tree};

use builtin_model::{Domain, Expected};
use pl_atoms::{NameId, Names, NoMemory};
use pl_builtin_ends::{Raised, intern};
use pl_unify::{Ref, Store};
use value_model::EvalFault;

// The names that the term of an error is made of.
#[derive(Clone, Copy, Debug)]
struct ErrorNames {
    // `error`.
    error: NameId,
    // `/`, between a name and a number of arguments.
    slash: NameId,
    // The kind of the error.
    kind: NameId,
    // What was expected, or what is wrong.
    detail: NameId,
}

/// Makes the term of an error of the predicate with this name and number of arguments, `error(E, Name/Arity)`. Names that it is made
/// of may be put into the table. NoMemory: the terms are as before.
pub fn error_place(
    store: &mut Store,
    names: &mut Names,
    fault: Raised,
    name: NameId,
    arity: u8,
) -> Result<Ref, NoMemory>
    requires { HasCulprit store.old.state fault }
    ensures grows { Grows store.old.state store.new.state }
    ensures next { store.new.state.next ≡ store.old.state.next }
    ensures place { IfOk result (λ at. IsRef store.new.state at) }
    ensures tree { IfOk result (λ at. tree_at store.new.state at ≡ fault_tree (by_numbers names.new) (fault_of store.old.state fault) name.0 arity) }
    ensures err { OnErr result (store.new.state ≡ store.old.state) }
    ensures front { IsFront names.old names.new }
    ensures kept { HasNames names.old → names.new ≡ names.old }
{
    let symbols = error_names(names, fault)?;
    let mark = store.mark();
    match error_of(store, symbols, fault, name, arity) {
        Ok(at) => Ok(at),
        Err(_) => {
            store.undo(&mark);
            Err(NoMemory)
        }
    }
}

// The names that the term of an error is made of, which are put into the table if they are new.
fn error_names(names: &mut Names, fault: Raised) -> Result<ErrorNames, NoMemory>
    ensures error { IfOk result (λ symbols. symbols.error.0 ≡ number_in names.new (codes "error")) }
    ensures slash { IfOk result (λ symbols. symbols.slash.0 ≡ number_in names.new (codes "/")) }
    ensures kind { IfOk result (λ symbols. symbols.kind.0 ≡ number_in names.new (kind_text fault)) }
    ensures detail { IfOk result (λ symbols. symbols.detail.0 ≡ number_in names.new (detail_text fault)) }
    ensures front { IsFront names.old names.new }
    ensures kept { HasNames names.old → names.new ≡ names.old }
{
    let error = intern(names, b"error")?;
    let slash = intern(names, b"/")?;
    let kind = intern(names, kind_text(fault))?;
    let detail = intern(names, detail_text(fault))?;
    Ok(ErrorNames {
        error,
        slash,
        kind,
        detail,
    })
}

fn kind_text(fault: Raised) -> &'static [u8]
    ensures { result.now ≡ kind_text fault }
{
    match fault {
        Raised::Instantiation => b"instantiation_error",
        Raised::Type(_, _) => b"type_error",
        Raised::Domain(_, _) => b"domain_error",
        Raised::MaxArity => b"representation_error",
        Raised::NotEvaluable(_, _) => b"type_error",
        Raised::Evaluation(_) => b"evaluation_error",
    }
}

// The second name of an error, or its first where it has no second.
fn detail_text(fault: Raised) -> &'static [u8]
    ensures { result.now ≡ detail_text fault }
{
    match fault {
        Raised::Instantiation => b"instantiation_error",
        Raised::Type(expected, _) => expected_text(expected),
        Raised::Domain(domain, _) => domain_text(domain),
        Raised::MaxArity => b"max_arity",
        Raised::NotEvaluable(_, _) => b"evaluable",
        Raised::Evaluation(fault) => evaluation_text(fault),
    }
}

fn expected_text(expected: Expected) -> &'static [u8]
    ensures { result.now ≡ expected_text expected }
{
    match expected {
        Expected::Atom => b"atom",
        Expected::Atomic => b"atomic",
        Expected::Character => b"character",
        Expected::Compound => b"compound",
        Expected::Integer => b"integer",
        Expected::List => b"list",
    }
}

fn domain_text(domain: Domain) -> &'static [u8]
    ensures { result.now ≡ domain_text domain }
{
    match domain {
        Domain::NonEmptyList => b"non_empty_list",
        Domain::NotLessThanZero => b"not_less_than_zero",
        Domain::Order => b"order",
    }
}

fn evaluation_text(fault: EvalFault) -> &'static [u8]
    ensures { result.now ≡ evaluation_text fault }
{
    match fault {
        EvalFault::Overflow => b"int_overflow",
        EvalFault::ZeroDivisor => b"zero_divisor",
        _ => b"undefined",
    }
}

// The term of an error. After an `Err` parts of it may be there.
fn error_of(
    store: &mut Store,
    symbols: ErrorNames,
    fault: Raised,
    name: NameId,
    arity: u8,
) -> Result<Ref, NoMemory>
    requires { HasCulprit store.old.state fault }
    ensures grows { Grows store.old.state store.new.state }
    ensures next { store.new.state.next ≡ store.old.state.next }
    ensures place { IfOk result (λ at. IsRef store.new.state at) }
    ensures tree { IfOk result (λ at. tree_at store.new.state at ≡ error_tree symbols store.old.state fault name.0 arity) }
{
    let formal = formal_of(store, symbols, fault)?;
    let indicator = indicator_of(store, symbols, name, arity)?;
    store.compound(symbols.error, &[formal, indicator])
}

// What an error says, without the predicate.
fn formal_of(store: &mut Store, symbols: ErrorNames, fault: Raised) -> Result<Ref, NoMemory>
    requires { HasCulprit store.old.state fault }
    ensures grows { Grows store.old.state store.new.state }
    ensures next { store.new.state.next ≡ store.old.state.next }
    ensures place { IfOk result (λ at. IsRef store.new.state at) }
    ensures tree { IfOk result (λ at. tree_at store.new.state at ≡ formal_tree symbols store.old.state fault) }
{
    match fault {
        Raised::Instantiation => store.place_of_name(symbols.kind),
        Raised::Type(_, culprit) | Raised::Domain(_, culprit) => {
            let detail = store.place_of_name(symbols.detail)?;
            store.compound(symbols.kind, &[detail, culprit])
        }
        Raised::NotEvaluable(name, arity) => {
            let detail = store.place_of_name(symbols.detail)?;
            let culprit = indicator_of(store, symbols, name, arity)?;
            store.compound(symbols.kind, &[detail, culprit])
        }
        Raised::MaxArity | Raised::Evaluation(_) => {
            let detail = store.place_of_name(symbols.detail)?;
            store.compound(symbols.kind, &[detail])
        }
    }
}

// The name of a predicate with its number of arguments, `Name/Arity`.
fn indicator_of(
    store: &mut Store,
    symbols: ErrorNames,
    name: NameId,
    arity: u8,
) -> Result<Ref, NoMemory>
    ensures grows { Grows store.old.state store.new.state }
    ensures next { store.new.state.next ≡ store.old.state.next }
    ensures place { IfOk result (λ at. IsRef store.new.state at) }
    ensures tree { IfOk result (λ at. tree_at store.new.state at ≡ slash_tree symbols name.0 arity) }
{
    let name = store.place_of_name(name)?;
    let arity = store.place_of_int(arity as i64)?;
    store.compound(symbols.slash, &[name, arity])
}
