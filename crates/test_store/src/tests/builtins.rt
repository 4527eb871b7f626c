//! Rows with successes and errors, by their numbers in the table of built-in procedures.
ghost use Rattle.std.specs.Prelude.{All, IfOk};
ghost use Rattle.pl_terms.specs.Cells.{cells};
ghost use Rattle.pl_unify.specs.Code.{VarsBelow};
ghost use Rattle.pl_unify.specs.State.{IsRef, Grows};

use pl_atoms::{Bytes, NameId, Names, NoMemory};
use pl_builtin_terms::write;
use pl_builtins::{Done, Outcome, add_names, call, unify_code_int};
use pl_ops::OpTable;
use pl_terms::{Cell, Term, TermBuf};
use pl_unify::{Code, Ref, Store};
use std::alloc::Global;
use std::test::Fail;
use text_model::Quote;

// The names of a call's arguments.
#[derive(Clone, Copy, Debug)]
struct Symbols {
    name: NameId,
    nil: NameId,
    dot: NameId,
}

// Puts the names into a new table.
fn symbols_in(names: &mut Names, name: &[u8]) -> Result<Symbols, NoMemory> {
    let name = names.intern(name)?;
    let nil = names.intern(b"[]")?;
    let dot = names.intern(b".")?;
    Ok(Symbols { name, nil, dot })
}

// An argument of a call.
#[derive(Clone, Copy, Debug)]
enum Operand {
    Variable,
    Int(i64),
    // The atom of the row's name.
    Atom,
    // An atom whose number is none of the table.
    Unknown,
    // The empty list.
    Nil,
    // The term of the row's name with one new variable as both arguments.
    Twice,
    // The term of the row's name with these arguments.
    Pair(i64, i64),
    // The list of the row's name and 7.
    List,
}

use Operand::{Atom, Int, List, Nil, Pair, Twice, Unknown, Variable};

// Puts an argument at a place.
fn put(store: &mut Store, symbols: Symbols, operand: Operand) -> Result<Ref, NoMemory>
    ensures grows { IfOk result (λ at. Grows store.old.state store.new.state) }
    ensures place { IfOk result (λ at. IsRef store.new.state at) }
{
    match operand {
        Operand::Variable => store.fresh(),
        Operand::Int(value) => store.place_of_int(value),
        Operand::Atom => store.place_of_name(symbols.name),
        Operand::Unknown => store.place_of_name(NameId(1000)),
        Operand::Nil => store.place_of_name(symbols.nil),
        Operand::Twice => {
            let x = store.fresh()?;
            pair(store, symbols.name, x, x)
        }
        Operand::Pair(left, right) => {
            let left = store.place_of_int(left)?;
            let right = store.place_of_int(right)?;
            pair(store, symbols.name, left, right)
        }
        Operand::List => list(store, symbols),
    }
}

fn list(store: &mut Store, symbols: Symbols) -> Result<Ref, NoMemory>
    ensures grows { IfOk result (λ at. Grows store.old.state store.new.state) }
    ensures place { IfOk result (λ at. IsRef store.new.state at) }
{
    let rest = rest_of_list(store, symbols)?;
    let first = store.place_of_name(symbols.name)?;
    pair(store, symbols.dot, first, rest)
}

// Puts the list of 7.
fn rest_of_list(store: &mut Store, symbols: Symbols) -> Result<Ref, NoMemory>
    ensures grows { IfOk result (λ at. Grows store.old.state store.new.state) }
    ensures place { IfOk result (λ at. IsRef store.new.state at) }
{
    let seven = store.place_of_int(7)?;
    let end = store.place_of_name(symbols.nil)?;
    pair(store, symbols.dot, seven, end)
}

// Puts a term with two arguments.
fn pair(store: &mut Store, name: NameId, left: Ref, right: Ref) -> Result<Ref, NoMemory>
    requires places { IsRef store.old.state left × IsRef store.old.state right }
    ensures grows { IfOk result (λ at. Grows store.old.state store.new.state) }
    ensures place { IfOk result (λ at. IsRef store.new.state at) }
{
    store.compound(name, &[left, right])
}

// What a predicate writes, and behind that the term of its error, or of its arguments where it succeeds.
fn answer(
    alloc: Global,
    store: &mut Store,
    names: &mut Names,
    caller: NameId,
    row: usize,
    args: &[Ref],
    shown: Ref,
) -> Result<Bytes, NoMemory>
    requires places { All (λ r. IsRef store.old.state r) args.now }
    requires shown { IsRef store.old.state shown }
{
    let table = OpTable::standard(alloc)?;
    let mut text = Bytes::new(alloc);
    let outcome = call(alloc, store, names, &table, row, args, caller, &mut text)?;
    match outcome {
        Outcome::Yes => {
            write(alloc, store, names, &table, Quote::Quoted, shown, &mut text)?;
        }
        Outcome::Error(at) => {
            write(alloc, store, names, &table, Quote::Quoted, at, &mut text)?;
        }
        other => text.extend_from_slice(format!(in alloc; "{other:?}")?.as_bytes())?,
    }
    Ok(text)
}

// The arguments of a call.
#[derive(Clone, Copy, Debug)]
enum Args {
    None,
    One(Operand),
    Two(Operand, Operand),
    Three(Operand, Operand, Operand),
}

use Args::{None as Alone, One, Three, Two};

// What a predicate answers in a new store.
fn called(
    alloc: Global,
    names: &mut Names,
    row: usize,
    name: &[u8],
    args: Args,
) -> Result<Bytes, NoMemory> {
    let known = symbols_in(names, name)?;
    let mut store = Store::new(alloc);
    let name = known.name;
    match args {
        Args::None => {
            let shown = put(&mut store, known, Operand::Atom)?;
            answer(alloc, &mut store, names, name, row, &[], shown)
        }
        Args::One(first) => {
            let first = put(&mut store, known, first)?;
            let shown = store.compound(name, &[first])?;
            answer(alloc, &mut store, names, name, row, &[first], shown)
        }
        Args::Two(first, second) => {
            let first = put(&mut store, known, first)?;
            let second = put(&mut store, known, second)?;
            let shown = store.compound(name, &[first, second])?;
            answer(alloc, &mut store, names, name, row, &[first, second], shown)
        }
        Args::Three(first, second, third) => {
            let first = put(&mut store, known, first)?;
            let second = put(&mut store, known, second)?;
            let third = put(&mut store, known, third)?;
            let shown = store.compound(name, &[first, second, third])?;
            answer(
                alloc,
                &mut store,
                names,
                name,
                row,
                &[first, second, third],
                shown,
            )
        }
    }
}

type Called = (usize, &'static [u8], Args, &'static str);

const ROWS: [Called; 77] = [
    (0, b"a", Alone, "No"),
    (5, b"a", Two(Int(1), Int(2)), "a(1,2)"),
    (6, b"a", Two(Variable, Atom), "a(a,a)"),
    (6, b"a", Two(Int(1), Int(2)), "No"),
    (
        7,
        b"It",
        Two(Twice, Variable),
        "'It'('It'(_G0,_G0),['It',_G0,_G0])",
    ),
    (7, b"It", Two(Variable, List), "'It'('It'(7),['It',7])"),
    (
        7,
        b"a",
        Two(Variable, Nil),
        "error(domain_error(non_empty_list,[]),(=..)/2)",
    ),
    (
        7,
        b"a",
        Two(Variable, Atom),
        "error(type_error(list,a),(=..)/2)",
    ),
    (
        7,
        b"a",
        Two(Variable, Variable),
        "error(instantiation_error,(=..)/2)",
    ),
    (
        7,
        b"a",
        Two(Variable, Unknown),
        "error(type_error(list,''),(=..)/2)",
    ),
    (8, b"a", Two(Int(1), Int(2)), "No"),
    (
        8,
        b"a",
        Two(Variable, Int(2)),
        "error(instantiation_error,(=:=)/2)",
    ),
    (9, b"a", Two(Int(7), Int(7)), "a(7,7)"),
    (10, b"a", Two(Variable, Variable), "No"),
    (
        11,
        b"//",
        Two(Pair(1, 0), Int(1)),
        "error(evaluation_error(zero_divisor),(=\\=)/2)",
    ),
    (12, b"a", Two(Int(1), Int(2)), "No"),
    (13, b"a", Two(Int(2), Int(2)), "a(2,2)"),
    (15, b"a", Two(Variable, Int(0)), "a(_G0,0)"),
    (16, b"a", Two(Atom, Int(9)), "No"),
    (17, b"a", Two(Twice, Atom), "a(a(_G0,_G0),a)"),
    (18, b"a", Two(Int(9), Int(9)), "a(9,9)"),
    (20, b"a", Two(Int(1), Int(2)), "a(1,2)"),
    (20, b"a", Two(Variable, Atom), "No"),
    (21, b"a", Two(Variable, Variable), "a(_G0,_G1)"),
    (
        22,
        b"a",
        Three(Int(2), Pair(1, 3), Variable),
        "a(2,a(1,3),3)",
    ),
    (22, b"a", Three(Int(3), Pair(1, 3), Variable), "No"),
    (
        22,
        b"a",
        Three(Variable, Atom, Atom),
        "error(instantiation_error,arg/3)",
    ),
    (
        22,
        b"x",
        Three(Atom, Twice, Variable),
        "error(type_error(integer,x),arg/3)",
    ),
    (
        22,
        b"x",
        Three(Int(-1), Atom, Atom),
        "error(type_error(compound,x),arg/3)",
    ),
    (
        22,
        b"x",
        Three(Int(-1), Twice, Atom),
        "error(domain_error(not_less_than_zero,-1),arg/3)",
    ),
    (23, b"a", One(Atom), "a(a)"),
    (24, b"a", One(Variable), "No"),
    (33, b"a", One(Nil), "a([])"),
    (34, b"m", One(Variable), "m(m)"),
    (34, b"m", One(Int(1)), "No"),
    (
        36,
        b"f",
        Three(Variable, Twice, Int(1)),
        "f(>,f(_G1,_G1),1)",
    ),
    (
        36,
        b"f",
        Three(Int(0), Atom, Atom),
        "error(type_error(atom,0),compare/3)",
    ),
    (
        36,
        b"f",
        Three(Atom, Atom, Atom),
        "error(domain_error(order,f),compare/3)",
    ),
    (36, b"f", Three(Variable, Unknown, Atom), "f(<,'',f)"),
    (
        36,
        b"f",
        Three(Unknown, Atom, Atom),
        "error(domain_error(order,''),compare/3)",
    ),
    (37, b"a", One(Twice), "a(a(_G0,_G0))"),
    (38, b"a", Two(Twice, Variable), "a(a(_G0,_G0),a(_G2,_G2))"),
    (39, b"a", Alone, "No"),
    (40, b"a", Alone, "No"),
    (42, b"a", One(Int(1)), "No"),
    (43, b"f", Three(Variable, Atom, Int(2)), "f(f(_G1,_G2),f,2)"),
    (
        43,
        b"f",
        Three(Twice, Variable, Variable),
        "f(f(_G0,_G0),f,2)",
    ),
    (
        43,
        b"f",
        Three(Variable, Atom, Int(-1)),
        "error(domain_error(not_less_than_zero,-1),functor/3)",
    ),
    (
        43,
        b"f",
        Three(Variable, Atom, Int(256)),
        "error(representation_error(max_arity),functor/3)",
    ),
    (
        43,
        b"f",
        Three(Variable, Int(7), Int(1)),
        "error(type_error(atom,7),functor/3)",
    ),
    (
        43,
        b"f",
        Three(Variable, Twice, Int(0)),
        "error(type_error(atomic,f(_G1,_G1)),functor/3)",
    ),
    (44, b"a", One(Twice), "No"),
    (44, b"a", One(List), "a([a,7])"),
    (45, b"a", Alone, "Halt(0)"),
    (46, b"a", One(Int(-3)), "Halt(-3)"),
    (46, b"a", One(Atom), "error(type_error(integer,a),halt/1)"),
    (47, b"a", One(Int(1)), "a(1)"),
    (
        48,
        b"+",
        Two(Variable, Pair(i64::MAX, 1)),
        "error(evaluation_error(int_overflow),(is)/2)",
    ),
    (48, b"mod", Two(Int(-1), Pair(7, -2)), "-1 mod (7 mod -2)"),
    (
        48,
        b"foo",
        Two(Variable, Atom),
        "error(type_error(evaluable,foo/0),(is)/2)",
    ),
    (
        48,
        b"foo",
        Two(Variable, Unknown),
        "error(type_error(evaluable,''/0),(is)/2)",
    ),
    (49, b"a", Alone, "\na"),
    (50, b"a", One(Variable), "No"),
    (51, b"a", One(Int(1)), "a(1)"),
    (53, b"a", One(Atom), "aa(a)"),
    (
        53,
        b"a",
        One(Variable),
        "error(instantiation_error,put_char/1)",
    ),
    (
        53,
        b"It",
        One(Atom),
        "error(type_error(character,'It'),put_char/1)",
    ),
    (
        53,
        b"a",
        One(Unknown),
        "error(type_error(character,''),put_char/1)",
    ),
    (55, b"a", Two(Twice, Variable), "a(a(_G0,_G0),[_G0])"),
    (57, b"a", Alone, "a"),
    (58, b"a", Two(Twice, Variable), "a(a(_G0,_G0),a(_G0,_G0))"),
    (59, b"a", One(Variable), "a(_G0)"),
    (60, b"It", One(Atom), "It'It'('It')"),
    (61, b"It", One(Atom), "'It''It'('It')"),
    (61, b"It", One(List), "['It',7]'It'(['It',7])"),
    (62, b"a", Alone, "No"),
    (57, b"a", One(Atom), "No"),
];

#[test]
fn rows_by_number(rt: HostRuntime) -> Result<(), Fail> {
    for (row, name, args, want) in &ROWS {
        let mut names = Names::new(rt.alloc());
        let text = called(rt.alloc(), &mut names, *row, name, *args)?;
        assert_eq!(rt; text.as_slice(), want.as_bytes(), "at {row}");
        // a table that has all names they make gets no other
        let mut names = Names::new(rt.alloc());
        add_names(&mut names)?;
        names.intern(name)?;
        let count = names.len();
        let text = called(rt.alloc(), &mut names, *row, name, *args)?;
        assert_eq!(rt; text.as_slice(), want.as_bytes(), "at {row}");
        assert_eq!(rt; names.len(), count, "at {row}");
    }
    Ok(())
}

// A variable of a clause.
fn clause_variable(alloc: Global) -> Result<Term, NoMemory>
    ensures { IfOk result (λ t. VarsBelow 1 (cells t)) }
{
    let mut cells = TermBuf::new(alloc);
    cells.push(Cell::Var(0))?;
    Ok(cells.end_whole())
}

// Whether a variable of code that is bound to an integer is unified with another.
fn unifies_in_code(alloc: Global, bound: i64, value: i64) -> Result<bool, NoMemory> {
    let term = clause_variable(alloc)?;
    let code = Code::of(alloc, &term, 1)?;
    let place = code.len() - 1;
    let mut store = Store::new(alloc);
    store.fresh()?;
    let base = store.next_var();
    let variable = store.fresh()?;
    let integer = store.place_of_int(bound)?;
    store.unify(variable, integer)?;
    let done = unify_code_int(&mut store, &code, place, base, value)?;
    Ok(matches!(done, Done::Yes))
}

#[test]
fn a_variable_of_code_is_unified(rt: HostRuntime) -> Result<(), Fail> {
    assert!(rt; unifies_in_code(rt.alloc(), 7, 7)?);
    assert!(rt; !unifies_in_code(rt.alloc(), 7, 8)?);
    Ok(())
}
