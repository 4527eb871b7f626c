//! Terms of worked texts.
use pl_atoms::Names;
use pl_ops::OpTable;
use pl_reader::{ReadFault, read};
use pl_terms::Cell;
use pl_tokens::Tokens;
use std::alloc::Global;
use std::test::Fail;

/// A cell, with the text of its name.
#[derive(Clone, Copy)]
enum Want {
    Var(usize),
    Int(i64),
    Name(&'static str),
    Comp(&'static str, u8),
}

fn is_wanted(names: &Names, cell: Cell, want: Want) -> bool {
    match (cell, want) {
        (Cell::Var(n), Want::Var(m)) => n == m,
        (Cell::Int(n), Want::Int(m)) => n == m,
        (Cell::Name(id), Want::Name(text)) => names.find(text.as_bytes()) == Some(id),
        (Cell::Comp(id, n), Want::Comp(text, m)) => {
            n == m && names.find(text.as_bytes()) == Some(id)
        }
        _ => false,
    }
}

fn are_wanted(names: &Names, cells: &[Cell], wanted: &[Want]) -> bool {
    if cells.len() != wanted.len() {
        return false;
    }
    for (cell, want) in cells.iter().zip(wanted) {
        if !is_wanted(names, *cell, *want) {
            return false;
        }
    }
    true
}

/// Whether the first run of the text has a term, and it is the one that is wanted.
fn reads_as(alloc: Global, text: &str, wanted: Option<&[Want]>) -> Result<bool, Fail> {
    let table = OpTable::standard(alloc)?;
    let mut names = Names::new(alloc);
    let Some(run) = Tokens::new(text.as_bytes()).next_run(alloc)? else {
        return Ok(false);
    };
    match read(alloc, &run, &table, &mut names) {
        Ok(found) => match wanted {
            Some(cells) => Ok(are_wanted(&names, found.term.cells(), cells)),
            None => Ok(false),
        },
        Err(ReadFault::NoTerm) => Ok(wanted.is_none()),
        Err(ReadFault::NoMemory) => Ok(false),
    }
}

#[test]
fn texts_have_their_terms(rt: HostRuntime) -> Result<(), Fail> {
    use Want::{Comp, Int, Name, Var};
    let rows: [(&str, &[Want]); 9] = [
        ("- 1. ", &[Comp("-", 1), Int(1)]),
        ("-1. ", &[Int(-1)]),
        ("a -1. ", &[Comp("-", 2), Name("a"), Int(1)]),
        (
            "1 - 1 - 2. ",
            &[Comp("-", 2), Comp("-", 2), Int(1), Int(1), Int(2)],
        ),
        (
            "- a ^ b. ",
            &[Comp("-", 1), Comp("^", 2), Name("a"), Name("b")],
        ),
        (
            "- a + b. ",
            &[Comp("+", 2), Comp("-", 1), Name("a"), Name("b")],
        ),
        (
            "\\+ a, b. ",
            &[Comp(",", 2), Comp("\\+", 1), Name("a"), Name("b")],
        ),
        (
            "f(-, +, X, Y, X). ",
            &[Comp("f", 5), Name("-"), Name("+"), Var(0), Var(1), Var(0)],
        ),
        (
            "[\"a\"|b]. ",
            &[Comp(".", 2), Comp(".", 2), Int(97), Name("[]"), Name("b")],
        ),
    ];
    for (text, cells) in rows {
        assert!(rt; reads_as(rt.alloc(), text, Some(cells))?, "at {text}");
    }
    Ok(())
}

#[test]
fn texts_without_terms(rt: HostRuntime) -> Result<(), Fail> {
    for text in [
        "a :- b :- c. ",
        "f(a :- b). ",
        "a b. ",
        "- = x. ",
        "(a | b). ",
    ] {
        assert!(rt; reads_as(rt.alloc(), text, None)?, "at {text}");
    }
    Ok(())
}
