ghost use Rattle.std.specs.Prelude.{IfOk};
ghost use Rattle.pl_terms.specs.Cells.{IsCell};

use self::Made::{Atom, Int, One, Two, Var};
use pl_atoms::{Names, NoMemory};
use pl_ops::OpTable;
use pl_terms::{Cell, Term, TermBuf};
use pl_writer::{Quote, write_name, write_text};
use std::alloc::Global;
use std::process::Abort;
use std::test::Fail;

/// A cell of a term, with its name as text.
#[derive(Clone, Copy)]
enum Made<'a> {
    Int(i64),
    Var(usize),
    Atom(&'a [u8]),
    One(&'a [u8]),
    Two(&'a [u8]),
}

fn cell_of(names: &mut Names, made: Made) -> Result<Cell, NoMemory>
    ensures { IfOk result IsCell }
{
    Ok(match made {
        Int(number) => Cell::Int(number),
        Var(number) => Cell::Var(number),
        Atom(name) => Cell::Name(names.intern(name)?),
        One(name) => Cell::Comp(names.intern(name)?, 1),
        Two(name) => Cell::Comp(names.intern(name)?, 2),
    })
}

fn term_of(
    rt: &impl Abort,
    alloc: Global,
    names: &mut Names,
    parts: &[Made],
) -> Result<Term, NoMemory> {
    let mut cells = TermBuf::new(alloc);
    for made in parts {
        cells.push(cell_of(names, *made)?)?;
    }
    Ok(cells.end().ok().expect(rt, "a whole term"))
}

#[test]
fn writes_terms(rt: HostRuntime) -> Result<(), Fail> {
    let table = OpTable::standard(rt.alloc())?;
    let mut names = Names::new(rt.alloc());
    let rows: [(&[Made], &[u8]); 10] = [
        (&[One(b"-"), Int(1)], b"- 1"),
        (&[Two(b"-"), Int(1), Int(-1)], b"1- -1"),
        (&[One(b"-"), One(b"-"), Int(1)], b"- - 1"),
        (
            &[One(b"\\+"), Two(b","), Atom(b"a"), Atom(b"b")],
            b"\\+ (a,b)",
        ),
        (
            &[Two(b"f"), Atom(b":-"), Two(b":-"), Atom(b"a"), Atom(b"b")],
            b"f(:-,(a:-b))",
        ),
        (
            &[
                Two(b"."),
                Atom(b"A b"),
                Two(b"."),
                One(b"{}"),
                Atom(b"x"),
                Atom(b"c"),
            ],
            b"['A b',{x}|c]",
        ),
        (&[Two(b"===>"), Atom(b"a"), Atom(b"b")], b"===>(a,b)"),
        (
            &[Two(b"mod"), Atom(b"-"), Atom(b"it's\n")],
            b"(-) mod 'it\\'s\\n'",
        ),
        (&[Two(b"="), Atom(b"a"), Atom(b"\\+")], b"a=(\\+)"),
        (&[Two(b"f"), Var(7), Atom(b"-")], b"f(_G7,-)"),
    ];
    for (parts, want) in rows {
        let term = term_of(&rt, rt.alloc(), &mut names, parts)?;
        let text = write_text(rt.alloc(), &term, &names, &table, Quote::Quoted, 1200)?;
        assert_eq!(rt; text.as_slice(), want);
    }
    Ok(())
}

#[test]
fn writes_without_quotes(rt: HostRuntime) -> Result<(), Fail> {
    let table = OpTable::standard(rt.alloc())?;
    let mut names = Names::new(rt.alloc());
    let rows: [(&[Made], &[u8]); 5] = [
        (&[One(b"-"), Atom(b"(a")], b"-(a"),
        (&[One(b"-"), Atom(b"(")], b"- ("),
        (&[One(b"-"), Two(b","), Atom(b"a"), Atom(b"b")], b"- (a,b)"),
        (&[Two(b"f"), Atom(b"A b"), Atom(b"it's")], b"f(A b,it's)"),
        (&[One(b"-"), Atom(b"1")], b"- 1"),
    ];
    for (parts, want) in rows {
        let term = term_of(&rt, rt.alloc(), &mut names, parts)?;
        let text = write_text(rt.alloc(), &term, &names, &table, Quote::Plain, 1200)?;
        assert_eq!(rt; text.as_slice(), want);
    }
    Ok(())
}

#[test]
fn writes_under_a_table(rt: HostRuntime) -> Result<(), Fail> {
    let mut table = OpTable::standard(rt.alloc())?;
    table.add(700, b"xfx", b"===>").ok().expect(&rt, "memory");
    table.add(200, b"yf", b"fact").ok().expect(&rt, "memory");
    let mut names = Names::new(rt.alloc());
    let rows: [(&[Made], u16, &[u8]); 3] = [
        (&[Two(b"===>"), Atom(b"a"), Atom(b"b")], 1200, b"a===>b"),
        (&[Two(b"===>"), Atom(b"a"), Atom(b"b")], 699, b"(a===>b)"),
        (
            &[One(b"fact"), One(b"fact"), Atom(b"a")],
            1200,
            b"a fact fact",
        ),
    ];
    for (parts, max, want) in rows {
        let term = term_of(&rt, rt.alloc(), &mut names, parts)?;
        let text = write_text(rt.alloc(), &term, &names, &table, Quote::Quoted, max)?;
        assert_eq!(rt; text.as_slice(), want);
    }
    Ok(())
}

#[test]
fn writes_a_deep_term(rt: HostRuntime) -> Result<(), Fail> {
    let table = OpTable::standard(rt.alloc())?;
    let mut names = Names::new(rt.alloc());
    let minus = names.intern(b"-")?;
    let mut cells = TermBuf::new(rt.alloc());
    for _ in 0..300_000 {
        cells.push(Cell::Comp(minus, 1))?;
    }
    cells.push(Cell::Int(1))?;
    let term = cells.end().ok().expect(&rt, "a whole term");
    let text = write_text(rt.alloc(), &term, &names, &table, Quote::Quoted, 1200)?;
    assert_eq!(rt; text.as_slice().len(), 600_001);
    Ok(())
}

#[test]
fn writes_names(rt: HostRuntime) -> Result<(), Fail> {
    let rows: [(&[u8], &[u8]); 9] = [
        (b"a", b"a"),
        (b"Ab", b"'Ab'"),
        (b"[]", b"[]"),
        (b"", b"''"),
        (b"it's", b"'it\\'s'"),
        (b"a\x01\x7f\x08", b"'a\\x1\\\\x7f\\\\b'"),
        (b"/*", b"'/*'"),
        (b".", b"'.'"),
        (b"+", b"+"),
    ];
    for (name, want) in rows {
        let text = write_name(rt.alloc(), name, Quote::Quoted)?;
        assert_eq!(rt; text.as_slice(), want);
        let text = write_name(rt.alloc(), name, Quote::Plain)?;
        assert_eq!(rt; text.as_slice(), name);
    }
    Ok(())
}
