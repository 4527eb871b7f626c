//! Each printed line once.
ghost use Rattle.pl_terms.specs.Cells.{IsCell};

use pl_atoms::{Bytes, Names, NoMemory};
use pl_ops::OpTable;
use pl_terms::{Cell, Term, TermBuf};
use prep_report::{
    AnswerList, Binding, End2, answer_line, count_line, end_line, fault_line, linked_line,
    not_unit_line, prepared_line, show_rows, usage_line,
};
use search_model::{Ind, VisibleRow, VisibleRows};
use std::alloc::Global;

fn is_line(line: Result<Bytes, NoMemory>, wanted: &[u8]) -> bool {
    match line {
        Ok(bytes) => bytes.as_slice() == wanted,
        Err(_) => false,
    }
}

#[test]
fn writes_faults(rt: HostRuntime) {
    let line = fault_line(rt.alloc(), b'P', 4, b"W", 13);
    assert!(rt; is_line(line, b"fault P4 in W at byte 13\n"));
    let line = not_unit_line(rt.alloc(), b"W");
    assert!(rt; is_line(line, b"not a unit: W\n"));
}

#[test]
fn writes_counts(rt: HostRuntime) {
    let line = prepared_line(rt.alloc(), 2, 10);
    assert!(rt; is_line(line, b"prepared 2 sections 10 clauses\n"));
    let line = linked_line(rt.alloc(), 3, 12);
    assert!(rt; is_line(line, b"linked 3 modules 12 procedures\n"));
    let line = count_line(rt.alloc(), 1, 0);
    assert!(rt; is_line(line, b"answers 1 steps 0\n"));
    assert_eq!(rt; usage_line().len(), 132);
}

/// The term `:- N`.
fn directive(alloc: Global, names: &mut Names, cell: Cell) -> Result<Term, NoMemory>
    requires { IsCell cell }
{
    let mut cells = TermBuf::new(alloc);
    cells.push(Cell::Comp(names.intern(b":-")?, 1))?;
    cells.push(cell)?;
    whole(cells)
}

fn binding(alloc: Global, names: &mut Names, name: &[u8], value: i64) -> Result<Binding, NoMemory> {
    let term = directive(alloc, names, Cell::Int(value))?;
    let name = Bytes::from_slice(alloc, name)?;
    Ok(Binding { name, term })
}

fn answers(alloc: Global, names: &mut Names) -> Result<AnswerList, NoMemory> {
    let mut answer = AnswerList::new(alloc);
    answer.push(binding(alloc, names, b"X", 1)?)?;
    answer.push(binding(alloc, names, b"_", 2)?)?;
    answer.push(binding(alloc, names, b"Y", -3)?)?;
    Ok(answer)
}

/// The line of the answers above.
fn line_of_answers(alloc: Global) -> Result<Bytes, NoMemory> {
    let table = OpTable::standard(alloc)?;
    let mut names = Names::new(alloc);
    let answer = answers(alloc, &mut names)?;
    answer_line(alloc, &answer, &names, &table)
}

fn line_of_no_answers(alloc: Global) -> Result<Bytes, NoMemory> {
    let table = OpTable::standard(alloc)?;
    answer_line(alloc, &AnswerList::new(alloc), &Names::new(alloc), &table)
}

#[test]
fn writes_answers(rt: HostRuntime) {
    let line = line_of_answers(rt.alloc());
    assert!(rt; is_line(line, b"X = (:-1), Y = (:- -3) ;\n"));
    let line = line_of_no_answers(rt.alloc());
    assert!(rt; is_line(line, b"true ;\n"));
}

fn whole(cells: TermBuf) -> Result<Term, NoMemory> {
    match cells.end() {
        Ok(term) => Ok(term),
        Err(_) => Err(NoMemory),
    }
}

/// The atom `A b`.
fn quoted_atom(alloc: Global, names: &mut Names) -> Result<Term, NoMemory> {
    let mut cells = TermBuf::new(alloc);
    cells.push(Cell::Name(names.intern(b"A b")?))?;
    whole(cells)
}

/// The list of `x` and what a variable stands for.
fn partial_list(alloc: Global, names: &mut Names) -> Result<Term, NoMemory> {
    let mut cells = TermBuf::new(alloc);
    cells.push(Cell::Comp(names.intern(b".")?, 2))?;
    cells.push(Cell::Name(names.intern(b"x")?))?;
    cells.push(Cell::Var(2))?;
    whole(cells)
}

fn line_of_terms(alloc: Global) -> Result<Bytes, NoMemory> {
    let table = OpTable::standard(alloc)?;
    let mut names = Names::new(alloc);
    let mut answer = AnswerList::new(alloc);
    let name = Bytes::from_slice(alloc, b"X")?;
    let term = quoted_atom(alloc, &mut names)?;
    answer.push(Binding { name, term })?;
    let name = Bytes::from_slice(alloc, b"Y")?;
    let term = partial_list(alloc, &mut names)?;
    answer.push(Binding { name, term })?;
    answer_line(alloc, &answer, &names, &table)
}

#[test]
fn writes_quoted_names_and_partial_lists(rt: HostRuntime) {
    assert!(rt; is_line(line_of_terms(rt.alloc()), b"X = 'A b', Y = [x|_G2] ;\n"));
}

fn line_of_end(alloc: Global, end: &End2) -> Result<Bytes, NoMemory> {
    let table = OpTable::standard(alloc)?;
    end_line(alloc, end, &Names::new(alloc), &table)
}

fn line_of_ball(alloc: Global) -> Result<Bytes, NoMemory> {
    let table = OpTable::standard(alloc)?;
    let mut names = Names::new(alloc);
    let ball = directive(alloc, &mut names, Cell::Var(3))?;
    end_line(alloc, &End2::Uncaught(ball), &names, &table)
}

#[test]
fn writes_ends(rt: HostRuntime) {
    assert!(rt; is_line(line_of_end(rt.alloc(), &End2::Exhausted), b"no more\n"));
    assert!(rt; is_line(line_of_end(rt.alloc(), &End2::Spent), b"budget spent\n"));
    assert!(rt; is_line(line_of_end(rt.alloc(), &End2::Halted(-3)), b"halted -3\n"));
    assert!(rt; is_line(line_of_ball(rt.alloc()), b"uncaught: :-_G3\n"));
}

fn line_of_row(alloc: Global) -> Result<Bytes, NoMemory> {
    let mut names = Names::new(alloc);
    let module = names.intern(b"lists")?;
    let name = names.intern(b"A b")?;
    let mut rows = VisibleRows::new(alloc);
    rows.push(VisibleRow {
        module,
        ind: Ind { name, arity: 3 },
        definer: module,
    })?;
    show_rows(alloc, &rows, &names)
}

#[test]
fn writes_rows(rt: HostRuntime) {
    assert!(rt; is_line(line_of_row(rt.alloc()), b"lists:'A b'/3 from lists\n"));
}
