//! What is still to be written of a term.
ghost use Rattle.std.specs.Prelude.{◌≡◌, ◌++◌, ◌≤◌, [], ◌∷◌, length, drop, IfOk, OnOk, ◌||◌};
ghost use Rattle.pl_terms.specs.Order.{text_of as text_of_name};
ghost use Rattle.pl_ops.specs.Tables.{operator, postfix_class};
ghost use Rattle.text_model.specs.Grammar.{right_weight as right_weight_of, left_y as left_y_of};
ghost use Rattle.text_model.specs.Writing.{right_max as right_max_of, left_max as left_max_of, weight_of, is_any_operator as is_any_operator_in};
ghost use Rattle.pl_writer.specs.Todos.{cell_weight as cell_weight_of, comp_weight as comp_weight_of, single_weight as single_weight_of, wrapped_todo, functional_todo, infix_todo, prefix_todo, postfix_todo, one_todo, two_todo, last_todo, single_todo, pair_todo, compound_todo, atom_todo, term_todo, is_end_tail as is_end_tail_of, is_item_tail as is_item_tail_of, arguments_todo, tail_todo};
ghost use Rattle.pl_writer.specs.declared.todo.Todo.TheVariants.{Put};

use crate::edge::{Part, text_of};
use pl_atoms::{NameId, Names, NoMemory};
use pl_ops::{Kind, Op, OpTable};
use pl_terms::Cell;
use text_model::Role;

/// What is still to be written.
#[derive(Debug, Clone, Copy)]
pub enum Todo {
    /// The next term, at most at a priority, as an operand of an operator or not.
    Term(u16, bool),
    /// The next term, as what follows an item of a list.
    Tail,
    /// So many terms, parted by commas.
    Arguments(usize),
    /// A piece.
    Put(Part),
}

fn right_max(op: Op) -> u16
    ensures { result ≡ right_max_of op }
{
    let y = match op.kind {
        Kind::Xfy => true,
        Kind::Fy => true,
        _ => false,
    };
    if y {
        op.priority
    } else {
        op.priority.saturating_sub(1)
    }
}

fn right_weight(op: Op) -> u32
    ensures { result ≡ right_weight_of op }
{
    let right_y = match op.kind {
        Kind::Xfy => 1,
        Kind::Fy => 1,
        _ => 0,
    };
    2 * u32::from(op.priority) + right_y
}

fn left_y(kind: Kind) -> u32
    ensures { result ≡ left_y_of kind }
{
    match kind {
        Kind::Yfx => 1,
        Kind::Yf => 1,
        _ => 0,
    }
}

/// The greatest priority of a left operand, where `weight` is the operand's.
fn left_max(op: Op, weight: u32) -> u16
    ensures { result ≡ left_max_of op weight }
{
    let y = left_y(op.kind);
    if weight < 2 * u32::from(op.priority) + y && y == 1 {
        op.priority
    } else {
        op.priority.saturating_sub(1)
    }
}

fn is_any_operator(table: &OpTable, text: &[u8]) -> bool
    ensures { result ≡ is_any_operator_in (operator table.now) text.now }
{
    table.prefix(text).is_some() || (table.infix(text).is_some() || table.postfix(text).is_some())
}

/// The weight of the term whose cells begin here: twice the priority of the operator that it is written
/// with, and one more where its last operand may have the same priority.
fn cell_weight(table: &OpTable, names: &Names, rest: &[Cell]) -> u32
    ensures { result ≡ cell_weight_of (operator table.now) names.now rest.now }
{
    match rest.first() {
        Some(Cell::Comp(name, arity)) => comp_weight(table, text_of(names, *name), *arity),
        _ => 0,
    }
}

fn op_weight(op: Option<Op>) -> u32
    ensures { result ≡ weight_of op }
{
    match op {
        Some(op) => right_weight(op),
        None => 0,
    }
}

fn comp_weight(table: &OpTable, text: &[u8], arity: u8) -> u32
    ensures { result ≡ comp_weight_of (operator table.now) text.now arity }
{
    if arity == 1 {
        single_weight(table, text)
    } else if arity == 2 {
        if text == b".".as_slice() {
            0
        } else {
            op_weight(table.infix(text))
        }
    } else {
        0
    }
}

fn single_weight(table: &OpTable, text: &[u8]) -> u32
    ensures { result ≡ single_weight_of (operator table.now) text.now }
{
    if text == b"{}".as_slice() {
        0
    } else {
        match table.prefix(text) {
            Some(op) => right_weight(op),
            None => op_weight(table.postfix(text)),
        }
    }
}

/// Puts these, in round brackets or not. What is put last is written first.
fn push_wrapped(stack: &mut Vec<Todo>, wrap: bool, todos: &[Todo]) -> Result<(), NoMemory>
    ensures { OnOk result (stack.new.items ≡ stack.old.items ++ wrapped_todo wrap todos.now) }
{
    if wrap {
        stack.push(Todo::Put(Part::Mark(b')')))?;
        stack.extend_from_slice(todos)?;
        stack.push(Todo::Put(Part::Mark(b'(')))?;
    } else {
        stack.extend_from_slice(todos)?;
    }
    Ok(())
}

fn push_functional(stack: &mut Vec<Todo>, name: NameId, arity: usize) -> Result<(), NoMemory>
    ensures { OnOk result (stack.new.items ≡ stack.old.items ++ functional_todo name arity) }
{
    stack.extend_from_slice([
        Todo::Put(Part::Mark(b')')),
        Todo::Arguments(arity),
        Todo::Put(Part::Mark(b'(')),
        Todo::Put(Part::Name(name)),
    ]
    .as_slice())?;
    Ok(())
}

fn push_infix(
    stack: &mut Vec<Todo>,
    name: NameId,
    weight: u32,
    max: u16,
    op: Op,
) -> Result<(), NoMemory>
    ensures { OnOk result (stack.new.items ≡ stack.old.items ++ infix_todo name weight max op) }
{
    let todos = [
        Todo::Term(right_max(op), true),
        Todo::Put(Part::Sign(name, Role::SignBetween)),
        Todo::Term(left_max(op, weight), true),
    ];
    push_wrapped(stack, max < op.priority, todos.as_slice())
}

fn push_prefix(stack: &mut Vec<Todo>, name: NameId, max: u16, op: Op) -> Result<(), NoMemory>
    ensures { OnOk result (stack.new.items ≡ stack.old.items ++ prefix_todo name max op) }
{
    let todos = [
        Todo::Term(right_max(op), true),
        Todo::Put(Part::Sign(name, Role::SignBefore)),
    ];
    push_wrapped(stack, max < op.priority, todos.as_slice())
}

fn push_postfix(
    stack: &mut Vec<Todo>,
    name: NameId,
    weight: u32,
    max: u16,
    op: Op,
) -> Result<(), NoMemory>
    ensures { OnOk result (stack.new.items ≡ stack.old.items ++ postfix_todo name weight max op) }
{
    let todos = [
        Todo::Put(Part::Sign(name, Role::SignAfter)),
        Todo::Term(left_max(op, weight), true),
    ];
    push_wrapped(stack, max < op.priority, todos.as_slice())
}

/// Puts a compound of two arguments by its infix operator, or as a function of two arguments.
fn push_two(
    stack: &mut Vec<Todo>,
    table: &OpTable,
    names: &Names,
    op: Option<Op>,
    name: NameId,
    rest: &[Cell],
    max: u16,
) -> Result<(), NoMemory>
    ensures { OnOk result (stack.new.items ≡ stack.old.items ++ two_todo op name (cell_weight_of (operator table.now) names.now rest.now) max) }
{
    match op {
        Some(op) => push_infix(stack, name, cell_weight(table, names, rest), max, op),
        None => push_functional(stack, name, 2),
    }
}

/// Puts a compound of one argument by its postfix operator, or as a function of one argument.
fn push_last(
    stack: &mut Vec<Todo>,
    table: &OpTable,
    names: &Names,
    op: Option<Op>,
    name: NameId,
    rest: &[Cell],
    max: u16,
) -> Result<(), NoMemory>
    ensures { OnOk result (stack.new.items ≡ stack.old.items ++ last_todo op name (cell_weight_of (operator table.now) names.now rest.now) max) }
{
    match op {
        Some(op) => push_postfix(stack, name, cell_weight(table, names, rest), max, op),
        None => push_functional(stack, name, 1),
    }
}

/// Puts a compound of one argument by its prefix operator, or in another way.
fn push_one(
    stack: &mut Vec<Todo>,
    table: &OpTable,
    names: &Names,
    op: Option<Op>,
    name: NameId,
    rest: &[Cell],
    max: u16,
) -> Result<(), NoMemory>
    ensures { OnOk result (stack.new.items ≡ stack.old.items ++ one_todo op (operator table.now postfix_class (text_of_name names.now name.0)) name (cell_weight_of (operator table.now) names.now rest.now) max) }
{
    match op {
        Some(op) => push_prefix(stack, name, max, op),
        None => push_last(
            stack,
            table,
            names,
            table.postfix(text_of(names, name)),
            name,
            rest,
            max,
        ),
    }
}

fn push_single(
    stack: &mut Vec<Todo>,
    table: &OpTable,
    names: &Names,
    name: NameId,
    rest: &[Cell],
    max: u16,
) -> Result<(), NoMemory>
    ensures { OnOk result (stack.new.items ≡ stack.old.items ++ single_todo (operator table.now) (text_of_name names.now name.0) name (cell_weight_of (operator table.now) names.now rest.now) max) }
{
    let text = text_of(names, name);
    if text == b"{}".as_slice() {
        stack.extend_from_slice([
            Todo::Put(Part::Mark(b'}')),
            Todo::Term(1200, false),
            Todo::Put(Part::Mark(b'{')),
        ]
        .as_slice())?;
        Ok(())
    } else {
        push_one(stack, table, names, table.prefix(text), name, rest, max)
    }
}

fn push_pair(
    stack: &mut Vec<Todo>,
    table: &OpTable,
    names: &Names,
    name: NameId,
    rest: &[Cell],
    max: u16,
) -> Result<(), NoMemory>
    ensures { OnOk result (stack.new.items ≡ stack.old.items ++ pair_todo (operator table.now) (text_of_name names.now name.0) name (cell_weight_of (operator table.now) names.now rest.now) max) }
{
    let text = text_of(names, name);
    if text == b".".as_slice() {
        stack.extend_from_slice([
            Todo::Tail,
            Todo::Term(999, false),
            Todo::Put(Part::Mark(b'[')),
        ]
        .as_slice())?;
        Ok(())
    } else {
        push_two(stack, table, names, table.infix(text), name, rest, max)
    }
}

/// Puts a compound, where `rest` are the cells of its arguments and of what follows.
fn push_compound(
    stack: &mut Vec<Todo>,
    table: &OpTable,
    names: &Names,
    name: NameId,
    arity: u8,
    rest: &[Cell],
    max: u16,
) -> Result<(), NoMemory>
    ensures { OnOk result (stack.new.items ≡ stack.old.items ++ compound_todo (operator table.now) (text_of_name names.now name.0) name arity (cell_weight_of (operator table.now) names.now rest.now) max) }
{
    if arity == 1 {
        push_single(stack, table, names, name, rest, max)
    } else if arity == 2 {
        push_pair(stack, table, names, name, rest, max)
    } else {
        push_functional(stack, name, usize::from(arity))
    }
}

/// Puts an atom: as an operand, one that is an operator stands in brackets.
fn push_atom(
    stack: &mut Vec<Todo>,
    table: &OpTable,
    text: &[u8],
    name: NameId,
    operand: bool,
) -> Result<(), NoMemory>
    ensures { OnOk result (stack.new.items ≡ stack.old.items ++ atom_todo (operator table.now) text.now name operand) }
{
    if text == b"[]".as_slice() {
        stack.push(Todo::Put(Part::Name(name)))?;
        Ok(())
    } else {
        push_wrapped(
            stack,
            operand && is_any_operator(table, text),
            [Todo::Put(Part::Name(name))].as_slice(),
        )
    }
}

/// Puts what the first of the cells becomes.
fn push_term(
    stack: &mut Vec<Todo>,
    table: &OpTable,
    names: &Names,
    rest: &[Cell],
    max: u16,
    operand: bool,
) -> Result<(), NoMemory>
    ensures { OnOk result (stack.new.items ≡ stack.old.items ++ term_todo (operator table.now) names.now max operand rest.now) }
{
    match rest.first() {
        None => Ok(()),
        Some(Cell::Var(number)) => push_part(stack, Part::Variable(*number)),
        Some(Cell::Int(number)) => push_part(stack, Part::Integer(*number)),
        Some(Cell::Name(name)) => push_atom(stack, table, text_of(names, *name), *name, operand),
        Some(Cell::Comp(name, arity)) => push_compound(
            stack,
            table,
            names,
            *name,
            *arity,
            &rest[1..],
            max,
        ),
    }
}

fn push_part(stack: &mut Vec<Todo>, part: Part) -> Result<(), NoMemory>
    ensures { OnOk result (stack.new.items ≡ stack.old.items ++ Put part ∷ []) }
{
    stack.push(Todo::Put(part))?;
    Ok(())
}

fn is_end_tail(names: &Names, rest: &[Cell]) -> bool
    ensures { result ≡ is_end_tail_of names.now rest.now }
{
    match rest.first() {
        Some(Cell::Name(name)) => text_of(names, *name) == b"[]".as_slice(),
        _ => false,
    }
}

fn is_item_tail(names: &Names, rest: &[Cell]) -> bool
    ensures { result ≡ is_item_tail_of names.now rest.now }
{
    match rest.first() {
        Some(Cell::Comp(name, arity)) => *arity == 2 && text_of(names, *name) == b".".as_slice(),
        _ => false,
    }
}

/// Puts the first of so many arguments, and the others.
pub(crate) fn push_arguments(stack: &mut Vec<Todo>, count: usize) -> Result<(), NoMemory>
    ensures { OnOk result (stack.new.items ≡ stack.old.items ++ arguments_todo count) }
{
    if count == 1 {
        stack.push(Todo::Term(999, false))?;
    } else if count > 0 {
        stack.extend_from_slice([
            Todo::Arguments(count - 1),
            Todo::Put(Part::Mark(b',')),
            Todo::Term(999, false),
        ]
        .as_slice())?;
    }
    Ok(())
}

/// Puts what the first of the cells becomes as what follows an item, and says whether its cell is used up.
fn push_tail(stack: &mut Vec<Todo>, names: &Names, rest: &[Cell]) -> Result<bool, NoMemory>
    ensures taken { IfOk result (λ taken. taken ≡ (is_end_tail_of names.now rest.now || is_item_tail_of names.now rest.now)) }
    ensures stack { OnOk result (stack.new.items ≡ stack.old.items ++ tail_todo names.now rest.now) }
{
    if is_end_tail(names, rest) {
        stack.push(Todo::Put(Part::Mark(b']')))?;
        Ok(true)
    } else if is_item_tail(names, rest) {
        stack.extend_from_slice([
            Todo::Tail,
            Todo::Term(999, false),
            Todo::Put(Part::Mark(b',')),
        ]
        .as_slice())?;
        Ok(true)
    } else {
        stack.extend_from_slice([
            Todo::Put(Part::Mark(b']')),
            Todo::Term(999, false),
            Todo::Put(Part::Mark(b'|')),
        ]
        .as_slice())?;
        Ok(false)
    }
}

/// Puts what the cell at a place becomes.
pub(crate) fn put_term(
    stack: &mut Vec<Todo>,
    table: &OpTable,
    names: &Names,
    cells: &[Cell],
    at: usize,
    max: u16,
    operand: bool,
) -> Result<(), NoMemory>
    requires { at ≤ length cells.now }
    ensures { OnOk result (stack.new.items ≡ stack.old.items ++ term_todo (operator table.now) names.now max operand (drop at cells.now)) }
{
    push_term(stack, table, names, &cells[at..], max, operand)
}

/// Puts what the cell at a place becomes as what follows an item, and says whether it is used up.
pub(crate) fn put_tail(
    stack: &mut Vec<Todo>,
    names: &Names,
    cells: &[Cell],
    at: usize,
) -> Result<bool, NoMemory>
    requires { at ≤ length cells.now }
    ensures taken { IfOk result (λ taken. taken ≡ (is_end_tail_of names.now (drop at cells.now) || is_item_tail_of names.now (drop at cells.now))) }
    ensures stack { OnOk result (stack.new.items ≡ stack.old.items ++ tail_todo names.now (drop at cells.now)) }
{
    push_tail(stack, names, &cells[at..])
}
