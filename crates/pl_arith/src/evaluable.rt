//! The evaluable functors.
ghost use Rattle.std.specs.Prelude.{◌≡◌, ◌<◌};
ghost use Rattle.pl_atoms.specs.CaseTable.{case_of, cases_of, is_case};
ghost use Rattle.pl_arith.specs.Keys.{key, likely_place};
ghost use Rattle.value_model.specs.Value.{evaluables, operation_at, operation_of};

use pl_atoms::CaseRow;
use value_model::{Binary, Operation, Unary};

// Rows of a table of cases, each a name, a number of arguments and a value.
macro_rules! rows {
    ($(($name:literal, $arity:literal, $value:literal),)*) => {
        [$(CaseRow { name: $name, arity: $arity, value: $value }),*]
    };
}

// The evaluable functors: name, number of arguments, and the place of the operation in `OPERATIONS`.
const EVALUABLES: [CaseRow; 14] = rows![
    (b"*", 2, 0),
    (b"+", 2, 1),
    (b"-", 1, 2),
    (b"-", 2, 3),
    (b"//", 2, 4),
    (b"/\\", 2, 5),
    (b"<<", 2, 6),
    (b">>", 2, 7),
    (b"\\", 1, 8),
    (b"\\/", 2, 9),
    (b"abs", 1, 10),
    (b"mod", 2, 11),
    (b"rem", 2, 12),
    (b"sign", 1, 13),
];

static OPERATIONS: [Operation; 14] = [
    Operation::Two(Binary::Multiply),
    Operation::Two(Binary::Add),
    Operation::One(Unary::Negate),
    Operation::Two(Binary::Subtract),
    Operation::Two(Binary::Quotient),
    Operation::Two(Binary::And),
    Operation::Two(Binary::ShiftLeft),
    Operation::Two(Binary::ShiftRight),
    Operation::One(Unary::Complement),
    Operation::Two(Binary::Or),
    Operation::One(Unary::Abs),
    Operation::Two(Binary::Modulo),
    Operation::Two(Binary::Remainder),
    Operation::One(Unary::Sign),
];

// For each key, the place in `EVALUABLES` of the functor that has it, or 0 where none has it.
static PLACES: [u8; 32] = [
    0, 0, 0, 11, 2, 5, 0, 3, 0, 0, 0, 0, 12, 0, 13, 8, 10, 4, 6, 0, 0, 0, 0, 0, 0, 0, 0, 0, 7, 1,
    9, 0,
];

/// The operation with this name and number of arguments, where there is one.
pub fn find_operation(name: &[u8], arity: u8) -> Option<Operation>
    ensures { result ≡ operation_of name.now arity }
{
    let rows = rows();
    let row = rows[likely_place(name, arity)];
    if is_row(&row, name, arity) {
        Some(operation_at(row.value))
    } else {
        None
    }
}

// The only place of a row that may have this name and number of arguments.
fn likely_place(name: &[u8], arity: u8) -> usize
    ensures place { result ≡ likely_place name.now arity }
    ensures below { result < 14 }
{
    PLACES[key(name, arity)] as usize
}

// A number that tells the evaluable functors apart, so that a look at one row is enough.
fn key(name: &[u8], arity: u8) -> usize
    ensures key { result ≡ key name.now arity }
    ensures below { result < 32 }
{
    let first = name.first().copied().unwrap_or(0);
    let last = name.last().copied().unwrap_or(0);
    (first as usize + 4 * last as usize + 3 * arity as usize) % 32
}

// Whether the row has this name and number of arguments.
fn is_row(row: &CaseRow, name: &[u8], arity: u8) -> bool
    ensures { result ≡ is_case name.now arity (case_of row.now) }
{
    row.arity == arity as u32 && row.name == name
}

// The rows of the evaluable functors.
fn rows() -> &'static [CaseRow]
    ensures { cases_of result.now ≡ evaluables }
{
    &EVALUABLES
}

fn operation_at(number: u32) -> Operation
    requires { number < 14 }
    ensures { result ≡ operation_at number }
{
    OPERATIONS[number as usize]
}
