//! The operators that every text begins with.
ghost use Rattle.std.specs.Prelude.{◌≡◌, ◌<◌, ◌≤◌, IsTrue, IfOk};
ghost use Rattle.pl_atoms.specs.CaseTable.{cases_of, ascends};
ghost use Rattle.pl_ops.specs.Tables.{operator};
ghost use Rattle.pl_ops.specs.Standard.{standard};
ghost use Rattle.pl_ops.specs.StandardRows.{operator_rows, op_at};

use crate::op::{Kind, Op};
use crate::table::OpTable;
use pl_atoms::{CaseRow, NoMemory};
use std::alloc::Global;

// Rows of a table of cases, each a name, a number of arguments and a value.
macro_rules! rows {
    ($(($name:literal, $arity:literal, $value:literal),)*) => {
        [$(CaseRow { name: $name, arity: $arity, value: $value }),*]
    };
}

// The standard operators: name, number of operands, and the place of the priority and kind in `OPS`.
const OPERATORS: [CaseRow; 43] = rows![
    (b"*", 2, 11),
    (b"**", 2, 12),
    (b"+", 2, 10),
    (b",", 2, 5),
    (b"-", 1, 14),
    (b"-", 2, 10),
    (b"-->", 2, 0),
    (b"->", 2, 4),
    (b"/", 2, 11),
    (b"//", 2, 11),
    (b"/\\", 2, 10),
    (b":", 2, 9),
    (b":-", 1, 1),
    (b":-", 2, 0),
    (b";", 2, 3),
    (b"<", 2, 7),
    (b"<<", 2, 11),
    (b"=", 2, 7),
    (b"=..", 2, 7),
    (b"=:=", 2, 7),
    (b"=<", 2, 7),
    (b"==", 2, 7),
    (b"=\\=", 2, 7),
    (b">", 2, 7),
    (b">=", 2, 7),
    (b">>", 2, 11),
    (b"?-", 1, 1),
    (b"@", 2, 8),
    (b"@<", 2, 7),
    (b"@=<", 2, 7),
    (b"@>", 2, 7),
    (b"@>=", 2, 7),
    (b"\\", 1, 14),
    (b"\\+", 1, 6),
    (b"\\/", 2, 10),
    (b"\\=", 2, 7),
    (b"\\==", 2, 7),
    (b"^", 2, 13),
    (b"discontiguous", 1, 2),
    (b"dynamic", 1, 2),
    (b"is", 2, 7),
    (b"mod", 2, 11),
    (b"rem", 2, 11),
];

const OPS: [Op; 15] = [
    Op {
        priority: 1200,
        kind: Kind::Xfx,
    },
    Op {
        priority: 1200,
        kind: Kind::Fx,
    },
    Op {
        priority: 1150,
        kind: Kind::Fx,
    },
    Op {
        priority: 1100,
        kind: Kind::Xfy,
    },
    Op {
        priority: 1050,
        kind: Kind::Xfy,
    },
    Op {
        priority: 1000,
        kind: Kind::Xfy,
    },
    Op {
        priority: 900,
        kind: Kind::Fy,
    },
    Op {
        priority: 700,
        kind: Kind::Xfx,
    },
    Op {
        priority: 560,
        kind: Kind::Xfx,
    },
    Op {
        priority: 550,
        kind: Kind::Xfy,
    },
    Op {
        priority: 500,
        kind: Kind::Yfx,
    },
    Op {
        priority: 400,
        kind: Kind::Yfx,
    },
    Op {
        priority: 200,
        kind: Kind::Xfx,
    },
    Op {
        priority: 200,
        kind: Kind::Xfy,
    },
    Op {
        priority: 200,
        kind: Kind::Fy,
    },
];

impl OpTable {
    /// The standard table (ISO/IEC 13211-1, 6.3.4.4, with `dynamic`, `discontiguous`, `@` and `:`).
    pub fn standard(alloc: Global) -> Result<OpTable, NoMemory>
        ensures { IfOk result (λ table. operator table ≡ operator standard) }
    {
        let mut table = OpTable::new(alloc);
        for row in standard_rows() {
            table.declare(op_of(row.value), row.name)?;
        }
        Ok(table)
    }
}

// The rows of the standard operators, which ascend.
pub(crate) fn standard_rows() -> &'static [CaseRow]
    ensures rows { cases_of result.now ≡ operator_rows }
    ensures ascend { IsTrue (ascends (cases_of result.now)) }
{
    &OPERATORS
}

// The priority and kind of a row.
fn op_of(value: u32) -> Op
    requires { value < 15 }
    ensures op { result ≡ op_at value }
    ensures at_most { result.priority ≤ 1200 }
{
    OPS[value as usize]
}
