//! Tables of cases that are told apart by a name and a number of arguments.
ghost use Rattle.std.specs.Prelude.{◌≡◌, ◌<◌, length, IsTrue, IfSome};
ghost use Rattle.std.specs.Ordering.{ordering_then, nat_cmp};
ghost use Rattle.std.specs.Cmp.Lexicographic.{slice_cmp};
ghost use Rattle.pl_atoms.specs.CaseTable.{cases_of, ascends, case_place};

use std::cmp::Ordering;
use std::marker::Model;

/// A row of a table of cases: a name, a number of arguments, and a value.
#[derive(Clone, Copy, Debug)]
pub struct CaseRow {
    pub name: &'static [u8],
    pub arity: u32,
    pub value: u32,
}

/// A table of cases, in strictly ascending order of name, then number of arguments. Contracts see its rows with their names as
/// texts.
#[derive(Drop)]
pub struct CaseTable<'a> {
    rows: &'a [CaseRow],
}

impl<'a> Model for CaseTable<'a> {
    ghost use Rattle.std.specs.Prelude.{List, IsTrue};
    ghost use Rattle.pl_atoms.specs.CaseTable.{Case, cases_of, ascends};

    ghost Value = { List Case };

    ghost view = { λ t. cases_of t.rows.now };

    ghost invariant = { λ t. IsTrue (ascends (cases_of t.rows.now)) };
}

impl<'a> CaseTable<'a> {
    /// The table of these rows, which ascend.
    pub fn new(rows: &'a [CaseRow]) -> CaseTable<'a>
        requires { IsTrue (ascends (cases_of rows.now)) }
        ensures { result ≡ cases_of rows.now }
    {
        CaseTable { rows }
    }

    /// The place of the row with this name and number of arguments. None exactly where there is none.
    pub fn find(&self, name: &[u8], arity: u32) -> Option<usize>
        ensures place { result ≡ case_place self.now name.now arity }
        ensures within { IfSome result (λ place. place < length self.now) }
    {
        self.rows
            .binary_search_by(|row| compare(row, name, arity))
            .ok()
    }
}

/// Whether these rows strictly ascend by name, then number of arguments.
pub fn ascending(rows: &[CaseRow]) -> bool
    ensures { result ≡ ascends (cases_of rows.now) }
{
    rows.is_sorted_by(|a, b| compare(a, b.name, b.arity).is_lt())
}

// How a row stands to a name and a number of arguments.
fn compare(row: &CaseRow, name: &[u8], arity: u32) -> Ordering
    ensures { result ≡ ordering_then (slice_cmp nat_cmp row.now.name.now name.now) (nat_cmp row.now.arity arity) }
{
    row.name.cmp(name).then(row.arity.cmp(&arity))
}
