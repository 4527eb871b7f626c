//! The codes of clauses.
ghost use Rattle.std.specs.Prelude.{◌≡◌, ◌<◌, length, IfOk, IsTrue, ◌↔◌, []};
ghost use Rattle.builtin_model.specs.Naming.{by_numbers};
ghost use Rattle.goal_code.specs.Denotation.{AreControlNames};
ghost use Rattle.pl_store.specs.Facts.{EachAt, IsLinked};
ghost use Rattle.pl_store.specs.Linked.{no_clause, with_names};
ghost use Rattle.clause_code.specs.Codes.{IsReady, IsCoded, IsCodes, code_at};

use crate::list::push;
use goal_code::{Body, ControlNames};
use pl_atoms::{Names, NoMemory};
use pl_store::{ClauseId, Tables};
use pl_terms::Term;
use pl_unify::Code;
use std::alloc::Global;
use std::marker::Model;

/// A clause as a machine runs it.
#[derive(Drop)]
pub struct ClauseCode {
    /// The code of its head.
    pub head: Code,
    /// The code of its body.
    pub body: Code,
    /// The instructions of its body (ISO/IEC 13211-1, 7.6.2), whose terms stand in `body`.
    pub goals: Body,
}

/// The codes of a program's clauses, by their numbers. Contracts see them in this order.
#[derive(Drop)]
pub struct Codes {
    list: Vec<ClauseCode>,
}

impl Model for Codes {
    ghost use Rattle.std.specs.Prelude.{List};
    ghost use Rattle.clause_code.specs.declared.codes.ClauseCode.{ClauseCode};

    ghost Value = { List ClauseCode };

    ghost view = { λ c. c.list.items };
}

impl Codes {
    /// The codes of all clauses of a program, which is given as its names and the rest. `control` are the numbers that it has for
    /// the control constructs.
    pub fn of(
        alloc: Global,
        names: &Names,
        tables: &Tables,
        control: ControlNames,
    ) -> Result<Codes, NoMemory>
        requires linked { IsLinked (with_names tables.now names.now) }
        requires control { AreControlNames (by_numbers names.now) control }
        ensures { IfOk result (λ codes. IsCodes control tables.now.clauses codes) }
    {
        let _count = names.len();
        let list = all_codes(alloc, tables, control)?;
        Ok(Codes { list })
    }

    /// How many clauses there are.
    pub fn len(&self) -> usize
        ensures { result ≡ length self.now }
    {
        self.list.len()
    }

    /// Whether there are none.
    pub fn is_empty(&self) -> bool
        ensures { IsTrue result ↔ (self.now ≡ []) }
    {
        self.list.is_empty()
    }

    /// The code of a clause.
    pub fn get(&self, clause: ClauseId) -> &ClauseCode
        requires { clause.0 < length self.now }
        ensures { result.now ≡ code_at self.now clause.0 }
    {
        &self.list[clause.0]
    }
}

// The codes of all clauses, which are ready for them.
fn all_codes(
    alloc: Global,
    tables: &Tables,
    names: ControlNames,
) -> Result<Vec<ClauseCode>, NoMemory>
    requires { EachAt (IsReady names) no_clause tables.now.clauses }
    ensures { IfOk result (λ list. IsCodes names tables.now.clauses list.items) }
{
    let mut list: Vec<ClauseCode> = Vec::new(alloc);
    for number in 0..tables.clauses() {
        let (vars, head, body) = tables.clause(ClauseId(number));
        let code = code_of(alloc, vars, head, body, names)?;
        push(&mut list, code)?;
    }
    Ok(list)
}

// The code of a clause, which is ready for it.
fn code_of(
    alloc: Global,
    vars: usize,
    head: &Term,
    body: &Term,
    names: ControlNames,
) -> Result<ClauseCode, NoMemory>
    requires { IsReady names (record { procedure = 0; clause = record { width = vars; head = head.now; body = body.now } }) }
    ensures { IfOk result (λ code. IsCoded names (record { width = vars; head = head.now; body = body.now }) code) }
{
    let head_code = Code::of(alloc, head, vars)?;
    let body_code = Code::of(alloc, body, vars)?;
    let goals = Body::of(alloc, &body_code, names)?;
    Ok(ClauseCode {
        head: head_code,
        body: body_code,
        goals,
    })
}
