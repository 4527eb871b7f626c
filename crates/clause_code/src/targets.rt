//! The targets of a program's clauses.
ghost use Rattle.std.specs.Prelude.{◌≡◌, ◌<◌, length, IfOk};
ghost use Rattle.pl_store.specs.Facts.{EachAt};
ghost use Rattle.pl_store.specs.Linked.{no_clause};
ghost use Rattle.goal_code.specs.Runs.{IsSound};
ghost use Rattle.clause_code.specs.Codes.{IsCodes};
ghost use Rattle.clause_code.specs.Targets.{AreTargets, HaveTargets, led_at, target_at};

use crate::list::push;
use crate::target::{Target, target_of};
use crate::{ClauseCode, Codes};
use goal_constructs::Constructs;
use pl_atoms::{NameId, NoMemory};
use pl_store::{ClauseId, Tables};
use std::alloc::Global;
use std::marker::Model;

// The module that defines a clause's procedure, and what the clause's instructions lead to.
#[derive(Drop)]
struct ClauseTargets {
    home: NameId,
    list: Vec<Target>,
}

impl Model for ClauseTargets {
    ghost use Rattle.clause_code.specs.Led.{Led};

    ghost Value = { Led };

    ghost view = { λ c. record { home = c.home.0; targets = c.list.items } };
}

/// What the goals of a program's clauses lead to, by the numbers of the clauses and the places of their instructions. Contracts
/// see the clauses in this order.
#[derive(Drop)]
pub struct Targets {
    list: Vec<ClauseTargets>,
}

impl Model for Targets {
    ghost use Rattle.std.specs.Prelude.{List};
    ghost use Rattle.clause_code.specs.Led.{Led};

    ghost Value = { List Led };

    ghost view = { λ t. t.list.items };
}

impl Targets {
    /// The targets of all clauses' goals, which are given with the codes of the clauses and the numbers of the control constructs.
    /// It takes time by the size of the codes.
    pub fn of(
        alloc: Global,
        tables: &Tables,
        codes: &Codes,
        constructs: &Constructs,
    ) -> Result<Targets, NoMemory>
        requires owners { EachAt (λ e. e.procedure < length tables.now.procedures) no_clause tables.now.clauses }
        requires codes { IsCodes constructs.now.names.control tables.now.clauses codes.now }
        ensures { IfOk result (λ targets. AreTargets constructs.now tables.now codes.now targets) }
    {
        let mut list: Vec<ClauseTargets> = Vec::new(alloc);
        for number in 0..tables.clauses() {
            let clause = ClauseId(number);
            let home = tables.home(tables.owner(clause));
            let targets = clause_targets(alloc, tables, constructs, home, codes.get(clause))?;
            push(
                &mut list,
                ClauseTargets {
                    home,
                    list: targets,
                },
            )?;
        }
        Ok(Targets { list })
    }

    /// What an instruction of a clause leads to, by the number of the clause and the instruction's place, which is counted from 1.
    /// `Construct` where there is no such instruction.
    pub fn get(&self, clause: usize, place: usize) -> Target
        ensures { result ≡ target_at self.now clause place }
    {
        let Some(targets) = self.list.get(clause) else {
            return Target::Construct;
        };
        if place == 0 {
            return Target::Construct;
        }
        match targets.list.get(place - 1) {
            Some(target) => *target,
            None => Target::Construct,
        }
    }

    /// The module that defines the procedure of a clause: what its goals lead to holds where they are looked up from there.
    pub fn home(&self, clause: usize) -> NameId
        requires { clause < length self.now }
        ensures { result.0 ≡ (led_at self.now clause).home }
    {
        self.list[clause].home
    }
}

// What the instructions of a clause of the module `home` lead to.
fn clause_targets(
    alloc: Global,
    tables: &Tables,
    constructs: &Constructs,
    home: NameId,
    code: &ClauseCode,
) -> Result<Vec<Target>, NoMemory>
    requires { IsSound constructs.now.names.control code.now.body.words code.now.goals.code }
    ensures { IfOk result (λ list. HaveTargets constructs.now tables.now.rows home.0 code.now list.items) }
{
    let mut list: Vec<Target> = Vec::new(alloc);
    while let Some(instruction) = code.goals.instruction(list.len() + 1) {
        let target = target_of(tables, constructs, home, &code.body, instruction);
        push(&mut list, target)?;
    }
    Ok(list)
}
