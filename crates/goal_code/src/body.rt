//! Bodies of clauses.
ghost use Rattle.std.specs.Prelude.{◌≡◌, ◌<◌, length, true, IfOk};
ghost use Rattle.pl_unify.specs.Code.{last_tree};
ghost use Rattle.goal_code.specs.Runs.{IsBody, instruction_at};
ghost use Rattle.goal_code.specs.Settled.{is_settled, AreSettled};

use crate::instruction::Instruction;
use crate::shape::ControlNames;
use crate::work::Work;
use pl_atoms::NoMemory;
use pl_unify::Code;
use std::alloc::Global;
use std::marker::Model;

/// The body of a clause as instructions. Contracts see these, and the place where the body begins.
#[derive(Drop)]
pub struct Body {
    instructions: Vec<Instruction>,
    start: usize,
}

impl Model for Body {
    ghost use Rattle.goal_code.specs.Compiled.{Compiled};

    ghost Value = { Compiled };

    ghost view = { λ b. record { code = b.instructions.items; start = b.start } };
}

impl Body {
    /// The instructions of the body whose term is the last one in the code of terms (ISO/IEC 13211-1, 7.6.2).
    pub fn of(alloc: Global, code: &Code, names: ControlNames) -> Result<Body, NoMemory>
        requires { 0 < length code.now.words }
        ensures body { IfOk result (λ b. IsBody names code.now.words b.code b.start (last_tree code.now.words)) }
        ensures settled { is_settled names (last_tree code.now.words) ≡ true → IfOk result (λ b. AreSettled names code.now.words b.code) }
    {
        let mut work = Work::begin(alloc, code.len() - 1, code, names)?;
        while let Some(task) = work.tasks.pop() {
            work.carry_out(task, code, names)?;
        }
        Ok(Body {
            instructions: work.instructions,
            start: work.at,
        })
    }

    /// The place of the first instruction, 0 where the body is `true`.
    pub fn start(&self) -> usize
        ensures { result ≡ self.now.start }
    {
        self.start
    }

    /// The instruction at a place, none at place 0.
    pub fn instruction(&self, place: usize) -> Option<Instruction>
        ensures { result ≡ instruction_at self.now.code place }
    {
        if place == 0 {
            return None;
        }
        self.instructions.get(place - 1).copied()
    }
}
