//! What stands first where a run stands.
ghost use Rattle.std.specs.Prelude.{◌≡◌};
ghost use Rattle.goal_code.specs.Runs.{instruction_at};
ghost use Rattle.goal_state.specs.Denotation.{bodies};

use crate::active::Rest;
use goal_code::Instruction;
use goal_state::{CompiledProgram, Setting};
use pl_store::ClauseId;
use pl_unify::Ref;

/// What stands first: the goal of an instruction, or a goal that is a term, with what follows it.
#[derive(Clone, Copy, Debug)]
pub enum Stand {
    Code(Instruction, Setting),
    Term(Ref, Setting, Rest),
}

/// The instruction at a place in the body of a clause, none past the last clause.
pub fn instruction(compiled: &CompiledProgram, clause: usize, pc: usize) -> Option<Instruction>
    ensures { result ≡ instruction_at (bodies compiled.now clause).code pc }
{
    if clause < compiled.codes.len() {
        let code = compiled.codes.get(ClauseId(clause));
        code.goals.instruction(pc)
    } else {
        None
    }
}
