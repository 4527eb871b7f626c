//! What the goal of an instruction leads to.
ghost use Rattle.std.specs.Prelude.{◌<◌, length, true, ◌≡◌};
ghost use Rattle.goal_code.specs.Runs.{is_goal, goal_of};
ghost use Rattle.std.specs.Option.{option_map};
ghost use Rattle.clause_code.specs.Targets.{seen_from, IsTarget, HasTarget};

use goal_code::Instruction;
use goal_constructs::{Constructs, Kind};
use pl_atoms::NameId;
use pl_store::{ProcId, Tables};
use pl_unify::{Code, View};

/// What the goal of an instruction leads to.
#[derive(Clone, Copy, Debug, PartialEq)]
pub enum Target {
    /// A built-in predicate that is no control construct, by its place in the table of built-in procedures.
    Plain(usize),
    /// A procedure of the program that is visible from the clause's module; none where none is.
    User(Option<ProcId>),
    /// A control construct, or a variable that is called: what it is shows when it is activated.
    Construct,
}

/// What an instruction of a clause of the module `home` leads to, whose terms stand in `body`.
pub(crate) fn target_of(
    tables: &Tables,
    constructs: &Constructs,
    home: NameId,
    body: &Code,
    instruction: Instruction,
) -> Target
    requires { is_goal instruction ≡ true → goal_of instruction < length body.now.words }
    ensures { HasTarget constructs.now tables.now.rows home.0 body.now.words instruction result }
{
    match instruction {
        Instruction::Goal { goal, .. } => goal_target(tables, constructs, home, body.view(goal)),
        _ => Target::Construct,
    }
}

// What a goal with this root leads to in a clause of the module `home`.
fn goal_target(tables: &Tables, constructs: &Constructs, home: NameId, shown: View) -> Target
    ensures { IsTarget constructs.now tables.now.rows home.0 shown result }
{
    match constructs.kind(shown) {
        Kind::Plain(row) => Target::Plain(row),
        Kind::User => Target::User(seen(tables, home, shown)),
        Kind::Construct => Target::Construct,
    }
}

// The procedure that is visible from a module for a goal with this root.
fn seen(tables: &Tables, home: NameId, shown: View) -> Option<ProcId>
    ensures { option_map (λ p. p.0) result ≡ seen_from tables.now.rows home.0 shown }
{
    match shown {
        View::Name(name) => tables.procedure(home, name, 0),
        View::Comp(name, arity) => tables.procedure(home, name, arity),
        View::Var(_) => None,
        View::Int(_) => None,
    }
}
