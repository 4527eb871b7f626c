//! A body that is being compiled, from its last goal to its first.
ghost use Rattle.std.specs.Prelude.{◌≡◌, ◌<◌, ◌∷◌, [], ℕ, List, true, IfOk, OnOk, reverse, length};
ghost use Rattle.pl_terms.specs.Trees.{Tree};
ghost use Rattle.pl_unify.specs.Code.{code_tree};
ghost use Rattle.goal_code.specs.Shapes.{body_goals};
ghost use Rattle.goal_code.specs.Tasks.{TaskIn, UnderWay, WorkSettled, owed};
ghost use Rattle.goal_code.specs.Settled.{is_settled};
ghost use Rattle.goal_code.specs.Steps.{IsLed, IsAdded};

use crate::instruction::Instruction;
use crate::list::push;
use crate::shape::{ControlNames, Parts, is_truth, split};
use pl_atoms::NoMemory;
use pl_unify::Code;
use std::alloc::Global;

/// What is to be done once what stands before it is compiled. Numbers are places of terms, and `next`, `right`, `otherwise` and
/// `end` places of instructions.
#[derive(Clone, Copy, Debug)]
pub(crate) enum Task {
    /// The goals of a term.
    Goals(usize),
    /// The left side of a disjunction, whose right side is compiled.
    Left {
        goal: usize,
        left: usize,
        next: usize,
    },
    /// A disjunction whose sides are compiled.
    Disjunction {
        goal: usize,
        right: usize,
        next: usize,
    },
    /// The part behind the arrow of an if-then-else, whose last part is compiled.
    Then {
        goal: usize,
        condition: usize,
        then: usize,
        next: usize,
    },
    /// The condition of an if-then-else or if-then, whose part behind the arrow is compiled.
    Condition {
        goal: usize,
        condition: usize,
        otherwise: Option<usize>,
        next: usize,
    },
    /// An if-then-else or if-then whose parts are compiled.
    Conditional {
        goal: usize,
        end: usize,
        otherwise: Option<usize>,
        next: usize,
    },
}

/// A body that is being compiled: its instructions up to now, what is left to do, the next task last, and the place of
/// the instruction that was compiled last.
#[derive(Drop)]
pub(crate) struct Work {
    pub instructions: Vec<Instruction>,
    pub tasks: Vec<Task>,
    pub at: usize,
}

impl Work {
    /// The body whose term stands at a place, all of which is still to be compiled.
    pub fn begin(
        alloc: Global,
        p: usize,
        code: &Code,
        names: ControlNames,
    ) -> Result<Work, NoMemory>
        requires { p < length code.now.words }
        ensures under_way { IfOk result (λ w. UnderWay names code.now.words (body_goals names (code_tree code.now.words p)) w.instructions.items w.at (reverse w.tasks.items)) }
        ensures settled { is_settled names (code_tree code.now.words p) ≡ true → IfOk result (λ w. WorkSettled names code.now.words w.instructions.items (reverse w.tasks.items)) }
    {
        let instructions = Vec::new(alloc);
        let mut tasks = Vec::new(alloc);
        if !is_truth(code, p, names) {
            push(&mut tasks, Task::Goals(p))?;
            return Ok(Work {
                instructions,
                tasks,
                at: 0,
            });
        }
        Ok(Work {
            instructions,
            tasks,
            at: 0,
        })
    }

    /// Does a task, which was the next one.
    pub fn carry_out(
        &mut self,
        task: Task,
        code: &Code,
        names: ControlNames,
    ) -> Result<(), NoMemory>
        requires { TaskIn code.now.words task }
        ensures goes { OnOk result ((final : List (Tree ℕ)) → UnderWay names code.now.words final self.old.instructions.items self.old.at (task ∷ reverse self.old.tasks.items) → UnderWay names code.now.words final self.new.instructions.items self.new.at (reverse self.new.tasks.items)) }
        ensures less { OnOk result (owed code.now.words (reverse self.new.tasks.items) < owed code.now.words (task ∷ reverse self.old.tasks.items)) }
        ensures settled { OnOk result (WorkSettled names code.now.words self.old.instructions.items (task ∷ reverse self.old.tasks.items) → WorkSettled names code.now.words self.new.instructions.items (reverse self.new.tasks.items)) }
    {
        match task {
            Task::Goals(p) => self.compile(p, code, names),
            Task::Left { goal, left, next } => {
                let right = self.at;
                self.go_back(Task::Disjunction { goal, right, next }, left, next)
            }
            Task::Disjunction { goal, right, next } => {
                let left = self.at;
                self.add(Instruction::Either {
                    goal,
                    left,
                    right,
                    next,
                })
            }
            Task::Then {
                goal,
                condition,
                then,
                next,
            } => {
                let otherwise = Some(self.at);
                let task = Task::Condition {
                    goal,
                    condition,
                    otherwise,
                    next,
                };
                self.go_back(task, then, next)
            }
            Task::Condition {
                goal,
                condition,
                otherwise,
                next,
            } => {
                let then = self.at;
                self.add(Instruction::EndIf { next: then })?;
                let end = self.at;
                let task = Task::Conditional {
                    goal,
                    end,
                    otherwise,
                    next,
                };
                self.go_back(task, condition, end)
            }
            Task::Conditional {
                goal,
                end,
                otherwise,
                next,
            } => {
                let condition = self.at;
                self.add(Instruction::If {
                    goal,
                    condition,
                    end,
                    otherwise,
                    next,
                })
            }
        }
    }

    // Compiles the goals of the term at a place.
    fn compile(&mut self, p: usize, code: &Code, names: ControlNames) -> Result<(), NoMemory>
        requires { p < length code.now.words }
        ensures goes { OnOk result ((final : List (Tree ℕ)) → UnderWay names code.now.words final self.old.instructions.items self.old.at (Task.Goals p ∷ reverse self.old.tasks.items) → UnderWay names code.now.words final self.new.instructions.items self.new.at (reverse self.new.tasks.items)) }
        ensures less { OnOk result (owed code.now.words (reverse self.new.tasks.items) < owed code.now.words (Task.Goals p ∷ reverse self.old.tasks.items)) }
        ensures settled { OnOk result (WorkSettled names code.now.words self.old.instructions.items (Task.Goals p ∷ reverse self.old.tasks.items) → WorkSettled names code.now.words self.new.instructions.items (reverse self.new.tasks.items)) }
    {
        let next = self.at;
        match split(code, p, names) {
            Parts::Conjunction(left, right) => self.go_back(Task::Goals(left), right, next),
            Parts::Disjunction(left, right) => {
                let goal = p;
                self.go_back(Task::Left { goal, left, next }, right, next)
            }
            Parts::IfThenElse(condition, then, otherwise) => {
                let task = Task::Then {
                    goal: p,
                    condition,
                    then,
                    next,
                };
                self.go_back(task, otherwise, next)
            }
            Parts::IfThen(condition, then) => {
                let task = Task::Condition {
                    goal: p,
                    condition,
                    otherwise: None,
                    next,
                };
                self.go_back(task, then, next)
            }
            Parts::Cut => self.add(Instruction::Cut { goal: p, next }),
            Parts::Other => self.add(Instruction::Goal { goal: p, next }),
        }
    }

    // Compiles the goals of a term next, before what is at a place, and then does a task.
    fn go_back(&mut self, task: Task, goals: usize, at: usize) -> Result<(), NoMemory>
        ensures { OnOk result (IsLed self.old self.new task goals at) }
    {
        push(&mut self.tasks, task)?;
        push(&mut self.tasks, Task::Goals(goals))?;
        self.at = at;
        Ok(())
    }

    // Puts an instruction last.
    fn add(&mut self, instruction: Instruction) -> Result<(), NoMemory>
        ensures { OnOk result (IsAdded self.old self.new instruction) }
    {
        push(&mut self.instructions, instruction)?;
        self.at = self.instructions.len();
        Ok(())
    }
}
