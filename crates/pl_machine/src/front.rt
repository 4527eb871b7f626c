//! What stands first on a path.
ghost use Rattle.std.specs.Prelude.{◌≡◌, ◌<◌, Some, None, MatchOption, IfSome, reverse};
ghost use Rattle.goal_code.specs.Runs.{instruction_at};
ghost use Rattle.goal_state.specs.Frames.{IsLinked, place_get};
ghost use Rattle.goal_state.specs.declared.frames.Part.TheVariants as P;
ghost use Rattle.goal_state.specs.Denotation.{bodies, items_here};
ghost use Rattle.goal_state.specs.Well.{IsCompiled, IsWell};
ghost use Rattle.pl_machine.specs.Fronts.{HasFront};

use goal_code::Instruction;
use goal_moves::{Rest, Stand, instruction};
use goal_state::{CompiledProgram, Frame, Part, Path};

/// What stands first on a path.
#[derive(Clone, Copy, Debug)]
pub enum Front {
    /// A goal.
    Goal(Stand),
    /// The cut to a depth, and what follows it.
    Cut(usize, Rest),
    /// The exit of the catch of a depth, and what follows it.
    Exit(usize, Rest),
    /// Failure.
    Fail,
    /// Nothing, which is an answer.
    Nothing,
}

/// Passes over the frames of which nothing is left, to what stands first.
pub fn front_of(compiled: &CompiledProgram, path: &mut Path) -> Front
    requires compiled { IsCompiled compiled.now }
    requires well { IsWell compiled.now path.old }
    ensures well { IsWell compiled.now path.new }
    ensures others { path.new ≡ record path.old { f = path.new.f; pc = path.new.pc } }
    ensures items { items_here compiled.now path.new path.new.f path.new.pc ≡ items_here compiled.now path.old path.old.f path.old.pc }
    ensures front { HasFront compiled.now path.new result }
{
    loop {
        if let Some(front) = look(compiled, path) {
            return front;
        }
    }
}

// What stands first in a frame. Where nothing is left of it, the path goes on to the frame below.
fn look(compiled: &CompiledProgram, path: &mut Path) -> Option<Front>
    requires compiled { IsCompiled compiled.now }
    requires well { IsWell compiled.now path.old }
    ensures well { IsWell compiled.now path.new }
    ensures others { path.new ≡ record path.old { f = path.new.f; pc = path.new.pc } }
    ensures items { items_here compiled.now path.new path.new.f path.new.pc ≡ items_here compiled.now path.old path.old.f path.old.pc }
    ensures front { IfSome result (HasFront compiled.now path.new) }
    ensures lower { MatchOption result (path.new.f < path.old.f) (λ _. Unit {0}) }
{
    let Some(frame) = path.frames.get(path.f) else {
        return Some(Front::Nothing);
    };
    let Some(front) = of_frame(compiled, path, frame) else {
        path.f = frame.parent;
        path.pc = frame.ppc;
        return None;
    };
    Some(front)
}

// What stands first in a frame, if something is left of it.
fn of_frame(compiled: &CompiledProgram, path: &Path, frame: Frame) -> Option<Front>
    requires compiled { IsCompiled compiled.now }
    requires well { IsWell compiled.now path.now }
    requires linked { IsLinked path.now.frames }
    requires frame { place_get (reverse path.now.frames) path.now.f ≡ Some frame }
    ensures front { IfSome result (HasFront compiled.now path.now) }
    ensures none { MatchOption result (items_here compiled.now path.now path.now.f path.now.pc ≡ items_here compiled.now path.now frame.parent frame.ppc) (λ _. Unit {0}) }
{
    if let Part::Body = frame.part {
        of_body(compiled, path, frame)
    } else if path.pc == 0 {
        None
    } else {
        of_part(compiled, path, frame)
    }
}

// The same for a frame that runs no body and is not done.
fn of_part(compiled: &CompiledProgram, path: &Path, frame: Frame) -> Option<Front>
    requires well { IsWell compiled.now path.now }
    requires linked { IsLinked path.now.frames }
    requires frame { place_get (reverse path.now.frames) path.now.f ≡ Some frame }
    requires part { frame.part ≡ P.Body → ⊥ }
    requires some { path.now.pc ≡ 0 → ⊥ }
    ensures front { IfSome result (HasFront compiled.now path.now) }
    ensures none { MatchOption result (items_here compiled.now path.now path.now.f path.now.pc ≡ items_here compiled.now path.now frame.parent frame.ppc) (λ _. Unit {0}) }
{
    let rest = Rest {
        f: frame.parent,
        pc: frame.ppc,
    };
    match frame.part {
        Part::Goal(goal) => Some(Front::Goal(Stand::Term(goal, frame.setting, rest))),
        Part::Fail => Some(Front::Fail),
        Part::Cut => Some(Front::Cut(frame.setting.depth, rest)),
        Part::Exit => Some(Front::Exit(frame.setting.depth, rest)),
        Part::Link => None,
        Part::Body => unreachable!(),
    }
}

// The same for a frame that runs the body of a clause. At the end of a condition stands a cut.
fn of_body(compiled: &CompiledProgram, path: &Path, frame: Frame) -> Option<Front>
    requires compiled { IsCompiled compiled.now }
    requires linked { IsLinked path.now.frames }
    requires frame { place_get (reverse path.now.frames) path.now.f ≡ Some frame }
    requires part { frame.part ≡ P.Body }
    ensures front { IfSome result (HasFront compiled.now path.now) }
    ensures none { MatchOption result (items_here compiled.now path.now path.now.f path.now.pc ≡ items_here compiled.now path.now frame.parent frame.ppc) (λ _. Unit {0}) }
{
    match instruction(compiled, frame.setting.clause, path.pc) {
        None => None,
        Some(instruction) => match instruction {
            Instruction::EndIf { next } => {
                let rest = Rest {
                    f: frame.parent,
                    pc: next,
                };
                Some(Front::Cut(frame.setting.depth.saturating_sub(1), rest))
            }
            _ => Some(Front::Goal(Stand::Code(instruction, frame.setting))),
        },
    }
}
