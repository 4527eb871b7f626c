//! Instructions.

/// An instruction of a body. Instructions name each other by places, which are counted from 1; each leads to lower ones, and place 0
/// is the end of the body. `goal` is where its term stands in the code of terms, and `next` the place of what follows.
#[derive(Clone, Copy, Debug, PartialEq, Eq)]
pub enum Instruction {
    /// A goal that is none of the constructs below.
    Goal {
        goal: usize,
        next: usize,
    },
    /// The cut, `!`.
    Cut {
        goal: usize,
        next: usize,
    },
    /// A disjunction. Each side goes on to `next`.
    Either {
        goal: usize,
        left: usize,
        right: usize,
        next: usize,
    },
    /// An if-then-else, or an if-then, which has nothing otherwise. The condition leads to the end at place `end`.
    If {
        goal: usize,
        condition: usize,
        end: usize,
        otherwise: Option<usize>,
        next: usize,
    },
    /// The end of a condition. What follows it is the part behind the arrow.
    EndIf {
        next: usize,
    },
}
