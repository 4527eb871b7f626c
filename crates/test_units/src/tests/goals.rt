//! Worked texts, as goals and with their faults.
use goal_runs::{GoalFault, read_goal};
use pl_atoms::Names;
use std::alloc::Global;

/// The fault of a text as its number and byte; (0, N) where it is a goal with N names of variables.
fn outcome_of(alloc: Global, text: &[u8]) -> (u8, usize) {
    let mut names = Names::new(alloc);
    match read_goal(alloc, text, &mut names) {
        Ok(goal) => (0, goal.names.as_slice().len()),
        Err(GoalFault::Fault { number, byte }) => (number, byte),
        Err(GoalFault::NoMemory) => (255, 0),
    }
}

#[test]
fn texts_are_goals_or_have_faults(rt: HostRuntime) {
    let rows: [(&[u8], (u8, usize)); 16] = [
        (b"p.", (0, 0)),
        (b"p(X,Y). % c", (0, 2)),
        (b"p(X, _, X), \\+ q(Y) /* c */ .\n", (0, 2)),
        (b"X.", (0, 1)),
        (b"", (6, 0)),
        (b" % c\n", (6, 5)),
        (b"p", (6, 0)),
        (b" p", (6, 1)),
        (b"p. q.", (5, 3)),
        (b"p. /* c */ q", (5, 11)),
        (b"p q.", (5, 0)),
        (b" p q. r.", (5, 1)),
        (b"p. '", (2, 3)),
        (b"p. \xff", (1, 3)),
        (b"p :- 1.5.", (4, 5)),
        (b"a ===> b.", (5, 0)),
    ];
    for (text, outcome) in rows {
        assert_eq!(rt; outcome_of(rt.alloc(), text), outcome, "at {text:?}");
    }
}
