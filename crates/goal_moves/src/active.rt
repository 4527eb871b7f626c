//! Goals that are activated.
use goal_state::Setting;
use pl_unify::Ref;

/// What goes on after a goal: a frame, and the place in it.
#[derive(Clone, Copy, Debug)]
pub struct Rest {
    pub f: usize,
    pub pc: usize,
}

/// A goal that is activated: its place in the store, its setting, what follows it, and the depth of its node.
#[derive(Clone, Copy, Debug)]
pub struct Active {
    pub goal: Ref,
    pub setting: Setting,
    pub rest: Rest,
    pub node: usize,
}
