//! Records of alternatives.
use pl_atoms::NameId;
use pl_store::ClauseId;
use pl_unify::{Mark, Ref};

/// What is untried in a node of the search (ISO/IEC 13211-1, 7.8).
#[derive(Clone, Copy, Debug)]
pub enum ChoiceKind {
    /// The clauses from this one on, of the goal at this place.
    Clauses {
        clause: ClauseId,
        goal: Ref,
    },
    /// What the record's frame goes on to.
    Branch,
    /// The recovery of a catch, its catcher, and the construct's name for the errors of the recovery.
    Catch {
        name: NameId,
        catcher: Ref,
        recovery: Ref,
    },
    /// What follows a nested search: the list of its answers, and the term that is collected around it.
    Collect {
        list: Ref,
        outer: Option<Ref>,
    },
}

/// A record of a node with an untried alternative: the state to go back to, the place of the frame that what comes after the
/// node's goal goes on from, and the node's depth.
#[derive(Clone, Copy, Debug)]
pub struct Choice {
    pub kind: ChoiceKind,
    pub mark: Mark,
    pub rest: usize,
    pub depth: usize,
}
