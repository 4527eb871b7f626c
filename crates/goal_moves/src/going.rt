//! How a move ends.
use pl_terms::Term;

/// Where a move leads: on, to failure, to the end of the run by `halt`, or out of everything with a ball that nothing caught.
#[derive(Drop)]
pub enum Going {
    On,
    Fails,
    Halts(i64),
    Uncaught(Box<Term>),
}
