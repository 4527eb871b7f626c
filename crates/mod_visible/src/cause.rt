//! Why procedures are visible and given.
use pl_atoms::NameId;
use unit_model::Ind;

/// Whether a procedure is visible in a module, or given by it.
#[derive(Clone, Copy, Debug, PartialEq, Eq)]
pub enum Sort {
    Seeing,
    Giving,
}

/// A place where a procedure of a definer becomes visible in a module, or is given by it.
#[derive(Clone, Copy, Debug, PartialEq, Eq)]
pub struct Cause {
    pub sort: Sort,
    pub module: NameId,
    pub ind: Ind,
    pub unit: usize,
    pub byte: usize,
    pub definer: NameId,
}
