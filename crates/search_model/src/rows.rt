//! What is visible where.
use pl_atoms::{Items, NameId};
use unit_model::Ind;

/// A procedure that is visible in a module, and the module that defines it.
#[derive(Clone, Copy, Debug, PartialEq, Eq)]
pub struct VisibleRow {
    pub module: NameId,
    pub ind: Ind,
    pub definer: NameId,
}

/// Visible rows, in order.
pub type VisibleRows = Items<VisibleRow>;
