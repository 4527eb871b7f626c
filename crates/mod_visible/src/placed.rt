//! Entries of units with their places.
use pl_atoms::NameId;
use unit_model::Ind;

/// What an entry is for linking.
#[derive(Clone, Copy, Debug, PartialEq, Eq)]
pub enum Role {
    /// A clause of a procedure.
    Defining(Ind),
    /// A procedure is exported.
    Exporting(Ind),
    /// All that a module gives is re-exported.
    ReexportingAll(NameId),
    /// A procedure that a module gives is re-exported.
    Reexporting(NameId, Ind),
    /// A procedure has modes.
    Moding(Ind),
    /// All that a module gives is imported.
    ImportingAll(NameId),
    /// A procedure that a module gives is imported.
    Importing(NameId, Ind),
    /// Nothing.
    Idle,
}

/// An entry with the number of its unit, that of its section there, its byte and its module.
#[derive(Clone, Copy, Debug)]
pub struct Placed {
    pub unit: usize,
    pub section: usize,
    pub byte: usize,
    pub module: NameId,
    pub role: Role,
}
