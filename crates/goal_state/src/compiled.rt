//! What a run is made with.
use clause_code::{Codes, Targets};
use goal_constructs::Constructs;
use pl_atoms::Names;
use pl_store::Tables;

/// A linked program, taken apart into its names and the rest, the code of its clauses, the numbers of the control
/// constructs, and what the clauses' goals lead to.
#[derive(Drop)]
pub struct CompiledProgram {
    pub names: Names,
    pub tables: Tables,
    pub codes: Codes,
    pub constructs: Constructs,
    pub targets: Targets,
}
