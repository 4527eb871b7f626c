//! What stands after the terms of a text so far.
ghost use Rattle.std.specs.Prelude.{◌≡◌, List, None, IfOk};
ghost use Rattle.unit_model.specs.Preparing.{Interface, start};

use crate::interfaces::Interfaces;
use pl_atoms::{NameId, Names, NoMemory};
use pl_ops::OpTable;
use std::alloc::Global;
use unit_model::{Entries, Needs, Section, SectionKind};

/// A section that is open, and what stands outside of it: the entries of user, and the table of operators.
#[derive(Drop)]
pub struct OpenSection {
    pub kind: SectionKind,
    pub byte: usize,
    pub module: NameId,
    pub user: Entries,
    pub outside: OpTable,
}

/// What stands after the terms so far. The entries and the table are those of the open section, or of user where none is open.
#[derive(Drop)]
pub struct Draft {
    /// The names of the text.
    pub names: Names,
    /// The interfaces of this text that have ended.
    pub own: Interfaces,
    /// The modules of the needs, in the same order.
    pub needed: Names,
    pub needs: Needs,
    /// The sections that have ended, but for user.
    pub sections: Vec<Section>,
    pub entries: Entries,
    pub table: OpTable,
    pub section: Option<OpenSection>,
}
