//! The facts of a text. Names are numbers of a table of names.
use pl_atoms::{Items, NameId};
use pl_ops::Kind;
use pl_terms::Term;

/// A procedure's name and number of arguments.
#[derive(Clone, Copy, Debug, PartialEq, Eq)]
pub struct Ind {
    pub name: NameId,
    pub arity: u8,
}

/// A declared operator.
#[derive(Clone, Copy, Debug)]
pub struct OpDecl {
    pub priority: u16,
    pub kind: Kind,
    pub name: NameId,
}

/// Declared operators, in order.
pub type OpDecls = Items<OpDecl>;

/// A module that a text takes from elsewhere, with the operators of its interface as they were
/// when the text was prepared, and the byte of the first directive that names it.
#[derive(Drop)]
pub struct Need {
    pub byte: usize,
    pub module: NameId,
    pub ops: OpDecls,
}

/// Needs, in the order of their first directives.
pub type Needs = Items<Need>;

/// What a section is (ISO/IEC 13211-2, 6.2).
#[derive(Clone, Copy, Debug, PartialEq, Eq)]
pub enum SectionKind {
    Interface,
    Body,
}

/// The modes of a metapredicate's arguments, true for a metaargument.
pub type ModeList = Items<bool>;

/// What one entry of a section says.
#[derive(Drop)]
pub enum What {
    /// A procedure is exported.
    Export(Ind),
    /// All that a module gives is re-exported.
    ReexportAll(NameId),
    /// A procedure that a module gives is re-exported.
    Reexport(NameId, Ind),
    /// A name with as many arguments as modes is a metapredicate.
    Meta(NameId, ModeList),
    /// An operator is declared.
    Operator(OpDecl),
    /// All that a module gives is imported.
    ImportAll(NameId),
    /// A procedure that a module gives is imported.
    Import(NameId, Ind),
    /// A clause: its number of variables, its head and its converted body.
    Clause(usize, Term, Term),
}

/// An entry and the byte of its term.
#[derive(Drop)]
pub struct Entry {
    pub byte: usize,
    pub what: What,
}

/// Entries, in order.
pub type Entries = Items<Entry>;

/// An interface or a body of a module.
#[derive(Drop)]
pub struct Section {
    pub kind: SectionKind,
    pub byte: usize,
    pub module: NameId,
    pub entries: Entries,
}

/// Sections, in order.
pub type Sections = Items<Section>;

/// The facts of one text.
#[derive(Drop)]
pub struct Facts {
    pub needs: Needs,
    pub sections: Sections,
}
