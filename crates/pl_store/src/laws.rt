//! Laws of linked programs, as contracts of functions that do nothing.
ghost use Rattle.pl_store.specs.Facts.{FactsStay};
ghost use Rattle.pl_store.specs.Walks.{WalksClauses, ProceduresFound, VisibleThere};

/// A program stays in order where names are only added to its table.
pub fn facts_stay()
    ensures { FactsStay }
{}

/// From a place on, `first` and `next` skip exactly the clauses of a procedure that a goal of the key doesn't fit, and stop at the
/// first one that it fits, where there is one.
pub fn walks_clauses()
    ensures { WalksClauses }
{}

/// The module, name and number of arguments of a procedure give a search its clauses and its modes.
pub fn procedures_found()
    ensures { ProceduresFound }
{}

/// What is visible under a name and a number of arguments is a procedure with these.
pub fn visible_there()
    ensures { VisibleThere }
{}
