//! Laws of linking.
ghost use Rattle.link_model.specs.Laws.{GivesIsLeast, FirstIsLeast, ApartIsTogether, PreparingReadsNeeds, WholeOfUnits, WholeIsOne};

/// What modules give is the least relation with its two rules.
pub fn gives_is_least()
    ensures { GivesIsLeast }
{}

/// The first link fault is the least of the link faults.
pub fn first_is_least()
    ensures { FirstIsLeast }
{}

/// Units have no fault on needs and interfaces exactly where each agrees with those before it.
pub fn apart_is_together()
    ensures { ApartIsTogether }
{}

/// Units prepared apart or together link to the whole of their texts, where preparing reads nothing of other units but what a
/// text needs.
pub fn whole_of_units()
    ensures { PreparingReadsNeeds → WholeOfUnits }
{}

/// Texts together are one value.
pub fn whole_is_one()
    ensures { WholeIsOne }
{}
