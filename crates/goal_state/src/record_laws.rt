//! Laws of records, as contracts of functions that do nothing.
ghost use Rattle.goal_state.specs.Well.{RecordsAreOpen};

/// As many nodes of a search have something untried as its path has records, no more and no fewer.
pub fn records_are_open()
    ensures { RecordsAreOpen }
{}
