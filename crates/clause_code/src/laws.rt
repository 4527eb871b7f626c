//! Laws of heads, and of names: a unifier has the names of its equations alone.
ghost use Rattle.clause_code.specs.Heads.{NewTermsStay};
ghost use Rattle.clause_code.specs.Names.{UnifierNamed, SolvedNamed, BoundsJoin, ApplyNamed, RaiseNamed};
ghost use Rattle.clause_code.specs.HeadNames.{TookNamed};

/// Terms whose variables are all new are the same with a store's bindings made.
pub fn new_terms_stay()
    ensures { NewTermsStay }
{}

/// A most general unifier brings in no names, and replacements without new names bring none into a tree.
pub fn names_stay()
    ensures unifier { UnifierNamed }
    ensures solved { SolvedNamed }
    ensures join { BoundsJoin }
    ensures apply { ApplyNamed }
    ensures raise { RaiseNamed }
{}

/// A clause's head that is taken brings no names in but the goal's and its own.
pub fn head_names_stay()
    ensures { TookNamed }
{}
