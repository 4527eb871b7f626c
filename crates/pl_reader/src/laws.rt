ghost use Rattle.text_model.specs.Grammar.{OneTree, Decided};
ghost use Rattle.text_model.specs.Reading.{OneTreeOfTokens};
ghost use Rattle.text_model.specs.Roots.{RootIsTold};

/// A list of items has at most one tree.
pub fn one_tree()
    ensures { OneTree }
{}

/// Tokens have at most one tree.
pub fn one_tree_of_tokens()
    ensures { OneTreeOfTokens }
{}

/// The root of a term is the leftmost operator of the greatest priority where that is fy or xfy, and else the rightmost.
pub fn root_is_told()
    ensures { RootIsTold }
{}

/// A list of items reads as a tree or as none.
pub fn reading_is_decided()
    ensures { Decided }
{}
