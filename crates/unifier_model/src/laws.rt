//! Laws of most general unifiers (ISO/IEC 13211-1, 7.3.1 and 7.3.2).
ghost use Rattle.unifier_model.specs.UnifierLaws.{SolvedByMgu, SolvedOnce, MguUnifies, MguIdempotent, MguGeneral, MguNone, MguMost, MguUnique};

/// The steps of unification end in `mgu`.
pub fn solved_by_mgu()
    ensures { SolvedByMgu }
{}

/// The steps of unification end in nothing else.
pub fn solved_once()
    ensures { SolvedOnce }
{}

/// Where `mgu` gives replacements, they make both sides of each equation one tree.
pub fn mgu_unifies()
    ensures { MguUnifies }
{}

/// Making the replacements of `mgu` again changes nothing.
pub fn mgu_idempotent()
    ensures { MguIdempotent }
{}

/// Each unifier factors through `mgu`.
pub fn mgu_general()
    ensures { MguGeneral }
{}

/// Where `mgu` gives none, no unifier exists.
pub fn mgu_none()
    ensures { MguNone }
{}

/// The replacements of `mgu` are a most general unifier that makes no variable a higher one.
pub fn mgu_most()
    ensures { MguMost }
{}

/// There is one most general unifier that makes no variable a higher one.
pub fn mgu_unique()
    ensures { MguUnique }
{}
