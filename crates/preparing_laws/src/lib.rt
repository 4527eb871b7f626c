//! Laws of preparing: each term of a text leaves its facts so far in keeping with the rules of units.
#![tactic(auto)]

ghost use Rattle.std.specs.Prelude.{◌≡◌, ℕ, ◌<◌, ◌^◌, List, None, Ok};
ghost use Rattle.pl_terms.specs.Trees.{Tree};
ghost use Rattle.unit_model.specs.Facts.{Facts};
ghost use Rattle.unit_model.specs.Directives.{Text};
ghost use Rattle.unit_model.specs.Preparing.{Interface, State, start, facts_of, step};
ghost use Rattle.unit_model.specs.Prepared.{Prepared};
ghost use Rattle.unit_model.specs.Validity.{IsValid};
ghost use Rattle.unit_model.specs.Entries.{IsSoundTerm, IsSound};
ghost use Rattle.unit_model.specs.Known.{AreGood, interfaces_of};
ghost use Rattle.preparing_laws.specs.States.{IsSoundState};
ghost use Rattle.preparing_laws.specs.Readings.{ReadsSoundly};

/// The state before a text's first term is sound where the interfaces that are known are good.
pub fn starts_sound()
    ensures { (known : List Interface) → AreGood known → IsSoundState (start known) }
{}

/// A sound term leaves a sound state as another one.
pub fn step_sound()
    ensures { (t : Tree Text) (byte : ℕ) (s after : State) → IsSoundTerm t → byte < 2 ^ 32 → IsSoundState s → step t byte s ≡ Ok after → IsSoundState after }
{}

/// The facts of a sound state with no open section are sound.
pub fn ends_sound()
    ensures { (s : State) → IsSoundState s → s.inside ≡ None → IsSound (facts_of s) }
{}

/// The interfaces of valid facts are good ones to prepare later texts with.
pub fn valid_is_good()
    ensures { (f : Facts Text) → IsValid f → AreGood (interfaces_of f) }
{}

/// The facts of a text are sound where its runs read as sound terms.
pub fn prepared_is_sound()
    ensures { (known : List Interface) (text : List ℕ) (f : Facts Text) → AreGood known → ReadsSoundly text → Prepared known text f → IsSound f }
{}
