ghost use Rattle.unit_model.specs.Prepared.{PreparingIsDecided};
ghost use Rattle.reading_laws.specs.Places.{ReadingIsSound, RunsEndAtPlaces, RunsProceed, StartIsPlace};

/// A run may begin at the first byte of a text.
pub fn start_is_a_place()
    ensures { StartIsPlace }
{}

/// A run takes bytes of its text, and its first token begins among them.
pub fn runs_proceed()
    ensures { RunsProceed }
{}

/// Where a run ends, another may begin.
pub fn runs_end_at_places()
    ensures { RunsEndAtPlaces }
{}

/// What a run of a text reads as is a term as units have them: its names are UTF-8 and short enough, its integers have
/// 64 bits, its compound terms 1 to 255 arguments, and its variables the numbers 0, 1, 2 and so on in the order in
/// which they come.
pub fn reading_is_sound()
    ensures { ReadingIsSound }
{}

/// A text is prepared with one value of facts, or has one first fault, and never both.
pub fn preparing_is_decided()
    ensures { PreparingIsDecided }
{}
