ghost use Rattle.link_model.specs.Laws.{PreparingReadsNeeds};
ghost use Rattle.needs_laws.specs.Wholes.{ApartIsWhole, TogetherIsWhole, OneWhole};

use link_model::{whole_is_one, whole_of_units};
use reading_laws::preparing_is_decided;

/// The facts of a text agree with the interfaces that were known, and the text gives the same facts wherever these agree.
pub fn preparing_reads_needs()
    ensures { PreparingReadsNeeds }
{}

/// Units that were prepared apart and have no link fault are the whole of their texts.
pub fn units_apart_are_the_whole()
    ensures { ApartIsWhole }
{
    preparing_reads_needs();
    whole_of_units();
}

/// Units that were prepared together have no unmet need and no repeated interface, and the whole of their texts is their
/// first link fault, or else they themselves.
pub fn units_together_are_the_whole()
    ensures { TogetherIsWhole }
{
    preparing_reads_needs();
    whole_of_units();
}

/// The whole of texts is one value.
pub fn texts_are_one_whole()
    ensures { OneWhole }
{
    preparing_is_decided();
    whole_is_one();
}
