//! Laws of linking, as contracts of functions that do nothing.
ghost use Rattle.mod_linker.specs.Linking.{SaysSameFurther};

/// A program says the same under a table that has more names.
pub fn says_same_further()
    ensures { SaysSameFurther }
{}
