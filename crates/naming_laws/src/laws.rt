//! Laws of runs under other names.
ghost use Rattle.naming_laws.specs.SameRun.{NamesAreAdded, RunsByTexts, RunsTranslate, TextsSaySame};

/// The run of a goal is the same under names that stand for others, with the same texts.
pub fn runs_translate<Name, Other>()
    ensures { RunsTranslate Name Other }
{}

/// The run of a goal over the numbers of a table of names is the run over their texts: the same output and answers in the same order,
/// the same steps left, and the same end. All names of the goal and of the program are in the table, and so are those that errors,
/// control constructs and lists are written with.
pub fn runs_by_texts()
    ensures { RunsByTexts }
{}

/// A table in which no name is twice has the names that a run writes, once they are put in.
pub fn names_are_added()
    ensures { NamesAreAdded }
{}

/// A program over the numbers of a table says the same as the program over texts that looks up their numbers.
pub fn texts_say_same()
    ensures { TextsSaySame }
{}
