//! Laws of the machine.

ghost use Rattle.machine_laws.specs.Layouts.{LayoutsAgree};
ghost use Rattle.machine_laws.specs.Locates.{WordsAreLocated};
ghost use Rattle.machine_laws.specs.Widths.{WidthsAreKept};

/// Says that the number of a word, and that of a mutex, tells the class that declares it and which one of that class
/// it is.
pub fn words_are_located()
    ensures { WordsAreLocated }
{}

/// Says that the words and parts of objects as the declarations lay them out are those that the machine counts.
pub fn layouts_agree()
    ensures { LayoutsAgree }
{}

/// Says that each word of a live object is below 2 to its width, in each run, after any turns and flips.
pub fn widths_are_kept()
    ensures { WidthsAreKept }
{}
