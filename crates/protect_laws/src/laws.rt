//! Laws on definitions alone. Each function does nothing: it carries its law.

ghost use Rattle.protect_laws.specs.Bodies.{BodiesAreGuarded};
ghost use Rattle.protect_laws.specs.Example.{CellHasItsWords};
ghost use Rattle.protect_laws.specs.Exits.{ExitsComeAfterLeaves};
ghost use Rattle.protect_laws.specs.Guarded.{MembersAreAdded, PartsAreGuarded, WordsAreAdded};
ghost use Rattle.protect_laws.specs.Kept.{ProtectedFitsWoven};
ghost use Rattle.protect_laws.specs.Normal.{ProtectedIsNormal};
ghost use Rattle.protect_laws.specs.Strip.{GeneratedAreKnown, StrippedIsNormal, StrippedIsSource};

/// A body with parts enters all of them at its beginning, and leaves them before each exit and nowhere else.
pub fn exits_come_after_leaves()
    ensures { ExitsComeAfterLeaves }
{}

/// In a protected program each function, constructor and destructor of a class enters and leaves the parts of its
/// objects, and nothing else of it changes.
pub fn bodies_are_guarded()
    ensures { BodiesAreGuarded }
{}

/// In the table of names that protection leaves, all generated names are known and no name of the program is one of
/// them.
pub fn generated_names_are_known()
    ensures { GeneratedAreKnown }
{}

/// What is left of a protected program is its source, once functions, members and calls of generated names are dropped.
pub fn stripped_is_source()
    ensures normal { StrippedIsNormal }
    ensures source { StrippedIsSource }
{}

/// The classes of a protected program that have a part are the guarded ones of its source that have a member, and each
/// has the members of its part behind its own. The words of a part are those of its class and then those that its code
/// adds.
pub fn parts_are_guarded()
    ensures parts { PartsAreGuarded }
    ensures members { MembersAreAdded }
    ensures words { WordsAreAdded }
{}

/// A protected program is within the limits of woven programs, where its source is within those of sources and each of
/// its parts has 120 members at most.
pub fn protected_fits_woven()
    ensures { ProtectedFitsWoven }
{}

/// A protected program is in normal form, where its source is.
pub fn protected_is_normal()
    ensures { ProtectedIsNormal }
{}

/// A class with one member has these words under copies, and these under check words.
pub fn example_has_its_words()
    ensures { CellHasItsWords }
{}
