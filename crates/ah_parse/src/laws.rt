//! Laws of the definitions: the functions do nothing.

ghost use Rattle.ah_parse.specs.GuardFiles.{HasOneMeaning, IsAlwaysOneOrNone, IsSpelled};

/// A text is a guard file in one way, and its words are those of its aspects.
pub fn guard_files_are_read_in_one_way()
    ensures meaning { HasOneMeaning }
    ensures words { IsSpelled }
{}

/// Each text is a guard file or none.
pub fn guard_files_are_decided()
    ensures { IsAlwaysOneOrNone }
{}
