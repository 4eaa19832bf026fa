//! Laws on definitions alone. Each function does nothing: it carries its law.

ghost use Rattle.print_laws.specs.ReadBack.{TextsReadBack};
ghost use Rattle.print_laws.specs.Spelled.{TextsAreSpelled};

/// The words of a program's canonical text, blanks and ends of lines left out, are the tokens that the grammar spells
/// it with, in their order, for every program.
pub fn texts_are_spelled()
    ensures { TextsAreSpelled }
{}

/// The canonical text of a written program within the limits has these tokens, and reads as the program but for places
/// and numbers of nodes; no name of it is new.
pub fn texts_read_back()
    ensures { TextsReadBack }
{}
