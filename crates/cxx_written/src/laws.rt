//! Laws on definitions alone. Each function does nothing: it carries its law.

ghost use Rattle.cxx_written.specs.Written.{ParsedIsWritten};

/// A program that is read of a text's tokens is written.
pub fn parsed_is_written()
    ensures { ParsedIsWritten }
{}
