//! Laws on definitions alone. Each function does nothing: it carries its law.

ghost use Rattle.names_laws.specs.Derivation.{DerivationIsOrder};
ghost use Rattle.names_laws.specs.DistinctNames.{DistinctNamesAreEachOnce};
ghost use Rattle.names_laws.specs.SpelledNames.{NamesAreSpelled};

/// Says that classes derive from themselves and from what their bases derive from, alone, and that this is an order.
pub fn derivation_is_an_order()
    ensures { DerivationIsOrder }
{}

/// Says that the distinct names are those that there are, each once, with its first place.
pub fn distinct_names_are_each_once()
    ensures { DistinctNamesAreEachOnce }
{}

/// Says that the names that are counted in a program are those of its spelling.
pub fn names_are_spelled()
    ensures { NamesAreSpelled }
{}
