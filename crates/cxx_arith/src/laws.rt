//! Laws of the definitions, for the layers above.

ghost use Rattle.cxx_arith.specs.Laws.{NumbersAreKept, ResultsAreInRange, StopsTogether, ValuesAreKept};

/// What an operator or a conversion gives has no bit above those of its kind.
pub fn results_are_in_range()
    ensures { ResultsAreInRange }
{}

/// A number that a kind has is that of its value in this kind.
pub fn numbers_are_kept()
    ensures { NumbersAreKept }
{}

/// A value with no bit above those of its kind is that of its number.
pub fn values_are_kept()
    ensures { ValuesAreKept }
{}

/// On numbers of one kind `%` stops where `/` does, and nowhere else.
pub fn remainder_stops_with_quotient()
    ensures { StopsTogether }
{}
