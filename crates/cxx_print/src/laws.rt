//! Laws of the canonical text.

ghost use Rattle.cxx_print.specs.Examples.{EmptyClass, EmptyFor, TwoSigns};

/// Examples have the texts that are written out by hand.
pub fn examples_print()
    ensures signs { TwoSigns }
    ensures head { EmptyFor }
    ensures class { EmptyClass }
{}
