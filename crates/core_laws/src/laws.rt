//! Laws of the core form.

ghost use Rattle.core_laws.specs.Laws.{NumberingKeepsCore};
ghost use Rattle.core_laws.specs.FunctionNumbers.{NumbersMeanFunctions};
ghost use Rattle.cxx_core.specs.Examples.{ExamplesElaborate};
ghost use Rattle.core_laws.specs.WiderExample.{WiderExampleElaborates};

/// However the nodes of a program are numbered, what it declares and its core form stay.
pub fn numbering_keeps_core()
    ensures { NumberingKeepsCore }
{}

/// The examples have the core forms that are written out by hand.
pub fn examples_elaborate()
    ensures small { ExamplesElaborate }
    ensures wider { WiderExampleElaborates }
{}

/// What a name of a function means, and what a call calls, stands at its number among the functions of the core form.
pub fn numbers_mean_functions()
    ensures { NumbersMeanFunctions }
{}
