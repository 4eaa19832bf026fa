//! Laws of the machine.

ghost use Rattle.step_machine.specs.Bridge.{ListsAndFunctionsAgree};
ghost use Rattle.step_machine.specs.Examples.{ExamplesRun};
ghost use Rattle.step_machine.specs.WovenExample.{WovenExampleRuns};
ghost use Rattle.step_machine.specs.MoreExamples.{MoreExamplesRun};
ghost use Rattle.step_machine.specs.Laws.{TurnsThatChangeNothing};

/// The examples take the numbers of steps that are written beside them, print what they print and come to what they
/// come to.
pub fn examples_run()
    ensures small { ExamplesRun }
    ensures woven { WovenExampleRuns }
    ensures more { MoreExamplesRun }
{}

/// A turn does the same on the state as lists and on the state as functions.
pub fn lists_and_functions_agree()
    ensures { ListsAndFunctionsAgree }
{}

/// A turn of a thread that has ended or was never made, one that is blocked, and every turn once the run is over,
/// change nothing. A turn that stops the run changes nothing else.
pub fn some_turns_change_nothing()
    ensures { TurnsThatChangeNothing }
{}
