//! Programs that print sums print the sums. What such a program is, what it prints and how many steps it takes is
//! defined in `specs/SumPrograms.antt`.
#![tactic(auto)]

ghost use Rattle.sum_programs.specs.Example.{ExampleIsOne};
ghost use Rattle.sum_programs.specs.Laws.{SumsArePrinted};

/// A program that prints strings and sums of literals has printed just these and ended with 0 once thread 0 had as
/// many turns as the program has steps, and not before, whatever turns other threads have. So it is as written and in
/// normal form.
pub fn sums_are_printed()
    ensures laws { SumsArePrinted }
    ensures example { ExampleIsOne }
{}
