//! Runs by plans without looks through all lines: where some lines alone are gone through, which parts have been hit as
//! a set, which waiting lines a turn may wake, and where lines are kept. Callers cite `Keeping` and `Marks`. The specs are
//! read in this order: `Lists`, `Lines`, `Marks`, `Wakes`, `Due`, `Moments`, `Waiting`, `Keeping`.
#![tactic(auto)]

ghost use Rattle.fault_lines.specs.Lines.{SomeLinesAreEnough};
ghost use Rattle.fault_lines.specs.Marks.{SetsTellHits};
ghost use Rattle.fault_lines.specs.Wakes.{LinesAreWoken};
ghost use Rattle.fault_lines.specs.Keeping.{MomentsSettle, TurnsMakeReady};

/// Where the lines that are left out don't fall, to go through the others leaves what it leaves to go through all.
pub fn some_lines_are_enough()
    ensures { SomeLinesAreEnough }
{}

/// Whether a flip is admissible, and what flips and turns leave, by the set of hit parts: of a turn it loses at most
/// the parts that the frame that runs behind it is inside of.
pub fn sets_tell_hits()
    ensures { SetsTellHits }
{}

/// A turn makes admissible only what is on an object that it makes, or on a part that the frame that ran was inside
/// of, where that frame is gone.
pub fn lines_are_woken()
    ensures { LinesAreWoken }
{}

/// Where the lines are kept where they have to be before a turn, to go through those that are due and of the moment, and
/// to let those wait that stay, leaves what the fault model says; and what is left waits and isn't admissible.
pub fn moments_settle()
    ensures { MomentsSettle }
{}

/// Where after a turn those lines are taken that wait for an object that it made, or first for a part that the frame
/// that ran was inside of and left, all others don't fall before the next turn.
pub fn turns_make_ready()
    ensures { TurnsMakeReady }
{}
