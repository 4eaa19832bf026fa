//! Laws of the fault model.

ghost use Rattle.fault_model.specs.Example.{TwoThreadsRun};
ghost use Rattle.fault_model.specs.SourceExample.{SourceFollows};
ghost use Rattle.fault_model.specs.LaidOut.{PartsAreLaidOut};
ghost use Rattle.fault_model.specs.Laws.{VerdictLooksBack, StateTellsFlips, InsideIsEmptied};
ghost use Rattle.fault_model.specs.Laws.{AdmissibleHits, ErasesSource, CheckWordsAreLeast};
ghost use Rattle.fault_model.specs.Stays.{StaysChangeAtTheTop};

/// After each number of turns the verdict is that of all flips that came: admissible exactly where each was as it came,
/// and else the first in time that wasn't is told. A plan without flips has an admissible verdict.
pub fn verdict_looks_back()
    ensures { VerdictLooksBack }
{}

/// Which flips fall at a moment, which of them are admissible, and what they leave depends on the machine's state, on
/// the lines that haven't fallen and on the hits of parts alone.
pub fn state_tells_flips()
    ensures { StateTellsFlips }
{}

/// While somebody is inside a part of an object, it has no hits. To be inside means the same on the state as lists.
pub fn inside_is_emptied()
    ensures { InsideIsEmptied }
{}

/// Where somebody is inside a part after a turn and nobody was before, the frame on top of the thread that took it is.
/// Where nobody is any more, the frame that was on top was, and it is gone. An object keeps its class until it is
/// destroyed, and the setting stays.
pub fn stays_change_at_the_top()
    ensures { StaysChangeAtTheTop }
{}

/// Where the flips so far were admissible, those of a part since somebody was last inside go together: of a single
/// part there is at most one, of another at most one at each bit place.
pub fn admissible_hits_go_together()
    ensures { AdmissibleHits }
{}

/// In programs whose bases and names are as in accepted ones, a word of a part is the word of its object that has its
/// number, and an admissible flip on a word that is there inverts its bit.
pub fn parts_are_laid_out()
    ensures { PartsAreLaidOut }
{}

/// As many threads are kept as source steps were counted.
pub fn erased_are_counted()
    ensures { ErasesSource }
{}

/// The number of check words for some members is the least that is large enough.
pub fn check_words_are_least()
    ensures { CheckWordsAreLeast }
{}

/// Of a program with a protected class and two threads: who is inside and engaged at ten moments, how many inserted
/// steps each thread has taken in a row, which flips are admissible, and what plans come to; where its object is exact,
/// what its source prints by the source steps alone, and what its source costs.
pub fn example_runs()
    ensures woven { TwoThreadsRun }
    ensures source { SourceFollows }
{}
