//! Laws of the protocol by which threads enter and leave parts. Each function does nothing: it carries its law.

ghost use Rattle.part_protocol.specs.Gate.{GatesAreInOrder, MendingIsAlone};
ghost use Rattle.part_protocol.specs.Laws.{PartsAreKept, PartsAreRight};

/// Whatever steps threads take in entering and leaving a part, in whatever order, its counter is the number of frames
/// that are engaged, and whoever is between lock and unlock holds the lock.
pub fn gates_are_in_order()
    ensures { GatesAreInOrder }
{}

/// Whoever repairs or renews the words of a part is alone with it: that thread has the lock, the counter is 0, no
/// frame of any thread is engaged, and no other thread repairs or renews.
pub fn mending_is_alone()
    ensures { MendingIsAlone }
{}

/// Whatever program threads run, a turn and an admissible flip keep what holds of a part, with any number of threads
/// and any code that keeps its laws; a flip that leaves words which can't be repaired leaves a part that nobody
/// comes to be engaged in. Each turn is a step of the protocol that the laws on gates speak of.
pub fn parts_are_kept()
    ensures { PartsAreKept }
{}

/// What holds of a part says that its members are the source's while somebody is engaged in it, that its words are
/// encoded but for the flips since somebody was inside while nobody is, that what runs between lock and unlock goes
/// on to where it should, that whoever mends the words is alone, and that a repair of a part which can't be repaired
/// halts.
pub fn parts_are_right()
    ensures { PartsAreRight }
{}
