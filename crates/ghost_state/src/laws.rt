//! Laws of ghost states. Each function does nothing: it carries its law.

ghost use Rattle.ghost_state.specs.Bodies.{BodiesUnfold};
ghost use Rattle.ghost_state.specs.Lemmas.{AnswersAreTurns};
ghost use Rattle.ghost_state.specs.Example.{ProtectedCellRuns, FramesAreRead, WordsAreRead};

/// Weaving a body and unfolding it to items come to the same in either order; a whole body enters its parts, and leaves
/// them where it ends.
pub fn bodies_unfold()
    ensures { BodiesUnfold }
{}

/// The turn that a running state takes is what it answers: one that protection or advice made is inserted.
pub fn answers_are_turns()
    ensures { AnswersAreTurns }
{}

/// What is made of a small core program with a protected class takes the steps that its woven text takes.
pub fn protected_core_runs()
    ensures { ProtectedCellRuns }
{}

/// In that run both machines' frames are what is read from one ghost state, before the first turn and in a repair; and
/// so are the words and the lock of the object at five moments, in a body and a renewal among them.
pub fn ghosts_are_read()
    ensures frames { FramesAreRead }
    ensures words { WordsAreRead }
{}
