//! What comes of an item: for its thread an effect, and for the other threads a turn.

ghost use Rattle.std.specs.Prelude.{◌≡◌};
ghost use Rattle.step_frame.specs.Outcomes.{local_effect};
ghost use Rattle.step_engine.specs.Effects.{effect_of};

use agxx_base::{ClassId, ObjectId, Place};
use step_frame::{Frame, Outcome};
use step_machine::{Datum, Stop};
use step_world::Change;

/// What an item does, for its thread.
#[derive(Drop)]
pub(crate) enum Effect<'p> {
    Stay,
    Change(Change<'p>),
    Enter(Frame<'p>),
    /// A new object's constructor, with its class and how many words it has.
    CreateEntering(ClassId, u32, Frame<'p>),
    /// The frame is left, with its value if it has one.
    Back(Option<Datum>),
    /// The frame is left and its object destroyed.
    BackKilling(ObjectId),
    Start(Frame<'p>),
    End(i32),
    Halt(Option<ObjectId>, Option<ClassId>),
    Stop(Stop, Place),
    Wait,
}

/// What the turn of a thread is to the others.
#[derive(Drop)]
pub(crate) enum Turn<'p> {
    /// Nothing that the others see.
    Went,
    Changed(Change<'p>),
    Started(Frame<'p>),
    Blocked,
    Idle,
    Ended(i32),
    Halted(Option<ObjectId>, Option<ClassId>),
    Stopped(Stop, Place),
}

/// The effect of an item that touched its frame alone.
pub(crate) fn local<'p>(outcome: Outcome) -> Effect<'p>
    ensures { effect_of result ≡ local_effect outcome }
{
    match outcome {
        Outcome::Stays => Effect::Stay,
        Outcome::Stops(stop, at) => Effect::Stop(stop, at),
    }
}
