//! The frames of a thread.

ghost use Rattle.std.specs.Prelude.{◌≡◌, ◌+◌, ◌<◌, [], ◌∷◌, reverse, Some, IfOk, OnOk, MatchOption};
ghost use Rattle.step_machine.specs.Frame.{is_object, is_on, are_on, any_on, depth_of};
ghost use Rattle.step_machine.specs.Turn.{handed, has_ended};
ghost use Rattle.step_frame.specs.Threads.{IsTaken};

use crate::frame::Frame;
use crate::stack::Stack;
use crate::work::Work;
use agxx_base::{Memory, ObjectId};
use std::alloc::Global;
use std::marker::Model;
use step_machine::Datum;

/// The frames of a thread, which contracts see as a list with the frame that runs at the head. A
/// thread without frames has ended.
#[derive(Drop)]
pub struct Thread<'p> {
    frames: Stack<Frame<'p>>,
    /// How many of the frames count toward the depth.
    depth: usize,
}

impl<'p> Model for Thread<'p> {
    ghost use Rattle.std.specs.Prelude.{List, ◌≡◌};
    ghost use Rattle.step_machine.specs.Frame.{Frame, depth_of};
    ghost use Rattle.cxx_core.specs.Codes.{core_codes};
    ghost use Rattle.std.specs.Coded.{codes};

    ghost Value = { List Frame };

    ghost coded = { Prim.hlevel (codes, core_codes) };

    ghost view = { λ thread. thread.frames };

    ghost invariant = { λ thread. thread.depth ≡ depth_of thread.frames };
}

impl<'p> Thread<'p> {
    /// No frames, which takes no memory.
    pub fn new(alloc: Global) -> Thread<'p>
        ensures { result ≡ [] }
    {
        Thread {
            frames: Stack::new(alloc),
            depth: 0,
        }
    }

    /// Puts a frame on top, which runs from now on.
    pub fn push(&mut self, frame: Frame<'p>) -> Result<(), Memory>
        ensures { OnOk result (self.new ≡ frame.entry ∷ self.old) }
    {
        let is_generated = frame.is_generated;
        self.frames.push(frame)?;
        if is_generated {
            return Ok(());
        }
        self.depth = deeper(self.depth, self.frames.len());
        Ok(())
    }

    /// Gives a value to the frame that runs, if there is one.
    pub fn give(&mut self, datum: Datum) -> Result<(), Memory>
        ensures { OnOk result (self.new ≡ handed (Some datum) self.old) }
    {
        self.frames.give(datum)
    }

    /// Takes the first item of the frame that runs, if it has one.
    pub fn take_work(&mut self) -> Result<Option<Work<'p>>, Memory>
        ensures { IfOk result (λ taken. IsTaken self.old self.new taken) }
    {
        self.frames.take_work()
    }

    /// Takes the frame that runs, if there is one.
    pub fn pop(&mut self) -> Option<Frame<'p>>
        ensures { MatchOption result ((self.old ≡ []) × (self.new ≡ [])) (λ top. self.old ≡ top ∷ self.new) }
    {
        match self.frames.pop() {
            None => None,
            Some(frame) => {
                if !frame.is_generated {
                    self.depth -= 1;
                }
                Some(frame)
            }
        }
    }

    /// The frames, the one that runs last.
    pub fn frames(&self) -> &[Frame<'p>]
        ensures { reverse result.now ≡ self.now }
    {
        self.frames.as_slice()
    }

    /// How many frames count toward the depth.
    pub fn depth(&self) -> usize
        ensures { result ≡ depth_of self.now }
    {
        self.depth
    }

    /// Whether it has no frames any more.
    pub fn has_ended(&self) -> bool
        ensures { result ≡ has_ended self.now }
    {
        self.frames.is_empty()
    }

    fn is_on(&self, object: ObjectId) -> bool
        ensures { result ≡ are_on object.0 self.now }
    {
        let frames = self.frames.as_slice();
        let mut index = frames.len();
        while index > 0 {
            index -= 1;
            let frame = &frames[index];
            if frame.is_on(object) {
                return true;
            }
        }
        false
    }
}

/// One frame more, where there are more frames than counted ones.
fn deeper(depth: usize, frames: usize) -> usize
    requires { depth < frames }
    ensures { result ≡ depth + 1 }
{
    depth + 1
}

impl<'p> Frame<'p> {
    /// Whether it has the object as its `this`, generated frames aside.
    pub fn is_on(&self, object: ObjectId) -> bool
        ensures { result ≡ is_on object.0 self.now }
    {
        match self.this {
            None => false,
            Some(this) => this.0 == object.0 && !self.is_generated,
        }
    }
}

/// Whether a frame of some thread has the object as its `this`, generated frames aside.
pub fn any_on(threads: &[Thread], object: ObjectId) -> bool
    ensures { result ≡ any_on object.0 threads.now }
{
    for thread in threads {
        if thread.is_on(object) {
            return true;
        }
    }
    false
}
