//! What the turn of a thread works on.

ghost use Rattle.std.specs.Prelude.{◌≡◌, length, option_map};
ghost use Rattle.std.specs.Option.{option_copied};
ghost use Rattle.cxx_core.specs.ProgramView.{function_core};
ghost use Rattle.step_machine.specs.ActMembers.{is_other};
ghost use Rattle.step_machine.specs.Frame.{any_on};
ghost use Rattle.step_machine.specs.Setting.{function_at, global_object};
ghost use Rattle.step_machine.specs.Turn.{has_ended, thread_at};
ghost use Rattle.step_machine.specs.World.{class_at};
ghost use Rattle.step_engine.specs.Steps.{depth_in};

use agxx_base::{ClassId, FnId, NameId, ObjectId};
use cxx_core::Function;
use std::alloc::Global;
use std::marker::Model;
use step_frame::{Thread, any_on};
use step_setting::Setting;
use step_world::{Heap, World};

/// What the turn of a thread works on, whose running frame is taken off.
#[derive(Drop)]
pub(crate) struct Turning<'a, 'p, H: Heap> {
    pub(crate) alloc: Global,
    pub(crate) setting: &'a Setting<'p>,
    pub(crate) world: &'a World<H>,
    pub(crate) threads: &'a [Thread<'p>],
    /// The number of the thread.
    pub(crate) thread: u32,
}

impl<'a, 'p, H: Heap> Model for Turning<'a, 'p, H> {
    ghost use Rattle.std.specs.Coded.{codes};
    ghost use Rattle.cxx_core.specs.Codes.{core_codes};
    ghost use Rattle.step_engine.specs.Turning.{Turning};

    ghost Value = { Turning };

    ghost coded = { Prim.hlevel (codes, core_codes) };

    ghost view = { λ t. record {
      setting = t.setting.now;
      world = t.world.now;
      threads = t.threads.now;
      thread = t.thread;
    } };
}

impl<'a, 'p, H: Heap> Turning<'a, 'p, H> {
    /// How many counted frames stand below the running one.
    pub(crate) fn depth(&self) -> usize
        ensures { result ≡ depth_in self.now }
    {
        match self.threads.get(self.thread as usize) {
            None => 0,
            Some(thread) => thread.depth(),
        }
    }

    /// How many threads were made.
    pub(crate) fn started(&self) -> usize
        ensures { result ≡ length self.now.threads }
    {
        self.threads.len()
    }

    /// Whether the thread of a number has ended, or was never made.
    pub(crate) fn has_ended(&self, number: u32) -> bool
        ensures { result ≡ has_ended (thread_at self.now.threads number) }
    {
        match self.threads.get(number as usize) {
            None => true,
            Some(thread) => thread.has_ended(),
        }
    }

    /// Whether a frame other than the running one has the object as its `this`, generated frames aside.
    pub(crate) fn is_busy(&self, object: ObjectId) -> bool
        ensures { result ≡ any_on object.0 self.now.threads }
    {
        any_on(self.threads, object)
    }

    /// The function of a number.
    pub(crate) fn function(&self, number: FnId) -> Option<&'p Function>
        ensures { option_map function_core (option_copied result) ≡
            function_at self.now.setting number.0 }
    {
        self.setting.function(number)
    }

    /// The global object of a name.
    pub(crate) fn global_object(&self, name: NameId) -> ObjectId
        ensures { result.0 ≡ global_object self.now.setting name.0 }
    {
        ObjectId(self.setting.global_object(name))
    }

    /// Whether a live object has no members of a class.
    pub(crate) fn is_other(&self, class: ClassId, object: ObjectId) -> bool
        ensures { result ≡
            is_other self.now.setting class (class_at self.now.world object.0) }
    {
        match self.world.class(object) {
            None => false,
            Some(live) => !self.setting.is_of(live, Some(class)),
        }
    }

    /// The class of a live object.
    pub(crate) fn class(&self, object: ObjectId) -> Option<ClassId>
        ensures { result ≡ class_at self.now.world object.0 }
    {
        self.world.class(object)
    }
}
