//! A run of a program.

ghost use Rattle.std.specs.Prelude.{◌≡◌, ◌<◌, [], length, IfOk, OnOk, OnErr};
ghost use Rattle.step_machine.specs.Machine.{next, after, kind_of, state_after};
ghost use Rattle.step_machine.specs.Start.{start};
ghost use Rattle.step_machine.specs.World.{class_at};
ghost use Rattle.step_engine.specs.Effects.{turn_of};

use crate::effect::Turn;
use crate::start::{start_frame, start_world};
use crate::turns::turn;
use agxx_base::{ClassId, Memory, ObjectId};
use std::alloc::Global;
use std::marker::Model;
use step_frame::Thread;
use step_machine::{State, StepKind};
use step_setting::Setting;
use step_world::{Heap, World};

/// A run of a program, which threads take turns in.
#[derive(Drop)]
pub struct Engine<'p, H: Heap> {
    alloc: Global,
    pub(crate) setting: &'p Setting<'p>,
    threads: Vec<Thread<'p>>,
    pub(crate) world: World<H>,
    pub(crate) state: State,
}

impl<'p, H: Heap> Model for Engine<'p, H> {
    ghost use Rattle.step_machine.specs.Machine.{Machine};
    ghost use Rattle.cxx_core.specs.Codes.{core_codes};
    ghost use Rattle.std.specs.Coded.{codes};

    ghost Value = { Machine };

    ghost coded = { Prim.hlevel (codes, core_codes) };

    ghost view = { λ e. record {
      setting = e.setting.now;
      threads = e.threads.items;
      world = e.world;
      state = e.state;
    } };
}

/// What a turn is to the caller.
fn kind(turn: &Turn, is_inserted: bool) -> StepKind
    ensures { result ≡ kind_of (turn_of turn.now) is_inserted }
{
    match turn {
        Turn::Blocked => StepKind::Blocked,
        Turn::Idle => StepKind::Idle,
        _ => {
            if is_inserted {
                StepKind::Inserted
            } else {
                StepKind::Source
            }
        }
    }
}

/// What has become of a run after a turn.
fn state_after(turn: &Turn) -> State
    ensures { result ≡ state_after (turn_of turn.now) }
{
    match turn {
        Turn::Ended(value) => State::Ended(*value),
        Turn::Halted(object, class) => State::Halted(*object, *class),
        Turn::Stopped(stop, at) => State::Stopped(*stop, *at),
        _ => State::Running,
    }
}

impl<'p, H: Heap> Engine<'p, H> {
    /// A run before its first turn, over a heap that has made no object.
    pub fn start(alloc: Global, setting: &'p Setting<'p>, heap: H) -> Result<Engine<'p, H>, Memory>
        requires { H.objects heap ≡ [] }
        ensures { IfOk result (λ engine. engine ≡ start setting.now) }
    {
        let world = start_world(alloc, setting, heap)?;
        let mut first = Thread::new(alloc);
        first.push(start_frame(alloc, setting.program().globals.as_slice())?)?;
        let mut threads = Vec::new(alloc);
        threads.push(first)?;
        Ok(Engine {
            alloc,
            setting,
            threads,
            world,
            state: State::Running,
        })
    }

    /// The state after a turn, whose frames are already put.
    fn apply(&mut self, thread: u32, turn: Turn<'p>) -> Result<(), Memory>
        ensures { OnOk result (self.new ≡ after thread (turn_of turn.entry) self.old) }
    {
        self.state = state_after(&turn);
        match turn {
            Turn::Changed(change) => {
                self.world.change(thread, change)?;
                Ok(())
            }
            Turn::Started(frame) => {
                let mut first = Thread::new(self.alloc);
                first.push(frame)?;
                self.threads.push(first)?;
                Ok(())
            }
            _ => Ok(()),
        }
    }

    /// The turn of a thread that was made, while the run goes on.
    #[tactic(auto, unfolding(crate::specs::Turns::turn_taken))]
    fn take_turn(&mut self, thread: u32) -> Result<StepKind, Memory>
        requires made { thread < length self.old.threads }
        requires running { self.old.state ≡ State.Running }
        ensures { IfOk result (λ kind. (self.new, kind) ≡ next self.old thread) }
    {
        let (turn, is_inserted) = turn(
            self.alloc,
            self.setting,
            &self.world,
            thread,
            &mut self.threads,
        )?;
        let kind = kind(&turn, is_inserted);
        self.apply(thread, turn)?;
        Ok(kind)
    }

    /// One turn of a thread. After `Memory` the run is lost: each later turn is idle.
    pub fn step(&mut self, thread: u32) -> Result<StepKind, Memory>
        ensures ok { IfOk result (λ kind. (self.new, kind) ≡ next self.old thread) }
        ensures err { OnErr result (self.new.state ≡ State.Lost) }
    {
        let State::Running = self.state else {
            return Ok(StepKind::Idle);
        };
        if thread as usize >= self.threads.len() {
            return Ok(StepKind::Idle);
        }
        match self.take_turn(thread) {
            Ok(kind) => Ok(kind),
            Err(Memory) => {
                self.state = State::Lost;
                Err(Memory)
            }
        }
    }

    /// What has become of the run.
    pub fn state(&self) -> State
        ensures { result ≡ self.now.state }
    {
        self.state
    }

    /// All that was printed.
    pub fn output(&self) -> &[u8]
        ensures { result.now ≡ self.now.world.output }
    {
        self.world.output()
    }

    /// What the run goes by.
    pub fn setting(&self) -> &'p Setting<'p>
        ensures { result.now ≡ self.now.setting }
    {
        self.setting
    }

    /// The threads that were made, each at its number.
    pub fn threads(&self) -> &[Thread<'p>]
        ensures { result.now ≡ self.now.threads }
    {
        self.threads.as_slice()
    }

    /// The class of a live object.
    pub fn class(&self, object: ObjectId) -> Option<ClassId>
        ensures { result ≡ class_at self.now.world object.0 }
    {
        self.world.class(object)
    }

    /// The objects.
    pub fn heap(&self) -> &H
        ensures { H.objects result.now ≡ self.now.world.objects }
    {
        self.world.heap()
    }
}
