//! The run of a function.

ghost use Rattle.std.specs.Prelude.{◌≡◌, Some, IfOk, OnOk};
ghost use Rattle.step_machine.specs.Frame.{pushed, depth_of};
ghost use Rattle.step_machine.specs.Turn.{handed};
ghost use Rattle.step_frame.specs.Threads.{Took, IsTaken};

use crate::agenda::Agenda;
use crate::stack::Stack;
use crate::work::Work;
use agxx_base::{FnId, Memory, ObjectId};
use std::marker::Model;
use step_machine::Datum;
use step_world::Entries;

/// The run of a function.
#[derive(Drop)]
pub struct Frame<'p> {
    /// The frame in which a run starts has none.
    pub function: Option<FnId>,
    /// Whether protection made its function.
    pub is_generated: bool,
    pub this: Option<ObjectId>,
    /// The locals and parameters so far, by their names.
    pub locals: Entries<Datum>,
    /// The threads that it started and has not joined, by their names.
    pub threads: Entries<u32>,
    pub values: Stack<Datum>,
    /// The result.
    pub kept: Option<Datum>,
    pub agenda: Agenda<'p>,
}

impl<'p> Model for Frame<'p> {
    ghost use Rattle.std.specs.Prelude.{option_map};
    ghost use Rattle.step_machine.specs.Frame.{Frame};
    ghost use Rattle.cxx_core.specs.Codes.{core_codes};
    ghost use Rattle.std.specs.Coded.{codes};

    ghost Value = { Frame };

    ghost coded = { Prim.hlevel (codes, core_codes) };

    ghost use Rattle.step_frame.specs.Works.{number_of, function_of};

    ghost view = { λ frame. record {
      function = option_map function_of frame.function;
      is_generated = frame.is_generated;
      this = option_map number_of frame.this;
      locals = frame.locals;
      threads = frame.threads;
      values = frame.values;
      kept = frame.kept;
      items = frame.agenda;
    } };
}

impl<'p> Frame<'p> {
    /// Gives it a value.
    fn give(&mut self, datum: Datum) -> Result<(), Memory>
        ensures given { OnOk result (self.new ≡ pushed datum self.old) }
        ensures counts { self.new.is_generated ≡ self.old.is_generated }
    {
        self.values.push(datum)?;
        Ok(())
    }

    /// Takes its first item, if it has one.
    fn take_work(&mut self) -> Result<Option<Work<'p>>, Memory>
        ensures taken { IfOk result (λ taken. Took self.old self.new taken) }
        ensures counts { self.new.is_generated ≡ self.old.is_generated }
    {
        self.agenda.pop()
    }
}

impl<'p> Stack<Frame<'p>> {
    /// Gives a value to the frame on top, if there is one.
    pub(crate) fn give(&mut self, datum: Datum) -> Result<(), Memory>
        ensures given { OnOk result (self.new ≡ handed (Some datum) self.old) }
        ensures counts { depth_of self.new ≡ depth_of self.old }
    {
        let count = self.items.len();
        if count == 0 {
            return Ok(());
        }
        self.items[count - 1].give(datum)
    }

    /// Takes the first item of the frame on top, if it has one.
    pub(crate) fn take_work(&mut self) -> Result<Option<Work<'p>>, Memory>
        ensures taken { IfOk result (λ taken. IsTaken self.old self.new taken) }
        ensures counts { depth_of self.new ≡ depth_of self.old }
    {
        let count = self.items.len();
        if count == 0 {
            return Ok(None);
        }
        self.items[count - 1].take_work()
    }
}
