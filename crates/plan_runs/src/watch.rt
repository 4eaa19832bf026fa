//! What watches a run.

ghost use Rattle.std.specs.Prelude.{◌≡◌, ◌+◌, ◌<◌, ◌^◌, [], ◌∷◌, ◌↔◌, IsTrue, IfOk, OnOk, MatchOption, option_map};
ghost use Rattle.fault_lines.specs.Due.{insert_in_order};
ghost use Rattle.fault_lines.specs.Waiting.{NoLineWaits, NoLineWaitsFor};
ghost use Rattle.fault_model.specs.Progress.{judged};
ghost use Rattle.flip_plan.specs.Plans.{IsNumbered};
ghost use Rattle.plan_runs.specs.Begins.{IsBegun};
ghost use Rattle.plan_runs.specs.Flips.{IsLeft};
ghost use Rattle.plan_runs.specs.Watches.{PassesNone, Passes, gathered, with_due_lines};
ghost use Rattle.plan_runs.specs.Watches.{IsChanged, Adds, IsCounted, IsCleared, TakesOut};
ghost use Rattle.step_engine.specs.TurnRuns.{turns_in};
ghost use Rattle.step_frame.specs.Works.{number_of};

use agxx_base::{ClassId, ListOf, Memory, ObjectId};
use fault_model::Verdict;
use fault_watch::{Due, Marks, Waiting};
use flip_plan::{Plan, PlannedFlip};
use std::alloc::Global;
use std::marker::Model;
use step_engine::Counts;
use step_machine::StepKind;
use step_setting::Setting;

/// What watches a run by a plan: which lines of flips haven't fallen, whether the flips that came were admissible, how
/// many turns of each kind were taken, and which threads took the steps of the program as it was written.
///
/// Lines wait by what they wait for. A turn in which no object is made and no method ends looks at none of them.
#[derive(Drop)]
pub struct Watch {
    alloc: Global,
    /// All lines, by their moments, those of one moment in their order.
    flips: Vec<PlannedFlip>,
    /// How many of them were passed.
    passed: usize,
    due: Due,
    waiting: Waiting,
    marks: Marks,
    verdict: Verdict,
    /// How many flips changed a bit.
    changes: u64,
    counts: Counts,
    erased: ListOf<u32>,
}

impl Model for Watch {
    ghost use Rattle.std.specs.Prelude.{drop};
    ghost use Rattle.fault_lines.specs.Keeping.{Queues};
    ghost use Rattle.plan_runs.specs.Watches.{Watched};

    ghost Value = { Watched };

    ghost view = { λ w. record {
      queues = record { left = drop w.passed w.flips.items; due = w.due; waiting = w.waiting };
      marks = w.marks;
      verdict = w.verdict;
      flips = w.changes;
      counts = w.counts;
      erased = w.erased;
    } };
}

/// The lines of a plan by their moments.
fn by_moment(alloc: Global, plan: &Plan) -> Result<Vec<PlannedFlip>, Memory>
    ensures left { IfOk result (λ flips. IsLeft plan.now.flips 0 flips.items) }
    ensures numbered { OnOk result (IsNumbered 1 plan.now.flips) }
{
    let mut flips = Vec::from_slice(alloc, plan.flips())?;
    flips.sort_by_key(|flip| flip.moment)?;
    Ok(flips)
}

impl Watch {
    /// Nothing was passed yet.
    pub fn new(alloc: Global, plan: &Plan) -> Result<Watch, Memory>
        ensures { IfOk result (IsBegun plan.now) }
    {
        Ok(Watch {
            alloc,
            flips: by_moment(alloc, plan)?,
            passed: 0,
            due: Due::new(alloc),
            waiting: Waiting::new(alloc),
            marks: Marks::new(alloc),
            verdict: Verdict::Admissible,
            changes: 0,
            counts: Counts::new(),
            erased: ListOf::new(alloc),
        })
    }

    /// Whether the flips that came were admissible.
    pub fn verdict(&self) -> Verdict
        ensures { result ≡ self.now.verdict }
    {
        self.verdict
    }

    /// The threads of the steps of the program as it was written, in order.
    pub fn erased(&self) -> &[u32]
        ensures { result.now ≡ self.now.erased }
    {
        self.erased.as_slice()
    }

    pub(crate) fn alloc(&self) -> Global {
        self.alloc
    }

    /// How many turns of each kind were taken.
    pub(crate) fn counts(&self) -> Counts
        ensures { result ≡ self.now.counts }
    {
        self.counts
    }

    /// How many flips changed a bit.
    pub(crate) fn changes(&self) -> u64
        ensures { result ≡ self.now.flips }
    {
        self.changes
    }

    /// The parts that were hit since somebody was last inside.
    pub(crate) fn marks(&self) -> &Marks
        ensures { result.now ≡ self.now.marks }
    {
        &self.marks
    }

    /// Passes the next line, if it is one of a moment.
    fn pass(&mut self, turn: u64) -> Option<PlannedFlip>
        ensures { MatchOption result (PassesNone turn self.old self.new) (Passes turn self.old self.new) }
    {
        if self.passed >= self.flips.len() {
            return None;
        }
        let flip = self.flips[self.passed];
        if flip.moment != turn {
            return None;
        }
        self.passed += 1;
        Some(flip)
    }

    /// Lets the lines of a moment be due. Where there is none, this takes no memory and a constant time.
    pub(crate) fn gather(&mut self, turn: u64) -> Result<(), Memory>
        ensures { OnOk result (self.new ≡ gathered turn self.old) }
    {
        while let Some(flip) = self.pass(turn) {
            self.due.add(flip)?;
        }
        Ok(())
    }

    /// The next line that is due, which is due no more.
    pub(crate) fn next_due(&mut self) -> Option<PlannedFlip>
        ensures { MatchOption result ((self.old.queues.due ≡ []) × (self.new ≡ self.old)) (λ flip.
            (self.old.queues.due ≡ flip ∷ self.new.queues.due) ×
            (self.new ≡ with_due_lines self.new.queues.due self.old)) }
    {
        self.due.pop()
    }

    /// A flip fell.
    pub(crate) fn judge(&mut self, is_admissible: bool, number: u32)
        ensures { self.new ≡ record self.old { verdict = judged is_admissible number self.old.verdict } }
    {
        if is_admissible {
            return;
        }
        if let Verdict::Admissible = self.verdict {
            self.verdict = Verdict::First(number);
        }
    }

    /// A flip changed a bit, of this part if it is in one.
    pub(crate) fn change(&mut self, object: ObjectId, part: Option<ClassId>) -> Result<(), Memory>
        ensures { OnOk result (IsChanged object.0 part self.old self.new) }
    {
        let Some(more) = self.changes.checked_add(1) else {
            return Err(Memory);
        };
        if let Some(class) = part {
            self.marks.add(object, class)?;
        }
        self.changes = more;
        Ok(())
    }

    /// Lets a line wait, for its object or for the part of a class.
    pub(crate) fn wait(&mut self, class: Option<ClassId>, flip: PlannedFlip) -> Result<(), Memory>
        ensures { OnOk result (Adds class flip self.old self.new) }
    {
        self.waiting.add(class, flip)?;
        Ok(())
    }

    /// A turn was taken.
    pub(crate) fn count(&mut self, thread: u32, kind: StepKind) -> Result<(), Memory>
        requires { turns_in self.old.counts + 1 < 2 ^ 64 }
        ensures { OnOk result (IsCounted thread kind self.old self.new) }
    {
        self.counts.add(kind);
        match kind {
            StepKind::Source => self.erased.push(thread),
            _ => Ok(()),
        }
    }

    /// No part of these is hit any more.
    pub(crate) fn clear(
        &mut self,
        setting: &Setting,
        object: Option<ObjectId>,
        own: Option<ClassId>,
    )
        ensures { IsCleared setting.now (option_map number_of object) own self.old self.new }
    {
        self.marks.clear(setting, object, own);
    }

    /// Takes the first line that waits for an object, or for the part of a class of it.
    pub(crate) fn take_first(
        &mut self,
        object: ObjectId,
        class: Option<ClassId>,
    ) -> Option<PlannedFlip>
        ensures { MatchOption result
            ((self.new ≡ self.old) × NoLineWaitsFor object.0 class self.old.queues.waiting)
            (λ flip. TakesOut object.0 class flip self.old self.new) }
    {
        self.waiting.take_first(object, class)
    }

    /// Lets a line be due.
    pub(crate) fn let_be_due(&mut self, flip: PlannedFlip) -> Result<(), Memory>
        ensures { OnOk result (self.new ≡ with_due_lines (insert_in_order flip self.old.queues.due) self.old) }
    {
        self.due.add(flip)?;
        Ok(())
    }

    /// Whether no line waits.
    pub(crate) fn waits_for_none(&self) -> bool
        ensures { IsTrue result ↔ NoLineWaits self.now.queues.waiting }
    {
        self.waiting.is_empty()
    }
}
