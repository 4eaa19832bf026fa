//! A stack.

ghost use Rattle.std.specs.Prelude.{◌≡◌, [], ◌∷◌, length, reverse, ◌↔◌, IsTrue, OnOk, OnErr, MatchOption};
ghost use Rattle.step_machine.specs.Data.{first, rest};
ghost use Rattle.step_frame.specs.Under.{under};

use agxx_base::{Memory, NumKind};
use cxx_arith::Value;
use std::alloc::Global;
use std::marker::Model;
use step_machine::Datum;

/// A stack, which contracts see as a list whose head is the top.
#[derive(Drop)]
pub struct Stack<T> {
    pub(crate) items: Vec<T>,
}

impl<T> Model for Stack<T> {
    ghost use Rattle.std.specs.Prelude.{List, reverse};
    ghost use Rattle.std.specs.Coded.{coded_list};

    ghost Value = { List T };

    ghost coded = { coded_list T.code };

    ghost view = { λ stack. reverse stack.items.items };
}

impl<T> Stack<T> {
    /// Nothing, which takes no memory.
    pub fn new(alloc: Global) -> Stack<T>
        ensures { result ≡ [] }
    {
        Stack {
            items: Vec::new(alloc),
        }
    }

    /// Whether there is nothing.
    pub fn is_empty(&self) -> bool
        ensures { IsTrue result ↔ (self.now ≡ []) }
    {
        self.items.is_empty()
    }

    /// How many items there are.
    pub fn len(&self) -> usize
        ensures { result ≡ length self.now }
    {
        self.items.len()
    }

    /// From the lowest to the top.
    pub fn as_slice(&self) -> &[T]
        ensures { reverse result.now ≡ self.now }
    {
        self.items.as_slice()
    }

    /// Takes the top, if there is one.
    pub fn pop(&mut self) -> Option<T>
        ensures { MatchOption result ((self.old ≡ []) × (self.new ≡ [])) (λ top. self.old ≡ top ∷ self.new) }
    {
        self.items.pop()
    }
}

impl<T: Drop> Stack<T> {
    /// Puts an item on top.
    pub fn push(&mut self, item: T) -> Result<(), Memory>
        ensures ok { OnOk result (self.new ≡ item ∷ self.old) }
        ensures err { OnErr result (self.new ≡ self.old) }
    {
        self.items.push(item)?;
        Ok(())
    }
}

fn nothing() -> Datum
    ensures { result ≡ first [] }
{
    Datum::Number(Value {
        kind: NumKind::I32,
        bits: 0,
    })
}

impl Stack<Datum> {
    /// The top, or 0.
    pub fn top(&self) -> Datum
        ensures { result ≡ first self.now }
    {
        match self.items.last() {
            Some(datum) => *datum,
            None => nothing(),
        }
    }

    /// What stands so many places below the top, or 0.
    #[tactic(auto, using(crate::proofs::Stacks::under_is, crate::proofs::Stacks::under_past))]
    pub fn under(&self, places: usize) -> Datum
        ensures { result ≡ first (under places self.now) }
    {
        let count = self.items.len();
        if places < count {
            self.items[count - 1 - places]
        } else {
            nothing()
        }
    }

    /// What stands below the top, or 0.
    pub fn below(&self) -> Datum
        ensures { result ≡ first (rest self.now) }
    {
        self.under(1)
    }

    /// Takes the top, or gives 0.
    pub fn take(&mut self) -> Datum
        ensures value { result ≡ first self.old }
        ensures left { self.new ≡ rest self.old }
    {
        match self.pop() {
            Some(datum) => datum,
            None => nothing(),
        }
    }
}
