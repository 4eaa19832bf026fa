//! What lines give to a plan.

ghost use Rattle.std.specs.Prelude.{◌≡◌, ◌<◌, ◌+◌, ◌^◌, ◌∷◌, [], ◌++◌, length, IfOk, OnOk};
ghost use Rattle.flip_plan.specs.Plans as plans;
ghost use Rattle.flip_plan.specs.Reading as spec;

use crate::flip::PlannedFlip;
use crate::line::Word;
use crate::numbers::{Item, number_at, read_item};
use crate::runs::Runs;
use agxx_base::{ListOf, Memory, ObjectId};
use std::alloc::Global;

fn add_item(runs: &mut Runs, item: Option<Item>) -> Result<(), Memory>
    requires { spec.HasRoom runs.old 1 }
    ensures { OnOk result (runs.new ≡ spec.with_item runs.old item) }
{
    match item {
        None => Ok(()),
        Some(item) => runs.push(item.thread, item.count),
    }
}

/// Appends the turns of items.
pub(crate) fn add_items(runs: &mut Runs, words: &[Word]) -> Result<(), Memory>
    requires { spec.HasRoom runs.old (length words.now) }
    ensures { OnOk result (runs.new ≡ spec.with_items runs.old words.now) }
{
    for word in words {
        add_item(runs, read_item(word.text()))?;
    }
    Ok(())
}

fn flip_of(number: u32, waits: bool, words: &[Word]) -> PlannedFlip
    ensures { result ≡ spec.flip_of number waits words.now }
{
    PlannedFlip {
        moment: number_at(words, 0) as u64,
        object: ObjectId(number_at(words, 1)),
        word: number_at(words, 2),
        bit: number_at(words, 3),
        number,
        waits,
    }
}

/// Appends the flip of a line.
#[tactic(auto, using(crate::proofs::Numbered::numbered_push))]
pub(crate) fn add_flip(
    flips: &mut ListOf<PlannedFlip>,
    waits: bool,
    words: &[Word],
) -> Result<(), Memory>
    requires room { length flips.old + 1 < 2 ^ 32 }
    requires numbered { plans.IsNumbered 1 flips.old }
    ensures added { OnOk result (flips.new ≡
        flips.old ++ spec.flip_of (length flips.old + 1) waits words.now ∷ []) }
    ensures numbered { plans.IsNumbered 1 flips.new }
{
    let number = flips.len() as u32 + 1;
    flips.push(flip_of(number, waits, words))
}

fn one_each(alloc: Global, threads: &[u32]) -> Result<Runs, Memory>
    requires { length threads.now < 2 ^ 32 }
    ensures { IfOk result (λ runs. runs ≡ plans.one_each threads.now) }
{
    let mut runs = Runs::new(alloc);
    for thread in threads {
        runs.push(*thread, 1)?;
    }
    Ok(runs)
}

/// The cycle where none is given.
pub(crate) fn default_cycle(alloc: Global) -> Result<Runs, Memory>
    ensures { IfOk result (λ cycle. cycle ≡ plans.default_cycle) }
{
    one_each(alloc, [0, 1, 2, 3, 4, 5, 6, 7].as_slice())
}
