//! The texts of generated names.

ghost use Rattle.std.specs.Prelude.{◌≡◌, ◌++◌, ◌∷◌, [], codes, IfOk, OnOk};
ghost use Rattle.std.specs.Fmt.{decimal};
ghost use Rattle.entry_count.specs.PartCode as spec;
ghost use Rattle.entry_count.specs.Wrapping as wrapping;

use agxx_base::{ListOf, Memory, Text};
use cxx_make::{text_after, text_numbered};
use std::alloc::Global;

/// A name that is generated for the part of a class.
#[derive(Clone, Copy)]
pub(crate) enum PartName {
    Counter,
    Lock,
    Repair,
    Renew,
    Enter,
    Leave,
}

impl PartName {
    /// What stands before the class's name.
    #[tactic(auto, unfolding(crate::specs::PartCode::beginning))]
    pub(crate) fn beginning(self) -> &'static [u8]
        ensures { result.now ≡ spec.beginning self }
    {
        match self {
            PartName::Counter => b"__gop_n_",
            PartName::Lock => b"__gop_l_",
            PartName::Repair => b"__gop_repair_",
            PartName::Renew => b"__gop_renew_",
            PartName::Enter => b"__gop_enter_",
            PartName::Leave => b"__gop_leave_",
        }
    }

    fn add(self, alloc: Global, class: &[u8], texts: &mut ListOf<Text>) -> Result<(), Memory>
        ensures { OnOk result (texts.new ≡ texts.old ++ (spec.beginning self ++ class.now) ∷ []) }
    {
        texts.push(text_after(alloc, self.beginning(), class)?)
    }
}

/// Adds the texts of the names of a class's part, but those of its code.
pub fn part_texts(alloc: Global, class: &[u8], texts: &mut ListOf<Text>) -> Result<(), Memory>
    ensures { OnOk result (texts.new ≡ texts.old ++ spec.part_texts class.now) }
{
    PartName::Counter.add(alloc, class, texts)?;
    PartName::Lock.add(alloc, class, texts)?;
    PartName::Repair.add(alloc, class, texts)?;
    PartName::Renew.add(alloc, class, texts)?;
    PartName::Enter.add(alloc, class, texts)?;
    PartName::Leave.add(alloc, class, texts)
}

/// Adds the names of the two functions of a mutex.
#[tactic(auto, unfolding(crate::specs::PartCode::mutex_texts))]
pub fn mutex_texts(alloc: Global, texts: &mut ListOf<Text>) -> Result<(), Memory>
    ensures { OnOk result (texts.new ≡ texts.old ++ spec.mutex_texts) }
{
    texts.push(Text::from_bytes(alloc, b"lock")?)?;
    texts.push(Text::from_bytes(alloc, b"unlock")?)
}

/// The text of the name of the local for the value of the `return` with this number.
fn value_text(alloc: Global, number: u32) -> Result<Text, Memory>
    ensures { IfOk result (λ text. text ≡ codes "__gop_r_" ++ decimal number) }
{
    text_numbered(alloc, b"__gop_r_", number)
}

/// Adds the texts of the names of the locals for so many returned values.
pub fn value_texts(alloc: Global, count: u32, texts: &mut ListOf<Text>) -> Result<(), Memory>
    ensures { OnOk result (texts.new ≡ texts.old ++ wrapping.value_texts 1 count) }
{
    for before in 0..count {
        texts.push(value_text(alloc, before + 1)?)?;
    }
    Ok(())
}
