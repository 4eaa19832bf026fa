//! Names of the words that copies add, and of the locals of their repair.

ghost use Rattle.std.specs.Prelude.{◌≡◌, ◌++◌, map, codes, IfOk, OnOk};
ghost use Rattle.std.specs.Fmt.{decimal};
ghost use Rattle.cxx_make.specs.Generated as generated;
ghost use Rattle.codec.specs.Part.{texts_of};
ghost use Rattle.codec.specs.Copies as spec;

use agxx_base::{ListOf, Memory, NameId, Names, Text};
use cxx_make::text_after;
use cxx_tree::Member;
use std::alloc::Global;

/// The text of a name, or none where no name has this number.
fn text_of(names: &Names, name: NameId) -> &[u8]
    ensures { result.now ≡ generated.text_of names.now name }
{
    if (name.0 as usize) < names.len() {
        return names.text_of(name);
    }
    b"".as_slice()
}

/// Adds this beginning and each member's name.
pub(crate) fn push_texts(
    alloc: Global,
    beginning: &[u8],
    names: &Names,
    members: &[Member],
    texts: &mut ListOf<Text>,
) -> Result<(), Memory>
    ensures { OnOk result (texts.new
        ≡ texts.old ++ map (λ m. beginning.now ++ m) (texts_of names.now members.now)) }
{
    for member in members {
        texts.push(text_after(alloc, beginning, text_of(names, member.name.item))?)?;
    }
    Ok(())
}

/// The text of the name of the local for the vote of this number.
fn vote_text(alloc: Global, number: usize) -> Result<Text, Memory>
    ensures { IfOk result (λ text. text ≡ codes "__gop_m_" ++ decimal number) }
{
    let digits = format!(in alloc; "{number}")?;
    text_after(alloc, b"__gop_m_", digits.as_bytes())
}

/// The local for the vote of this number.
pub(crate) fn vote(alloc: Global, names: &Names, number: usize) -> Result<NameId, Memory>
    ensures { IfOk result (λ name. name ≡ spec.vote names.now number) }
{
    let text = vote_text(alloc, number)?;
    Ok(names.number(text.bytes()))
}

/// Adds the texts of the locals for so many votes.
pub(crate) fn push_votes(
    alloc: Global,
    count: usize,
    texts: &mut ListOf<Text>,
) -> Result<(), Memory>
    ensures { OnOk result (texts.new ≡ texts.old ++ spec.vote_texts 1 count) }
{
    for index in 0..count {
        texts.push(vote_text(alloc, index + 1)?)?;
    }
    Ok(())
}
