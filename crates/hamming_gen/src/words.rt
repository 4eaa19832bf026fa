//! The words of a part.

ghost use Rattle.std.specs.Prelude.{◌≡◌, ◌≤◌, ◌^◌, ◌<◌, length, map, IfOk};
ghost use Rattle.std.specs.List.{range_with_len};
ghost use Rattle.hamming_gen.specs.Positions.{check_words};
ghost use Rattle.hamming_gen.specs.HammingNames as spec;

use crate::names::{check_name, named, numbered, parity_name};
use crate::positions::{check_words, next_position};
use agxx_base::{ListOf, Memory, NameId, Names};
use codec::Part;
use cxx_tree::Member;
use std::alloc::Global;

/// A member as one of the words that are checked.
#[derive(Clone, Copy)]
pub struct MemberWord {
    pub member: Member,
    pub position: usize,
    /// The local that has its value in 64 bits.
    pub word: NameId,
    /// The local that tells which of its bits are to be inverted.
    pub fault: NameId,
}

/// A check word.
#[derive(Clone, Copy)]
pub struct CheckWord {
    pub name: NameId,
    /// A power of two. It covers the positions that have this bit.
    pub position: usize,
    /// The local for the sum of this word and the members that it covers.
    pub sum: NameId,
    /// The local that tells which of its bits are to be inverted.
    pub fault: NameId,
}

/// The words of a part, and the other locals of its repair.
#[derive(Drop)]
pub struct PartWords {
    pub members: ListOf<MemberWord>,
    pub checks: ListOf<CheckWord>,
    pub parity: NameId,
    /// The local for the sum of all words.
    pub total: NameId,
    /// The local for the bit places where some sum isn't 0.
    pub uneven: NameId,
    /// The local for the bit places that can't be repaired.
    pub beyond: NameId,
}

fn member_word(
    alloc: Global,
    names: &Names,
    number: usize,
    position: usize,
    member: Member,
) -> Result<MemberWord, Memory>
    ensures { IfOk result (λ word. word ≡ spec.member_word names.now number position member) }
{
    let word = numbered(alloc, names, b"__gop_x_", number)?;
    let fault = numbered(alloc, names, b"__gop_e_", number)?;
    Ok(MemberWord {
        member,
        position,
        word,
        fault,
    })
}

fn member_words(
    alloc: Global,
    names: &Names,
    members: &[Member],
) -> Result<ListOf<MemberWord>, Memory>
    ensures { IfOk result (λ words. words ≡ spec.member_words names.now 1 3 members.now) }
{
    let mut words = ListOf::new(alloc);
    let mut position = 3;
    for index in 0..members.len() {
        let word = member_word(alloc, names, index + 1, position, members[index])?;
        words.push(word)?;
        position = next_position(position);
    }
    Ok(words)
}

fn check_word(
    alloc: Global,
    names: &Names,
    class: NameId,
    number: usize,
) -> Result<CheckWord, Memory>
    requires { number < 63 }
    ensures { IfOk result (λ word. word ≡ spec.check_word names.now class number) }
{
    let name = check_name(alloc, names, class, number)?;
    let sum = numbered(alloc, names, b"__gop_s_", number)?;
    let fault = numbered(alloc, names, b"__gop_f_", number)?;
    Ok(CheckWord {
        name,
        position: 1 << number,
        sum,
        fault,
    })
}

fn word_checks(
    alloc: Global,
    names: &Names,
    class: NameId,
    count: usize,
) -> Result<ListOf<CheckWord>, Memory>
    requires { count ≤ 63 }
    ensures { IfOk result (λ words. words
        ≡ map (spec.check_word names.now class) (range_with_len 0 count)) }
{
    let mut words = ListOf::new(alloc);
    for number in 0..count {
        let word = check_word(alloc, names, class, number)?;
        words.push(word)?;
    }
    Ok(words)
}

/// The words of a part.
pub(crate) fn part_words(alloc: Global, names: &Names, part: &Part) -> Result<PartWords, Memory>
    ensures { IfOk result (λ words. words ≡ spec.part_words names.now part.now) }
{
    let members = part.members.as_slice();
    let class = part.class.item;
    let checks = word_checks(alloc, names, class, check_words(members.len()))?;
    Ok(PartWords {
        members: member_words(alloc, names, members)?,
        checks,
        parity: parity_name(alloc, names, class)?,
        total: named(names, b"__gop_q"),
        uneven: named(names, b"__gop_y"),
        beyond: named(names, b"__gop_b"),
    })
}
