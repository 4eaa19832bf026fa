//! Generated names, their texts and their numbers.

ghost use Rattle.std.specs.Prelude.{◌≡◌, ◌++◌, ◌∷◌, [], ◌≤◌, ◌+◌, ◌<◌, ◌^◌, length, codes, IfOk, OnOk};
ghost use Rattle.std.specs.Fmt.{decimal};
ghost use Rattle.cxx_make.specs.Generated as generated;
ghost use Rattle.hamming_gen.specs.HammingNames as spec;

use crate::positions::check_words;
use agxx_base::{ListOf, Memory, NameId, Names, Text};
use codec::Part;
use cxx_make::{named_after, text_after};
use std::alloc::Global;

/// The text of a name, or none where no name has this number.
fn text_of(names: &Names, name: NameId) -> &[u8]
    ensures { result.now ≡ generated.text_of names.now name }
{
    if (name.0 as usize) < names.len() {
        return names.text_of(name);
    }
    b"".as_slice()
}

/// A beginning, and then a number in decimal.
fn text_numbered(alloc: Global, beginning: &[u8], number: usize) -> Result<Text, Memory>
    ensures { IfOk result (λ text. text ≡ beginning.now ++ decimal number) }
{
    let digits = format!(in alloc; "{number}")?;
    text_after(alloc, beginning, digits.as_bytes())
}

/// What stands before the class's name in that of a check word.
fn check_beginning(alloc: Global, number: usize) -> Result<Text, Memory>
    ensures { IfOk result (λ text. text ≡ spec.check_beginning number) }
{
    let numbered = format!(in alloc; "{number}_")?;
    text_after(alloc, b"__gop_h_", numbered.as_bytes())
}

/// The name of this text.
pub(crate) fn named(names: &Names, text: &[u8]) -> NameId
    ensures { result ≡ generated.named names.now text.now }
{
    names.number(text)
}

/// The name that is this beginning and then a number.
pub(crate) fn numbered(
    alloc: Global,
    names: &Names,
    beginning: &[u8],
    number: usize,
) -> Result<NameId, Memory>
    ensures { IfOk result (λ name. name ≡ generated.numbered names.now beginning.now number) }
{
    let text = text_numbered(alloc, beginning, number)?;
    Ok(names.number(text.bytes()))
}

/// The name of the check word of this number.
pub(crate) fn check_name(
    alloc: Global,
    names: &Names,
    class: NameId,
    number: usize,
) -> Result<NameId, Memory>
    ensures { IfOk result (λ name. name ≡ spec.check_name names.now class number) }
{
    let beginning = check_beginning(alloc, number)?;
    named_after(alloc, names, beginning.bytes(), class)
}

/// The name of the parity word.
pub(crate) fn parity_name(alloc: Global, names: &Names, class: NameId) -> Result<NameId, Memory>
    ensures { IfOk result (λ name. name ≡ spec.parity_name names.now class) }
{
    named_after(alloc, names, b"__gop_p_", class)
}

/// Adds a beginning with each number from this one on, so many.
fn add_numbered(
    alloc: Global,
    beginning: &[u8],
    first: usize,
    count: usize,
    texts: &mut ListOf<Text>,
) -> Result<(), Memory>
    requires { first + count < 2 ^ 64 }
    ensures { OnOk result (texts.new
        ≡ texts.old ++ spec.numbered_texts beginning.now first count) }
{
    for index in 0..count {
        texts.push(text_numbered(alloc, beginning, first + index)?)?;
    }
    Ok(())
}

fn check_text(alloc: Global, class: &[u8], number: usize) -> Result<Text, Memory>
    ensures { IfOk result (λ text. text ≡ spec.check_text class.now number) }
{
    let beginning = check_beginning(alloc, number)?;
    text_after(alloc, beginning.bytes(), class)
}

fn add_check_texts(
    alloc: Global,
    class: &[u8],
    count: usize,
    texts: &mut ListOf<Text>,
) -> Result<(), Memory>
    ensures { OnOk result (texts.new ≡ texts.old ++ spec.check_texts class.now count) }
{
    for number in 0..count {
        texts.push(check_text(alloc, class, number)?)?;
    }
    Ok(())
}

/// Adds the texts of the words that are added to a part.
fn add_word_texts(
    alloc: Global,
    class: &[u8],
    count: usize,
    texts: &mut ListOf<Text>,
) -> Result<(), Memory>
    ensures { OnOk result (texts.new ≡ texts.old
        ++ (spec.check_texts class.now count ++ spec.parity_text class.now ∷ [])) }
{
    add_check_texts(alloc, class, count, texts)?;
    texts.push(text_after(alloc, b"__gop_p_", class)?)
}

/// Adds the texts of the locals of sums.
fn add_sum_texts(
    alloc: Global,
    members: usize,
    checks: usize,
    texts: &mut ListOf<Text>,
) -> Result<(), Memory>
    requires members_few { members < 2 ^ 63 }
    requires checks_few { checks < 2 ^ 63 }
    ensures { OnOk result (texts.new ≡ texts.old ++ spec.sum_texts members checks) }
{
    add_numbered(alloc, b"__gop_x_", 1, members, texts)?;
    add_numbered(alloc, b"__gop_s_", 0, checks, texts)?;
    texts.push(Text::from_bytes(alloc, b"__gop_q")?)?;
    texts.push(Text::from_bytes(alloc, b"__gop_y")?)
}

/// Adds the texts of the locals of faults.
fn add_fault_texts(
    alloc: Global,
    members: usize,
    checks: usize,
    texts: &mut ListOf<Text>,
) -> Result<(), Memory>
    requires members_few { members < 2 ^ 63 }
    requires checks_few { checks < 2 ^ 63 }
    ensures { OnOk result (texts.new ≡ texts.old ++ spec.fault_texts members checks) }
{
    add_numbered(alloc, b"__gop_e_", 1, members, texts)?;
    add_numbered(alloc, b"__gop_f_", 0, checks, texts)?;
    texts.push(Text::from_bytes(alloc, b"__gop_b")?)
}

/// Adds the texts of all names that are generated for a part.
pub(crate) fn add_part_texts(
    alloc: Global,
    names: &Names,
    part: &Part,
    texts: &mut ListOf<Text>,
) -> Result<(), Memory>
    ensures { OnOk result (texts.new ≡ texts.old ++ spec.part_texts names.now part.now) }
{
    let members = part.members.as_slice().len();
    let checks = check_words(members);
    add_word_texts(alloc, text_of(names, part.class.item), checks, texts)?;
    add_sum_texts(alloc, members, checks, texts)?;
    add_fault_texts(alloc, members, checks, texts)
}
