//! Generated names, their texts and their numbers.

ghost use Rattle.std.specs.Prelude.{◌≡◌, ◌++◌, IfOk, OnOk};
ghost use Rattle.std.specs.Fmt.{decimal};
ghost use Rattle.cxx_make.specs.Generated as spec;

use agxx_base::{ListOf, Memory, NameId, Names, Text};
use std::alloc::Global;

/// The text of a name, or none where no name has this number.
fn text_of(names: &Names, name: NameId) -> &[u8]
    ensures { result.now ≡ spec.text_of names.now name }
{
    if (name.0 as usize) < names.len() {
        return names.text_of(name);
    }
    b"".as_slice()
}

/// A beginning, and then a text.
pub fn text_after(alloc: Global, beginning: &[u8], text: &[u8]) -> Result<Text, Memory>
    ensures { IfOk result (λ made. made ≡ beginning.now ++ text.now) }
{
    let mut bytes = Vec::from_slice(alloc, beginning)?;
    bytes.extend_from_slice(text)?;
    Ok(Text::from_vec(bytes))
}

/// A beginning, and then a number in decimal.
pub fn text_numbered(alloc: Global, beginning: &[u8], number: u32) -> Result<Text, Memory>
    ensures { IfOk result (λ made. made ≡ beginning.now ++ decimal number) }
{
    let digits = format!(in alloc; "{number}")?;
    text_after(alloc, beginning, digits.as_bytes())
}

/// The name that is this beginning and then another name.
pub fn named_after(
    alloc: Global,
    names: &Names,
    beginning: &[u8],
    name: NameId,
) -> Result<NameId, Memory>
    ensures { IfOk result (λ made. made ≡ spec.named_after names.now beginning.now name) }
{
    let text = text_after(alloc, beginning, text_of(names, name))?;
    Ok(names.number(text.bytes()))
}

/// The name that is this beginning and then a number.
pub fn numbered(
    alloc: Global,
    names: &Names,
    beginning: &[u8],
    number: u32,
) -> Result<NameId, Memory>
    ensures { IfOk result (λ made. made ≡ spec.numbered names.now beginning.now number) }
{
    let text = text_numbered(alloc, beginning, number)?;
    Ok(names.number(text.bytes()))
}

/// Gives each of the texts a number.
pub fn intern_all(names: &mut Names, texts: &[Text]) -> Result<(), Memory>
    ensures { OnOk result (names.new ≡ spec.all_interned names.old texts.now) }
{
    for text in texts {
        names.intern(text.bytes())?;
    }
    Ok(())
}
