//! Tests on the texts of names.

ghost use Rattle.std.specs.Prelude.{◌≡◌, ◌&&◌, length, slice_get, drop};
ghost use Rattle.std.specs.List.{list_all};
ghost use Rattle.step_machine.specs.Setting as spec;
ghost use Rattle.step_machine.specs.Inserted as inserted;

use agxx_base::{NameId, Names};

/// Whether a name begins so.
pub(crate) fn begins(names: &Names, name: NameId, beginning: &[u8]) -> bool
    ensures { result ≡ spec.begins names.now name.0 beginning.now }
{
    (name.0 as usize) < names.len() && names.text_of(name).starts_with(beginning)
}

fn is_digit(byte: u8) -> bool
    ensures { result ≡ inserted.is_digit byte }
{
    b'0' <= byte && byte <= b'9'
}

fn are_digits(text: &[u8]) -> bool
    ensures { result ≡ list_all inserted.is_digit text.now }
{
    text.iter().all(|byte| is_digit(*byte))
}

/// Whether a text is a decimal number from 1 on.
fn is_ordinal(text: &[u8]) -> bool
    ensures { result ≡ inserted.is_ordinal text.now }
{
    match text {
        [] => false,
        [first, rest @ ..] => b'1' <= *first && is_digit(*first) && are_digits(rest),
    }
}

fn ends_in_ordinal(names: &Names, name: NameId, skipped: usize) -> bool
    ensures { result ≡ inserted.ends_in_ordinal (slice_get names.now name.0) skipped }
{
    if (name.0 as usize) >= names.len() {
        return false;
    }
    let text = names.text_of(name);
    skipped <= text.len() && is_ordinal(&text[skipped..])
}

/// Whether a name is this beginning with a number.
pub(crate) fn is_numbered(names: &Names, name: NameId, beginning: &[u8]) -> bool
    ensures { result ≡ (spec.begins names.now name.0 beginning.now &&
        inserted.ends_in_ordinal (slice_get names.now name.0) (length beginning.now)) }
{
    begins(names, name, beginning) && ends_in_ordinal(names, name, beginning.len())
}
