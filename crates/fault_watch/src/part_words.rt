//! The words of parts.

ghost use Rattle.std.specs.Prelude.{◌≡◌, ◌++◌, Some, option_map, slice_get};
ghost use Rattle.std.specs.List.{list_any};
ghost use Rattle.std.specs.Str.{bytes_eq};
ghost use Rattle.cxx_arith.specs.Kinds.{width};
ghost use Rattle.cxx_core.specs.ProgramView.{class_core, word_core};
ghost use Rattle.fault_model.specs.Parts as spec;
ghost use Rattle.fault_watch.specs.PartWords.{shown, first_of, is_numbered};

use crate::classes::{class_at, class_count};
use agxx_base::{ClassId, NameId, Names, NumKind};
use cxx_core::{Class, Word};
use step_setting::Setting;

/// The word of a part that a flip falls on.
#[derive(Clone, Copy, Debug, PartialEq, Eq)]
pub struct PartWord {
    /// The class whose part it is.
    pub class: ClassId,
    pub kind: NumKind,
}

impl PartWord {
    /// How many bits it has.
    pub fn width(self) -> u32
        ensures { result ≡ width self.kind }
    {
        match self.kind {
            NumKind::Bool => 1,
            NumKind::I8 | NumKind::U8 => 8,
            NumKind::I16 | NumKind::U16 => 16,
            NumKind::I32 | NumKind::U32 => 32,
            NumKind::I64 | NumKind::U64 => 64,
        }
    }
}

/// Whether a text is a beginning and then a rest.
fn is_joined(text: &[u8], beginning: &[u8], rest: &[u8]) -> bool
    ensures { result ≡ bytes_eq text.now (beginning.now ++ rest.now) }
{
    text.starts_with(beginning) && &text[beginning.len()..] == rest
}

/// Whether a name is a beginning and then a class's own name.
fn is_named_after(names: &Names, beginning: &[u8], own: NameId, name: NameId) -> bool
    ensures { result ≡ spec.is_named_by names.now beginning.now (slice_get names.now own.0) name.0 }
{
    if own.0 as usize >= names.len() || name.0 as usize >= names.len() {
        return false;
    }
    is_joined(names.text_of(name), beginning, names.text_of(own))
}

/// Whether a name is that of the member that counts in the part of a class.
fn is_counter(setting: &Setting<'_>, class: &Class, name: NameId) -> bool
    ensures { result ≡ spec.is_counter setting.now (class_core class.now) name.0 }
{
    is_named_after(setting.names(), b"__gop_n_", class.name.item, name)
}

/// Whether a word that a class declares is the member that counts.
fn counts_word(setting: &Setting<'_>, class: &Class) -> bool
    ensures { result ≡ list_any (λ w. spec.is_counter setting.now (class_core class.now) w.name)
        (class_core class.now).words }
{
    let words = class.words.as_slice();
    for word in words {
        if is_counter(setting, class, word.name) {
            return true;
        }
    }
    false
}

/// Whether a mutex that a class declares has the name of the member that counts.
fn counts_mutex(setting: &Setting<'_>, class: &Class) -> bool
    ensures { result ≡ list_any (spec.is_counter setting.now (class_core class.now))
        (class_core class.now).mutexes }
{
    let names = class.mutexes.as_slice();
    for name in names {
        if is_counter(setting, class, *name) {
            return true;
        }
    }
    false
}

/// Whether a class has a part.
fn declares_part(setting: &Setting<'_>, class: &Class) -> bool
    ensures { result ≡ spec.declares_part setting.now (class_core class.now) }
{
    counts_word(setting, class) || counts_mutex(setting, class)
}

/// Whether a word that a class declares is the one of its part with this number.
fn is_word(setting: &Setting<'_>, number: ClassId, class: &Class, word: &Word, at: u32) -> bool
    ensures { result ≡
        is_numbered setting.now number (class_core class.now) at (word_core word.now) }
{
    setting.word_number(number, word.name) == at && !is_counter(setting, class, word.name)
}

/// The first word with this number of those that a class declares, the one that counts aside.
fn word_but_counter(
    setting: &Setting<'_>,
    number: ClassId,
    class: &Class,
    at: u32,
) -> Option<PartWord>
    ensures { result ≡ option_map shown (first_of setting.now number at
        (spec.words_but_counter setting.now (class_core class.now))) }
{
    let words = class.words.as_slice();
    for word in words {
        if is_word(setting, number, class, word, at) {
            return Some(PartWord {
                class: number,
                kind: word.kind,
            });
        }
    }
    None
}

/// The word with this number of the part of a class, if it is one.
fn own_word(setting: &Setting<'_>, number: ClassId, class: &Class, at: u32) -> Option<PartWord>
    ensures { result ≡ option_map shown (first_of setting.now number at
        (spec.part_words_by setting.now (Some (class_core class.now)))) }
{
    if declares_part(setting, class) {
        word_but_counter(setting, number, class, at)
    } else {
        None
    }
}

/// The word of a part that has this number in an object of a class, if it is one.
pub fn part_word_at(setting: &Setting<'_>, own: Option<ClassId>, word: u32) -> Option<PartWord>
    ensures { result ≡ option_map shown (spec.part_word_at setting.now own word) }
{
    let mut next = own;
    let mut left = class_count(setting);
    while left > 0 {
        left -= 1;
        let Some(number) = next else {
            return None;
        };
        let Some(class) = class_at(setting, number) else {
            return None;
        };
        match own_word(setting, number, class, word) {
            Some(found) => return Some(found),
            None => next = class.base,
        }
    }
    None
}
