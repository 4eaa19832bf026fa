//! The tables that look-ups read.

ghost use Rattle.std.specs.Prelude.{◌≡◌, Some, map, IfOk, OnOk, option_map, slice_get};
ghost use Rattle.std.specs.Option.{option_copied};
ghost use Rattle.cxx_core.specs.ProgramView.{word_core, name_core, class_core, global_core};
ghost use Rattle.step_machine.specs.Setting.{chain, line_in, stands_in};
ghost use Rattle.step_setting.specs.Places.{places, with_places, no_places};
ghost use Rattle.step_setting.specs.Tables as spec;

use crate::places::Places;
use agxx_base::{ClassId, ListOf, Memory, NameId};
use cxx_core::{Class, Global, Word};
use std::alloc::Global as Heap;

/// How many words and mutexes there are.
#[derive(Clone, Copy)]
pub(crate) struct Sizes {
    pub(crate) words: u32,
    pub(crate) mutexes: u32,
}

/// What look-ups read of a class.
#[derive(Drop)]
pub(crate) struct ClassTable {
    /// Of an object of the class.
    pub(crate) sizes: Sizes,
    /// Of the words that the class itself declares.
    pub(crate) words: Places,
    /// Of the mutexes that the class itself declares.
    pub(crate) mutexes: Places,
}

/// The class of a number.
pub(crate) fn class_at(classes: &[Class], class: ClassId) -> Option<&Class>
    ensures { option_map class_core (option_copied result) ≡ slice_get (map class_core classes.now) class.0 }
{
    classes.get(class.0 as usize)
}

/// A count and more, where 32 bits hold the sum.
fn sum(count: u32, more: usize) -> Result<u32, Memory>
    ensures { IfOk result (λ n. n ≡ spec.sum_of count more) }
{
    let Ok(more) = u32::try_from(more) else {
        return Err(Memory);
    };
    match count.checked_add(more) {
        None => Err(Memory),
        Some(all) => Ok(all),
    }
}

fn with_class(sizes: Sizes, class: &Class) -> Result<Sizes, Memory>
    ensures { IfOk result (λ n. n ≡ spec.with_class sizes (class_core class.now)) }
{
    Ok(Sizes {
        words: sum(sizes.words, class.words.len())?,
        mutexes: sum(sizes.mutexes, class.mutexes.len())?,
    })
}

/// These sizes with those of a class, if there is one, and of the classes above it, so many at most.
fn sizes_upwards(
    classes: &[Class],
    sizes: Sizes,
    steps: usize,
    class: Option<ClassId>,
) -> Result<Sizes, Memory>
    ensures { IfOk result (λ n. n ≡ spec.with_classes sizes (chain (map class_core classes.now) steps class)) }
{
    let mut found = sizes;
    let mut next = class;
    let mut left = steps;
    while left > 0 {
        left -= 1;
        let Some(number) = next else {
            return Ok(found);
        };
        let Some(class) = class_at(classes, number) else {
            return Ok(found);
        };
        found = with_class(found, class)?;
        next = class.base;
    }
    Ok(found)
}

/// Whether a class is another, if there is one, or stands above it, so many classes at most.
pub(crate) fn stands_upwards(
    classes: &[Class],
    steps: usize,
    own: Option<ClassId>,
    class: ClassId,
) -> bool
    ensures { result ≡ stands_in (Some class) (line_in (map class_core classes.now) steps own) }
{
    let mut next = own;
    let mut left = steps;
    while left > 0 {
        left -= 1;
        let Some(number) = next else {
            return false;
        };
        let Some(found) = class_at(classes, number) else {
            return false;
        };
        if class.0 == number.0 {
            return true;
        }
        next = found.base;
    }
    false
}

fn places_of_words(alloc: Heap, start: u32, words: &[Word]) -> Result<Places, Memory>
    ensures { IfOk result (λ p. p ≡ places start (spec.word_names (map word_core words.now))) }
{
    let mut places = Places::empty(alloc, start);
    for word in words {
        places.add(word.name)?;
    }
    Ok(places)
}

fn places_of_names(alloc: Heap, start: u32, names: &[NameId]) -> Result<Places, Memory>
    ensures { IfOk result (λ p. p ≡ places start (map name_core names.now)) }
{
    let mut places = Places::empty(alloc, start);
    for name in names {
        places.add(*name)?;
    }
    Ok(places)
}

fn class_table(alloc: Heap, classes: &[Class], class: &Class) -> Result<ClassTable, Memory>
    ensures { IfOk result (λ t. t ≡ spec.class_table (map class_core classes.now) (class_core class.now)) }
{
    let none = Sizes {
        words: 0,
        mutexes: 0,
    };
    let above = sizes_upwards(classes, none, classes.len(), class.base)?;
    let own = with_class(none, class)?;
    let others = classes.len().saturating_sub(1);
    Ok(ClassTable {
        sizes: sizes_upwards(classes, own, others, class.base)?,
        words: places_of_words(alloc, above.words, class.words.as_slice())?,
        mutexes: places_of_names(alloc, above.mutexes, class.mutexes.as_slice())?,
    })
}

/// The table of each class.
pub(crate) fn class_tables(alloc: Heap, classes: &[Class]) -> Result<ListOf<ClassTable>, Memory>
    ensures { IfOk result (λ ts. ts ≡ spec.class_tables (map class_core classes.now)) }
{
    let mut tables = ListOf::new(alloc);
    for class in classes {
        tables.push(class_table(alloc, classes, class)?)?;
    }
    Ok(tables)
}

fn add_global(places: &mut Places, global: &Global) -> Result<(), Memory>
    ensures { OnOk result (places.new ≡ spec.with_global places.old (global_core global.now)) }
{
    match global {
        Global::Object(_, name, _, _) => places.add(*name),
        _ => Ok(()),
    }
}

/// The numbers of the global objects.
pub(crate) fn object_places(alloc: Heap, globals: &[Global]) -> Result<Places, Memory>
    ensures { IfOk result (λ p. p ≡ spec.object_places (map global_core globals.now)) }
{
    let mut places = Places::empty(alloc, 0);
    for global in globals {
        add_global(&mut places, global)?;
    }
    Ok(places)
}

/// How many words and mutexes an object of a class has.
pub(crate) fn sizes_at(tables: &[ClassTable], class: ClassId) -> Sizes
    ensures { result ≡ spec.sizes_by (slice_get tables.now class.0) }
{
    match tables.get(class.0 as usize) {
        None => Sizes {
            words: 0,
            mutexes: 0,
        },
        Some(table) => table.sizes,
    }
}

/// The number of a word in the table of the class that declares it.
pub(crate) fn word_at(tables: &[ClassTable], class: ClassId, name: NameId) -> u32
    ensures { result ≡ spec.word_by (slice_get tables.now class.0) name.0 }
{
    match tables.get(class.0 as usize) {
        None => 0,
        Some(table) => table.words.number(name),
    }
}

/// The number of a mutex in the table of the class that declares it.
pub(crate) fn mutex_at(tables: &[ClassTable], class: ClassId, name: NameId) -> u32
    ensures { result ≡ spec.mutex_by (slice_get tables.now class.0) name.0 }
{
    match tables.get(class.0 as usize) {
        None => 0,
        Some(table) => table.mutexes.number(name),
    }
}
