//! The words of objects.

ghost use Rattle.std.specs.Prelude.{◌≡◌, [], ◌++◌, length, slice_get, IfOk, OnOk};
ghost use Rattle.std.specs.Option.{option_copied};
ghost use Rattle.cxx_layout.specs.Layouts as spec;
ghost use Rattle.cxx_layout.specs.Parts.{all_parts};

use crate::parts::parts_of;
use agxx_base::{ClassId, ListOf, Memory, NameId, Names, NumKind};
use cxx_names::{ClassInfo, Declared, MemberInfo, Table};
use cxx_tree::TypeName;
use std::alloc::Global;

/// A word of an object.
#[derive(Clone, Copy, Debug, PartialEq, Eq)]
pub struct WordInfo {
    pub name: NameId,
    pub kind: NumKind,
    /// The class that declares it.
    pub class: ClassId,
}

/// The words of an object, in order.
pub type Layout = ListOf<WordInfo>;

/// Classes, of which each one is below the one before it.
pub type ClassList = ListOf<ClassId>;

/// For each class, the words of its objects and the classes with a part in them.
#[derive(Drop)]
pub struct Layouts {
    layouts: ListOf<Layout>,
    parts: ListOf<ClassList>,
}

/// The kind of a number type.
fn kind_of(type_name: TypeName) -> Option<NumKind>
    ensures { result ≡ spec.kind_of type_name }
{
    match type_name {
        TypeName::Num(kind) => Some(kind),
        TypeName::Int => Some(NumKind::I32),
        TypeName::Unsigned => Some(NumKind::U32),
        TypeName::Void => None,
        TypeName::Pointer(_) => None,
        TypeName::Mutex => None,
    }
}

/// The class of this number, if it is below 2^32.
pub(crate) fn class_of(number: usize) -> Result<ClassId, Memory>
    ensures { IfOk result (λ class. class.0 ≡ number) }
{
    match u32::try_from(number) {
        Ok(number) => Ok(ClassId(number)),
        Err(_) => Err(Memory),
    }
}

/// A copy of the list of a base among the lists of classes.
pub(crate) fn inherited<T: Copy + Drop>(
    alloc: Global,
    lists: &[ListOf<T>],
    base: Option<ClassId>,
) -> Result<ListOf<T>, Memory>
    ensures { IfOk result (λ list. list ≡ spec.inherited lists.now base) }
{
    let Some(base) = base else {
        return Ok(ListOf::new(alloc));
    };
    match lists.get(base.0 as usize) {
        None => Ok(ListOf::new(alloc)),
        Some(list) => Ok(ListOf::from_vec(Vec::from_slice(alloc, list.as_slice())?)),
    }
}

/// Appends the word of a member, if it is one.
fn add_word(
    words: &mut Layout,
    class: ClassId,
    name: NameId,
    member: &MemberInfo,
) -> Result<(), Memory>
    ensures { OnOk result (words.new ≡ words.old ++ spec.word_of class (name.0, member.now)) }
{
    if let Some(kind) = kind_of(member.type_name) {
        words.push(WordInfo { name, kind, class })?;
    }
    Ok(())
}

/// Appends the words that a class declares.
fn add_own(words: &mut Layout, class: ClassId, members: &Table<MemberInfo>) -> Result<(), Memory>
    ensures { OnOk result (words.new ≡ words.old ++ spec.own_words class members.now) }
{
    for index in 0..members.len() {
        let (name, member) = members.entry(index);
        add_word(words, class, name, member)?;
    }
    Ok(())
}

/// Appends the layout of the next class.
fn add_layout(alloc: Global, done: &mut ListOf<Layout>, class: &ClassInfo) -> Result<(), Memory>
    ensures { OnOk result (done.new ≡ spec.with_layout done.old class.now) }
{
    let number = class_of(done.len())?;
    let mut words = inherited(alloc, done.as_slice(), class.base)?;
    add_own(&mut words, number, &class.members)?;
    done.push(words)
}

fn layouts_of(alloc: Global, classes: &[ClassInfo]) -> Result<ListOf<Layout>, Memory>
    ensures { IfOk result (λ all. all ≡ spec.layouts_after [] classes.now) }
{
    let mut done = ListOf::new(alloc);
    for class in classes {
        add_layout(alloc, &mut done, class)?;
    }
    Ok(done)
}

impl Layouts {
    /// Those of all classes that are declared.
    #[tactic(auto, using(crate::proofs::Counts::layouts_count, crate::proofs::Counts::parts_count))]
    pub fn of(alloc: Global, names: &Names, declared: &Declared) -> Result<Layouts, Memory>
        ensures layouts { IfOk result (λ all. all.layouts ≡ spec.layouts declared.now) }
        ensures parts { IfOk result (λ all. all.parts ≡ all_parts names.now declared.now) }
        ensures layout_each { IfOk result (λ all. length all.layouts ≡ length declared.now.classes) }
        ensures parts_each { IfOk result (λ all. length all.parts ≡ length declared.now.classes) }
    {
        Ok(Layouts {
            layouts: layouts_of(alloc, declared.classes())?,
            parts: parts_of(alloc, names, declared.classes())?,
        })
    }

    /// The words of an object of a class.
    pub fn layout(&self, class: ClassId) -> Option<&Layout>
        ensures { option_copied result ≡ slice_get self.now.layouts class.0 }
    {
        self.layouts.as_slice().get(class.0 as usize)
    }

    /// The classes with a part in an object of a class.
    pub fn parts(&self, class: ClassId) -> Option<&ClassList>
        ensures { option_copied result ≡ slice_get self.now.parts class.0 }
    {
        self.parts.as_slice().get(class.0 as usize)
    }
}
