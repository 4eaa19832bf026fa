//! The part of a class, and the parts of objects.

ghost use Rattle.std.specs.Prelude.{◌≡◌, [], ◌++◌, map, Some, IfOk, OnOk};
ghost use Rattle.std.specs.List.{flat_map};
ghost use Rattle.cxx_tree.specs.ProgramTree.{item_tree, class_tree};
ghost use Rattle.cxx_layout.specs.Layouts as layouts;
ghost use Rattle.protect.specs.GuardedParts as spec;

use crate::kinds::Kinds;
use agxx_base::{ClassId, ListOf, Memory, NameId};
use codec::Part;
use cxx_names::{ClassInfo, Declared};
use cxx_tree::{Class, Item, Member, Name};
use guards::GuardKind;
use std::alloc::Global;

/// Names of classes, of which each one is below the one before it.
type Names = ListOf<NameId>;

/// For each class, by its number, the names of the classes with parts in its objects, the topmost first.
#[derive(Drop)]
pub(crate) struct GuardedParts {
    lists: ListOf<Names>,
}

/// The members that a class itself declares.
fn members_of(alloc: Global, items: &[Item]) -> Result<ListOf<Member>, Memory>
    ensures { IfOk result (λ members. members ≡ flat_map spec.members_in (map item_tree items.now)) }
{
    let mut members = ListOf::new(alloc);
    for item in items {
        if let Item::Member(member) = item {
            members.push(*member)?;
        }
    }
    Ok(members)
}

/// With a guard, where there is a member.
fn part_with(class: Name, kind: GuardKind, members: ListOf<Member>) -> Option<(GuardKind, Part)>
    ensures { result ≡ spec.part_with class (Some kind) members }
{
    if members.len() == 0 {
        return None;
    }
    Some((kind, Part { class, members }))
}

/// The part of a class with its guard, if it is guarded and declares a member.
pub(crate) fn part_of(
    alloc: Global,
    kinds: &Kinds,
    class: &Class,
) -> Result<Option<(GuardKind, Part)>, Memory>
    ensures { IfOk result (λ part. part ≡ spec.part_of kinds.now (class_tree class.now)) }
{
    match kinds.kind(class.name.item) {
        None => Ok(None),
        Some(kind) => {
            let members = members_of(alloc, class.items.as_slice())?;
            Ok(part_with(class.name, kind, members))
        }
    }
}

/// A copy of the list of a base among the lists of the classes before a class.
fn inherited(alloc: Global, lists: &[Names], base: Option<ClassId>) -> Result<Names, Memory>
    ensures { IfOk result (λ list. list ≡ layouts.inherited lists.now base) }
{
    let Some(base) = base else {
        return Ok(ListOf::new(alloc));
    };
    match lists.get(base.0 as usize) {
        None => Ok(ListOf::new(alloc)),
        Some(list) => Ok(ListOf::from_vec(Vec::from_slice(alloc, list.as_slice())?)),
    }
}

/// Appends the name of a class, if it has a part.
fn add_own(kinds: &Kinds, class: &ClassInfo, list: &mut Names) -> Result<(), Memory>
    ensures { OnOk result (list.new ≡ list.old ++ spec.own_part kinds.now class.now) }
{
    if class.members.len() > 0 && kinds.kind(class.name.item).is_some() {
        list.push(class.name.item)?;
    }
    Ok(())
}

/// Appends the list of the next class.
fn add_parts(
    alloc: Global,
    kinds: &Kinds,
    done: &mut ListOf<Names>,
    class: &ClassInfo,
) -> Result<(), Memory>
    ensures { OnOk result (done.new ≡ spec.with_parts kinds.now done.old class.now) }
{
    let mut list = inherited(alloc, done.as_slice(), class.base)?;
    add_own(kinds, class, &mut list)?;
    done.push(list)
}

fn parts_of(alloc: Global, kinds: &Kinds, classes: &[ClassInfo]) -> Result<ListOf<Names>, Memory>
    ensures { IfOk result (λ all. all ≡ spec.parts_after kinds.now [] classes.now) }
{
    let mut done = ListOf::new(alloc);
    for class in classes {
        add_parts(alloc, kinds, &mut done, class)?;
    }
    Ok(done)
}

impl GuardedParts {
    /// Those of all classes that are declared.
    pub(crate) fn of(
        alloc: Global,
        kinds: &Kinds,
        declared: &Declared,
    ) -> Result<GuardedParts, Memory>
        ensures { IfOk result (λ all. all.lists ≡ spec.guarded_parts kinds.now declared.now) }
    {
        Ok(GuardedParts {
            lists: parts_of(alloc, kinds, declared.classes())?,
        })
    }

    /// The classes with parts in objects of the class of a name.
    pub(crate) fn named(&self, declared: &Declared, class: NameId) -> &[NameId]
        ensures { result.now ≡ spec.parts_named declared.now self.now.lists class }
    {
        let Some(class) = declared.class_named(class) else {
            return &[];
        };
        match self.lists.as_slice().get(class.0 as usize) {
            None => &[],
            Some(list) => list.as_slice(),
        }
    }
}
