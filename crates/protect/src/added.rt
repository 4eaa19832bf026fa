//! What is added to a class that has a part.

ghost use Rattle.std.specs.Prelude.{◌≡◌, ◌++◌, OnOk, map};
ghost use Rattle.cxx_tree.specs.ProgramTree as p;
ghost use Rattle.cxx_tree.specs.ProgramTree.{function_tree, item_tree, class_tree};
ghost use Rattle.protect.specs.GuardedParts as parts;
ghost use Rattle.protect.specs.Protected as spec;

use crate::kinds::Kinds;
use crate::parts::part_of;
use agxx_base::{Memory, Names, Place};
use codec::{Codec, Copies, Part};
use cxx_copy::Copier;
use cxx_names::default_access;
use cxx_tree::{Access, Class, Function, Item, Member};
use entry_count::{PartCode, enter_leave};
use guards::GuardKind;
use hamming_gen::Hamming;
use sqlite_items::Items;
use std::alloc::Global;

/// The access in force behind items, where this one is before them.
fn last_access(before: Access, items: &[Item]) -> Access
    ensures { result ≡ spec.last_access before (map item_tree items.now) }
{
    let mut access = before;
    for item in items {
        if let Item::Label(_, next) = item {
            access = *next;
        }
    }
    access
}

/// Appends the label `public:`, unless that access is in force.
fn add_label(at: Place, shown: Access, items: &mut Items<Item>) -> Result<(), Memory>
    ensures { OnOk result (map item_tree items.new ≡ map item_tree items.old ++ spec.opening at shown) }
{
    match shown {
        Access::Public => {}
        Access::Protected | Access::Private => items.push(Item::Label(at, Access::Public))?,
    }
    Ok(())
}

fn add_members(members: &[Member], items: &mut Items<Item>) -> Result<(), Memory>
    ensures { OnOk result (map item_tree items.new ≡ map item_tree items.old ++ map p.member members.now) }
{
    for member in members {
        items.push(Item::Member(*member))?;
    }
    Ok(())
}

fn add_functions(
    alloc: Global,
    functions: &[Function],
    items: &mut Items<Item>,
) -> Result<(), Memory>
    ensures { OnOk result (map item_tree items.new
        ≡ map item_tree items.old ++ map p.function (map function_tree functions.now)) }
{
    let copier = Copier { alloc };
    for function in functions {
        items.push(Item::Function(copier.function(function)?))?;
    }
    Ok(())
}

fn add_each(alloc: Global, code: &PartCode, items: &mut Items<Item>) -> Result<(), Memory>
    ensures { OnOk result (map item_tree items.new ≡ map item_tree items.old
        ++ (map p.member code.now.members ++ map p.function (map function_tree code.now.functions))) }
{
    add_members(code.members.as_slice(), items)?;
    add_functions(alloc, code.functions.as_slice(), items)?;
    Ok(())
}

/// Appends the items of a part with this code.
fn add_code<C: Codec>(
    alloc: Global,
    names: &Names,
    part: &Part,
    codec: &C,
    items: &mut Items<Item>,
) -> Result<(), Memory>
    ensures { OnOk result (map item_tree items.new
        ≡ map item_tree items.old ++ spec.part_items (C.code codec.now) names.now part.now) }
{
    let code = enter_leave(alloc, names, part, codec)?;
    add_each(alloc, &code, items)?;
    Ok(())
}

/// Appends the items of a part with the code of a guard.
fn add_part(
    alloc: Global,
    names: &Names,
    kind: GuardKind,
    part: &Part,
    items: &mut Items<Item>,
) -> Result<(), Memory>
    ensures { OnOk result (map item_tree items.new
        ≡ map item_tree items.old ++ spec.part_items (spec.code_of kind) names.now part.now) }
{
    match kind {
        GuardKind::Copies => add_code(alloc, names, part, &Copies, items),
        GuardKind::Hamming => add_code(alloc, names, part, &Hamming, items),
    }
}

/// Appends what is added to a class, if it has a part.
pub(crate) fn add_own_part(
    alloc: Global,
    names: &Names,
    kinds: &Kinds,
    class: &Class,
    items: &mut Items<Item>,
) -> Result<(), Memory>
    ensures { OnOk result (map item_tree items.new
        ≡ map item_tree items.old
        ++ spec.added names.now (class_tree class.now) (parts.part_of kinds.now (class_tree class.now))) }
{
    match part_of(alloc, kinds, class)? {
        None => Ok(()),
        Some((kind, part)) => {
            let shown = last_access(default_access(class.word), class.items.as_slice());
            add_label(class.at, shown, items)?;
            add_part(alloc, names, kind, &part, items)
        }
    }
}
