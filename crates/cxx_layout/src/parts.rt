//! The classes with a part in objects.

ghost use Rattle.std.specs.Prelude.{◌≡◌, [], IfOk, OnOk};
ghost use Rattle.cxx_layout.specs.Parts as spec;

use crate::layouts::{ClassList, class_of, inherited};
use agxx_base::{ListOf, Memory, Names};
use cxx_names::{ClassInfo, MemberInfo, Table, is_text};
use std::alloc::Global;

/// The name of the member of a class of this name.
fn part_name(alloc: Global, text: &[u8]) -> Result<Vec<u8>, Memory>
    ensures { IfOk result (λ name. name.items ≡ spec.part_name text.now) }
{
    let mut name = Vec::from_slice(alloc, b"__gop_n_".as_slice())?;
    name.extend_from_slice(text)?;
    Ok(name)
}

/// Whether one of the members has this text as its name.
fn has_member(names: &Names, text: &[u8], members: &Table<MemberInfo>) -> bool
    ensures { result ≡ spec.has_member names.now text.now members.now }
{
    for index in 0..members.len() {
        let (name, _) = members.entry(index);
        if is_text(names, name, text) {
            return true;
        }
    }
    false
}

/// Whether a class itself declares a part.
fn has_part(alloc: Global, names: &Names, class: &ClassInfo) -> Result<bool, Memory>
    ensures { IfOk result (λ has. has ≡ spec.has_part names.now class.now) }
{
    let own = class.name.item;
    if (own.0 as usize) < names.len() {
        let part = part_name(alloc, names.text_of(own))?;
        Ok(has_member(names, part.as_slice(), &class.members))
    } else {
        Ok(false)
    }
}

/// Appends the list of the next class.
fn add_parts(
    alloc: Global,
    names: &Names,
    done: &mut ListOf<ClassList>,
    class: &ClassInfo,
) -> Result<(), Memory>
    ensures { OnOk result (done.new ≡ spec.with_parts names.now done.old class.now) }
{
    let number = class_of(done.len())?;
    let mut list = inherited(alloc, done.as_slice(), class.base)?;
    if has_part(alloc, names, class)? {
        list.push(number)?;
    }
    done.push(list)
}

pub(crate) fn parts_of(
    alloc: Global,
    names: &Names,
    classes: &[ClassInfo],
) -> Result<ListOf<ClassList>, Memory>
    ensures { IfOk result (λ all. all ≡ spec.parts_after names.now [] classes.now) }
{
    let mut done = ListOf::new(alloc);
    for class in classes {
        add_parts(alloc, names, &mut done, class)?;
    }
    Ok(done)
}
