//! Layouts that were worked out by hand.

use agxx_base::{ClassId, ListOf, Memory, NameId, Names, NumKind, Place};
use cxx_layout::{Layouts, WordInfo};
use cxx_names::Declared;
use cxx_tree::{Class, ClassWord, Decl, Item, Member, Name, Placed, Program, TypeName};
use sqlite_items::Items;
use std::alloc::Global;
use std::test::Fail;

fn name(number: u32) -> Name {
    Placed {
        at: place(),
        item: NameId(number),
    }
}

fn place() -> Place {
    Place {
        file: 0,
        line: 1,
        column: 1,
    }
}

fn member(type_name: TypeName, number: u32) -> Item {
    Item::Member(Member {
        type_name: Placed {
            at: place(),
            item: type_name,
        },
        name: name(number),
    })
}

fn class(word: ClassWord, number: u32, base: Option<Name>, items: Items<Item>) -> Decl {
    Decl::Class(Class {
        at: place(),
        word,
        name: name(number),
        base,
        items,
    })
}

// `A`, `B`, `x`, `y`, `m` and `__gop_n_A` with the numbers from 0
fn names(alloc: Global) -> Result<Names, Memory> {
    let mut names = Names::new(alloc);
    names.intern(b"A".as_slice())?;
    names.intern(b"B".as_slice())?;
    names.intern(b"x".as_slice())?;
    names.intern(b"y".as_slice())?;
    names.intern(b"m".as_slice())?;
    names.intern(b"__gop_n_A".as_slice())?;
    Ok(names)
}

// `class A { int x; int __gop_n_A; };` and `class B : public A { std::mutex m; bool y; int __gop_n_A; };`
fn program(alloc: Global) -> Result<Program, Memory> {
    let mut first = Items::new(alloc);
    first.push(member(TypeName::Int, 2))?;
    first.push(member(TypeName::Int, 5))?;
    let mut second = Items::new(alloc);
    second.push(member(TypeName::Mutex, 4))?;
    second.push(member(TypeName::Num(NumKind::Bool), 3))?;
    second.push(member(TypeName::Int, 5))?;
    let mut decls = Items::new(alloc);
    decls.push(class(ClassWord::Class, 0, None, first))?;
    decls.push(class(ClassWord::Class, 1, Some(name(0)), second))?;
    Ok(Program {
        at: place(),
        directives: Items::new(alloc),
        decls,
    })
}

fn layouts(alloc: Global) -> Result<Layouts, Memory> {
    let names = names(alloc)?;
    let declared = Declared::of(alloc, &names, &program(alloc)?)?;
    Layouts::of(alloc, &names, &declared)
}

fn count(list: Option<&ListOf<ClassId>>) -> usize {
    match list {
        None => 100,
        Some(list) => list.len(),
    }
}

#[test]
fn puts_the_words_of_the_base_first(rt: HostRuntime) -> Result<(), Fail> {
    let Ok(layouts) = layouts(rt.alloc()) else {
        return Err("no memory")?;
    };
    let Some(layout) = layouts.layout(ClassId(1)) else {
        return Err("no class")?;
    };
    let word = |number: u32, kind: NumKind, class: u32| WordInfo {
        name: NameId(number),
        kind,
        class: ClassId(class),
    };
    assert_eq!(rt; layout.len(), 4);
    assert_eq!(rt; *layout.item(0), word(2, NumKind::I32, 0));
    assert_eq!(rt; *layout.item(1), word(5, NumKind::I32, 0));
    assert_eq!(rt; *layout.item(2), word(3, NumKind::Bool, 1));
    assert_eq!(rt; *layout.item(3), word(5, NumKind::I32, 1));
    assert!(rt; layouts.layout(ClassId(2)).is_none());
    Ok(())
}

#[test]
fn finds_parts(rt: HostRuntime) -> Result<(), Fail> {
    let Ok(layouts) = layouts(rt.alloc()) else {
        return Err("no memory")?;
    };
    // the second class's member is named after the first class
    assert_eq!(rt; count(layouts.parts(ClassId(0))), 1);
    assert_eq!(rt; count(layouts.parts(ClassId(1))), 1);
    assert_eq!(rt; count(layouts.parts(ClassId(2))), 100);
    Ok(())
}
