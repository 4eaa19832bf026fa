//! A program of two classes, a function and three globals, whose numbers were counted by hand.

use crate::Setting;
use agxx_base::{ClassId, FnId, Memory, NameId, Names, NumKind, Place};
use cxx_core::{Class, Function, FunctionKind, Global, Program, Word};
use cxx_tree::Placed;
use sqlite_items::Items;
use std::alloc::Global as Heap;
use std::test::Fail;

const AT: Place = Place {
    file: 0,
    line: 1,
    column: 1,
};

// The names are numbered in this order.
fn names(alloc: Heap) -> Result<Names, Memory> {
    let mut names = Names::new(alloc);
    names.intern(b"A".as_slice())?;
    names.intern(b"x".as_slice())?;
    names.intern(b"y".as_slice())?;
    names.intern(b"m".as_slice())?;
    names.intern(b"o".as_slice())?;
    names.intern(b"__gop_1".as_slice())?;
    Ok(names)
}

// A class with a word that its base has too, a further word and a mutex.
fn class(alloc: Heap, base: Option<ClassId>) -> Result<Class, Memory> {
    let mut words = Items::new(alloc);
    for name in 1..3 {
        words.push(Word {
            name: NameId(name),
            kind: NumKind::I32,
        })?;
    }
    let mut mutexes = Items::new(alloc);
    mutexes.push(NameId(3))?;
    Ok(Class {
        name: Placed {
            at: AT,
            item: NameId(0),
        },
        base,
        words,
        mutexes,
        constructor: Some(FnId(0)),
        destructor: None,
    })
}

fn function(alloc: Heap) -> Function {
    Function {
        number: FnId(0),
        name: Placed {
            at: AT,
            item: NameId(5),
        },
        class: Some(ClassId(1)),
        kind: FunctionKind::Constructor,
        params: Items::new(alloc),
        result: None,
        base: None,
        base_arguments: Items::new(alloc),
        body: Items::new(alloc),
    }
}

fn program(alloc: Heap) -> Result<Program, Memory> {
    let mut functions = Items::new(alloc);
    functions.push(function(alloc))?;
    let mut classes = Items::new(alloc);
    classes.push(class(alloc, None)?)?;
    classes.push(class(alloc, Some(ClassId(0)))?)?;
    let mut globals = Items::new(alloc);
    globals.push(Global::Mutex(NameId(4)))?;
    globals.push(Global::Object(AT, NameId(1), ClassId(0), Items::new(alloc)))?;
    globals.push(Global::Object(AT, NameId(2), ClassId(1), Items::new(alloc)))?;
    Ok(Program {
        functions,
        classes,
        globals,
        main: Some(FnId(0)),
    })
}

fn numbers(setting: &Setting) -> [u32; 7] {
    [
        setting.word_count(ClassId(0)),
        setting.word_count(ClassId(1)),
        setting.word_number(ClassId(1), NameId(1)),
        setting.word_number(ClassId(1), NameId(2)),
        setting.mutex_count(ClassId(1)),
        setting.mutex_number(ClassId(1), NameId(3)),
        setting.global_object(NameId(2)),
    ]
}

fn functions(setting: &Setting) -> [Option<FnId>; 3] {
    [
        setting.main(),
        setting.constructor_of(ClassId(1)),
        setting.destructor_of(ClassId(1)),
    ]
}

fn generated(setting: &Setting) -> [bool; 2] {
    [setting.is_generated(FnId(0)), setting.is_generated(FnId(1))]
}

#[test]
fn finds_what_was_counted_by_hand(rt: HostRuntime) -> Result<(), Fail> {
    let names = names(rt.alloc()).or(Err("no memory"))?;
    let program = program(rt.alloc()).or(Err("no memory"))?;
    let setting = Setting::of(rt.alloc(), &names, &program).or(Err("no memory"))?;
    assert!(rt; numbers(&setting) == [2, 4, 2, 3, 2, 1, 1]);
    assert!(rt; functions(&setting) == [Some(FnId(0)), Some(FnId(0)), None]);
    assert!(rt; generated(&setting) == [true, false]);
    Ok(())
}
