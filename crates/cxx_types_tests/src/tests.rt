//! What is known of a small program that violates no rule, worked out by hand.

ghost use Rattle.std.specs.Prelude.{IfOk, IfSome, IsSome};
ghost use Rattle.cxx_types.specs.Typing.{text_of};

use agxx_base::{ClassId, Memory, Mode, NameId, Names, NodeId, NumKind, Place};
use cxx_tree::{
    Base, Block, Class, ClassWord, Decl, Expr, Function, Initial, Item, Left, Local, Member, Name,
    Node, Object, Placed, Program, Ref, Selector, Stmt, TypeName,
};
use cxx_types::{Chains, Meaning, Typed, check};
use sqlite_items::Items;
use std::alloc::Global;
use std::test::Fail;

fn place() -> Place {
    Place {
        file: 0,
        line: 1,
        column: 1,
    }
}

fn name(number: u32) -> Name {
    Placed {
        at: place(),
        item: NameId(number),
    }
}

fn int_type() -> Placed<TypeName> {
    Placed {
        at: place(),
        item: TypeName::Int,
    }
}

fn node(number: u32) -> Node {
    Node {
        at: place(),
        id: NodeId(number),
    }
}

// the node `number`, which is the name `named`
fn reference(number: u32, named: u32) -> Ref {
    Ref {
        node: node(number),
        global: false,
        name: name(named),
    }
}

// a `struct` with one member, an `int`
fn class(alloc: Global, number: u32, base: Option<Name>, member: u32) -> Result<Decl, Memory> {
    let mut items = Items::new(alloc);
    items.push(Item::Member(Member {
        type_name: int_type(),
        name: name(member),
    }))?;
    Ok(Decl::Class(Class {
        at: place(),
        word: ClassWord::Struct,
        name: name(number),
        base,
        items,
    }))
}

// `int main() { int n = b.x; return n; }`
fn main_function(alloc: Global) -> Result<Decl, Memory> {
    let selector = Selector {
        base: Base::Dot(reference(1, 4)),
        name: name(2),
    };
    let mut stmts = Items::new(alloc);
    stmts.push(Stmt::Local(Local {
        type_name: int_type(),
        name: name(6),
        initial: Some(Initial {
            sign: place(),
            value: Expr::Left(Left::Member(node(0), selector)),
        }),
    }))?;
    stmts.push(Stmt::Return(place(), Some(Expr::Left(Left::Name(reference(2, 6))))))?;
    Ok(Decl::Function(Function {
        result: int_type(),
        name: name(5),
        params: Items::new(alloc),
        body: Block { at: place(), stmts },
    }))
}

// `struct A { int x; }; struct B : public A { int y; }; B b;` and `main`
fn program(alloc: Global) -> Result<Program, Memory> {
    let mut decls = Items::new(alloc);
    decls.push(class(alloc, 0, None, 2)?)?;
    decls.push(class(alloc, 1, Some(name(0)), 3)?)?;
    decls.push(Decl::Global(cxx_tree::Global::Object(Object {
        class: name(1),
        name: name(4),
        arguments: Items::new(alloc),
    })))?;
    decls.push(main_function(alloc)?)?;
    Ok(Program {
        at: place(),
        directives: Items::new(alloc),
        decls,
    })
}

// `A`, `B`, `x`, `y`, `b`, `main` and `n` with the numbers from 0
fn names(alloc: Global) -> Result<Names, Memory> {
    let mut names = Names::new(alloc);
    names.intern(b"A".as_slice())?;
    names.intern(b"B".as_slice())?;
    names.intern(b"x".as_slice())?;
    names.intern(b"y".as_slice())?;
    names.intern(b"b".as_slice())?;
    names.intern(b"main".as_slice())?;
    names.intern(b"n".as_slice())?;
    Ok(names)
}

// the program, with the number of `main`
fn typed(alloc: Global) -> Result<Option<(Typed, NameId)>, Memory>
    ensures { IfOk result (λ checked. IfSome checked (λ pair. IsSome (text_of pair.0 pair.1))) }
{
    let mut names = names(alloc)?;
    let main = names.intern(b"main".as_slice())?;
    match check(alloc, &names, program(alloc)?, Mode::Source) {
        Ok(typed) => Ok(Some((typed, main))),
        Err(_) => Ok(None),
    }
}

#[test]
fn tells_of_nodes_and_classes(rt: HostRuntime) -> Result<(), Fail> {
    let Ok(Some((typed, main))) = typed(rt.alloc()) else {
        return Err("no memory, or refused")?;
    };
    let int = TypeName::Num(NumKind::I32);
    assert_eq!(rt; typed.program().decls.len(), 4);
    assert_eq!(rt; typed.text_of(main), b"main".as_slice());
    assert_eq!(rt; typed.type_of(NodeId(0)), int);
    assert_eq!(rt; typed.type_of(NodeId(1)), TypeName::Void);
    assert_eq!(rt; typed.type_of(NodeId(2)), int);
    assert_eq!(rt; typed.type_of(NodeId(3)), TypeName::Void);
    assert_eq!(rt;
        typed.meaning_of(NodeId(0)),
        Meaning::Member(ClassId(0), NameId(2))
    );
    assert_eq!(rt; typed.meaning_of(NodeId(1)), Meaning::Global(NameId(4)));
    assert_eq!(rt; typed.meaning_of(NodeId(2)), Meaning::Local(NameId(6)));
    assert_eq!(rt; typed.meaning_of(NodeId(3)), Meaning::Other);
    assert!(rt; typed.derives(ClassId(1), ClassId(0)));
    assert!(rt; !typed.derives(ClassId(0), ClassId(1)));
    let _none = Chains::new(rt.alloc());
    Ok(())
}
