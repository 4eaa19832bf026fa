//! Programs and their normal forms, worked out by hand from its rules.

use agxx_base::{Header, Memory, NameId, Names, NodeId, NumKind, Place};
use cxx_normal::normal;
use cxx_tree::{
    Access, Block, Class, ClassWord, Ctor, Decl, Directive, Expr, Function, Init, Item, Left,
    Member, Name, Node, Number, Placed, Program, Simple, Stmt, TypeName, node_count, same,
};
use sqlite_items::Items;
use std::alloc::Global;
use std::test::Fail;

fn place(line: u32) -> Place {
    Place {
        file: 0,
        line,
        column: 1,
    }
}

fn name(line: u32, number: u32) -> Name {
    Placed {
        at: place(line),
        item: NameId(number),
    }
}

fn int_type(line: u32) -> Placed<TypeName> {
    Placed {
        at: place(line),
        item: TypeName::Int,
    }
}

// `m(value)`, where `m` is the name `number`
fn init(alloc: Global, number: u32, value: u64) -> Result<Init, Memory> {
    let node = Node {
        at: place(4),
        id: NodeId(7),
    };
    let mut arguments = Items::new(alloc);
    arguments.push(Expr::Lit(
        node,
        Number {
            bits: value,
            kind: NumKind::I32,
        },
    ))?;
    Ok(Init {
        name: name(4, number),
        arguments,
    })
}

// `C() : b(2), a(1) {}`, where `C`, `a` and `b` are the names 1, 2 and 3
fn ctor(alloc: Global) -> Result<Ctor, Memory> {
    let mut inits = Items::new(alloc);
    inits.push(init(alloc, 3, 2)?)?;
    inits.push(init(alloc, 2, 1)?)?;
    Ok(Ctor {
        name: name(4, 1),
        params: Items::new(alloc),
        inits,
        body: Block {
            at: place(4),
            stmts: Items::new(alloc),
        },
    })
}

fn member(line: u32, number: u32) -> Item {
    Item::Member(Member {
        type_name: int_type(line),
        name: name(line, number),
    })
}

// `class C { private: int a; public: int b; public: C() : b(2), a(1) {} private: };`
fn class(alloc: Global) -> Result<Class, Memory> {
    let mut items = Items::new(alloc);
    items.push(Item::Label(place(1), Access::Private))?;
    items.push(member(2, 2))?;
    items.push(Item::Label(place(3), Access::Public))?;
    items.push(member(3, 3))?;
    items.push(Item::Label(place(4), Access::Public))?;
    items.push(Item::Ctor(ctor(alloc)?))?;
    items.push(Item::Label(place(5), Access::Private))?;
    Ok(Class {
        at: place(1),
        word: ClassWord::Class,
        name: name(1, 1),
        base: None,
        items,
    })
}

// `int f() {}`, where `f` is the name `number`
fn function(alloc: Global, line: u32, number: u32) -> Function {
    Function {
        result: int_type(line),
        name: name(line, number),
        params: Items::new(alloc),
        body: Block {
            at: place(line),
            stmts: Items::new(alloc),
        },
    }
}

// `#pragma once`, the class, `int main() {}` and a function with the name 4
fn program(alloc: Global) -> Result<Program, Memory> {
    let mut directives = Items::new(alloc);
    directives.push(Directive::Pragma)?;
    let mut decls = Items::new(alloc);
    decls.push(Decl::Class(class(alloc)?))?;
    decls.push(Decl::Function(function(alloc, 6, 0)))?;
    decls.push(Decl::Function(function(alloc, 7, 4)))?;
    Ok(Program {
        at: place(1),
        directives,
        decls,
    })
}

// The program's normal form, and the normal form of this.
fn normal_twice(alloc: Global) -> Result<(Program, Program), Memory> {
    let mut names = Names::new(alloc);
    let _main = names.intern(b"main".as_slice())?;
    let first = normal(alloc, &program(alloc)?, &mut names)?;
    let second = normal(alloc, &first, &mut names)?;
    Ok((first, second))
}

#[test]
fn orders_declarations(rt: HostRuntime) -> Result<(), Fail> {
    let Ok((first, second)) = normal_twice(rt.alloc()) else {
        return Err("no memory")?;
    };
    assert!(rt;
        matches!(
            first.directives.as_slice(),
            [
                Directive::Include(Header::Cstdint),
                Directive::Include(Header::Cstdlib),
                Directive::Include(Header::Iostream),
                Directive::Include(Header::Mutex),
                Directive::Include(Header::Thread),
            ]
        )
    );
    assert!(rt;
        matches!(
            first.decls.as_slice(),
            [
                Decl::ClassName(_),
                Decl::Proto(_),
                Decl::Class(_),
                Decl::Function(_),
                Decl::Function(_),
            ]
        )
    );
    assert!(rt; same(&first, &second));
    // `this->a`, `1`, `this->b`, `2` and the `0` of `main`
    assert_eq!(rt; node_count(&first), 5);
    Ok(())
}

// The number of the member that a statement assigns to, and of the node on its left.
fn assigned(stmt: &Stmt) -> (u32, u32) {
    match stmt {
        Stmt::Simple(Simple::Assign(assign)) => match assign.left {
            Left::Member(node, selector) => (selector.name.item.0, node.id.0),
            _ => (0, 0),
        },
        _ => (0, 0),
    }
}

#[test]
fn rebuilds_classes(rt: HostRuntime) -> Result<(), Fail> {
    let Ok((first, _)) = normal_twice(rt.alloc()) else {
        return Err("no memory")?;
    };
    let [_, _, Decl::Class(class), ..] = first.decls.as_slice() else {
        return Err("no class")?;
    };
    let [
        Item::Member(_),
        Item::Label(_, Access::Public),
        Item::Member(_),
        Item::Ctor(ctor),
        Item::Dtor(_),
    ] = class.items.as_slice()
    else {
        return Err("other items")?;
    };
    assert!(rt; ctor.inits.is_empty());
    let [a, b] = ctor.body.stmts.as_slice() else {
        return Err("other statements")?;
    };
    assert_eq!(rt; assigned(a), (2, 0));
    assert_eq!(rt; assigned(b), (3, 2));
    Ok(())
}
