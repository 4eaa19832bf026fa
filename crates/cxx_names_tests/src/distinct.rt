//! Programs whose distinct names were counted by hand.

use agxx_base::{Memory, NameId, NodeId, Place};
use cxx_distinct::name_past;
use cxx_tree::{
    Base, BinOp, Block, ClassName, ClassWord, Decl, Expr, Function, Global, Left, Name, Node,
    Param, Placed, Program, Proto, Ref, Selector, Stmt, TypeName, Variable,
};
use sqlite_items::{Boxed, Items};
use std::alloc::Global as Heap;
use std::test::Fail;

fn place(line: u32) -> Place {
    Place {
        file: 0,
        line,
        column: 1,
    }
}

fn name(line: u32, number: u32) -> Name {
    Placed {
        at: place(line),
        item: NameId(number),
    }
}

fn type_at(line: u32, type_name: TypeName) -> Placed<TypeName> {
    Placed {
        at: place(line),
        item: type_name,
    }
}

fn reference(line: u32, number: u32) -> Ref {
    Ref {
        node: Node {
            at: place(line),
            id: NodeId(line),
        },
        global: false,
        name: name(line, number),
    }
}

// `g + p->m`, where `g` is the name 1, `p` the name 4 and `m` the name 5
fn sum(alloc: Heap) -> Result<Expr, Memory> {
    let g = reference(6, 1);
    let selector = Selector {
        base: Base::Arrow(reference(7, 4)),
        name: name(8, 5),
    };
    let left = Boxed::new(alloc, Expr::Left(Left::Name(g)))?;
    let right = Boxed::new(alloc, Expr::Left(Left::Member(g.node, selector)))?;
    let sign = Placed {
        at: place(6),
        item: BinOp::Add,
    };
    Ok(Expr::Binary(g.node, sign, left, right))
}

// `int f(C *p) { return g + p->m; }`, where `f` is the name 2 and `C` the name 3
fn function(alloc: Heap) -> Result<Function, Memory> {
    let mut params = Items::new(alloc);
    params.push(Param {
        type_name: type_at(4, TypeName::Pointer(NameId(3))),
        name: name(5, 4),
    })?;
    let mut stmts = Items::new(alloc);
    stmts.push(Stmt::Return(place(6), Some(sum(alloc)?)))?;
    Ok(Function {
        result: type_at(3, TypeName::Int),
        name: name(3, 2),
        params,
        body: Block {
            at: place(5),
            stmts,
        },
    })
}

// `class C;`, `int h();`, `int g;` and the function, each name on a line of its own
fn program(alloc: Heap) -> Result<Program, Memory> {
    let mut decls = Items::new(alloc);
    decls.push(Decl::ClassName(ClassName {
        at: place(1),
        word: ClassWord::Class,
        name: name(1, 3),
    }))?;
    decls.push(Decl::Proto(Proto {
        result: type_at(1, TypeName::Int),
        name: name(1, 0),
        params: Items::new(alloc),
    }))?;
    decls.push(Decl::Global(Global::Variable(Variable {
        type_name: type_at(2, TypeName::Int),
        name: name(2, 1),
        initial: None,
    })))?;
    decls.push(Decl::Function(function(alloc)?))?;
    Ok(Program {
        at: place(1),
        directives: Items::new(alloc),
        decls,
    })
}

// The line of the name past so many, or 0 where there is none.
fn line_past(alloc: Heap, limit: usize) -> Result<u32, Memory> {
    match name_past(alloc, limit, &program(alloc)?)? {
        None => Ok(0),
        Some(place) => Ok(place.line),
    }
}

#[test]
fn finds_names_in_text_order(rt: HostRuntime) -> Result<(), Fail> {
    // `g`, `f`, `C`, `p` and `m`
    for (limit, line) in [(0, 2), (1, 3), (2, 4), (3, 5), (4, 8), (5, 0), (100, 0)] {
        let Ok(found) = line_past(rt.alloc(), limit) else {
            return Err("no memory")?;
        };
        assert_eq!(rt; found, line);
    }
    Ok(())
}
