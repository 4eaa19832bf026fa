use agxx_base::{NameId, NodeId, NumKind, Place};
use cxx_tree::*;
use sqlite_items::{Boxed, Items};
use std::alloc::{AllocError, Global};
use std::test::Fail;

fn node(line: u32) -> Node {
    Node {
        at: Place {
            file: 0,
            line,
            column: 1,
        },
        id: NodeId(line),
    }
}

fn name(line: u32, number: u32) -> Name {
    Placed {
        at: Place {
            file: 0,
            line,
            column: 1,
        },
        item: NameId(number),
    }
}

fn int_type(line: u32) -> Placed<TypeName> {
    Placed {
        at: Place {
            file: 0,
            line,
            column: 1,
        },
        item: TypeName::Int,
    }
}

// `f(a op 1)`, where `f` is the name 0 and `a` the name 1
fn call(alloc: Global, line: u32, op: BinOp) -> Result<Expr, AllocError> {
    let a = Expr::Left(Left::Name(Ref {
        node: node(line),
        global: false,
        name: name(line, 1),
    }));
    let one = Expr::Lit(
        node(line),
        Number {
            bits: 1,
            kind: NumKind::I32,
        },
    );
    let sign = Placed {
        at: Place {
            file: 0,
            line,
            column: 5,
        },
        item: op,
    };
    let sum = Expr::Binary(
        node(line),
        sign,
        Boxed::new(alloc, a)?,
        Boxed::new(alloc, one)?,
    );
    let mut arguments = Items::new(alloc);
    arguments.push(sum)?;
    let callee = Callee::Bare(Ref {
        node: node(line),
        global: false,
        name: name(line, 0),
    });
    Ok(Expr::Call(Call {
        node: node(line),
        callee,
        arguments,
    }))
}

// `int f() { return f(a op 1); }`
fn program(alloc: Global, line: u32, op: BinOp) -> Result<Program, AllocError> {
    let at = Place {
        file: 0,
        line,
        column: 1,
    };
    let mut stmts = Items::new(alloc);
    stmts.push(Stmt::Return(at, Some(call(alloc, line, op)?)))?;
    let mut decls = Items::new(alloc);
    decls.push(Decl::Function(Function {
        result: int_type(line),
        name: name(line, 0),
        params: Items::new(alloc),
        body: Block { at, stmts },
    }))?;
    Ok(Program {
        at,
        directives: Items::new(alloc),
        decls,
    })
}

#[test]
fn compares_and_counts(rt: HostRuntime) -> Result<(), Fail> {
    let first = program(rt.alloc(), 1, BinOp::Add)?;
    let moved = program(rt.alloc(), 2, BinOp::Add)?;
    let other = program(rt.alloc(), 1, BinOp::Subtract)?;
    assert!(rt; same(&first, &moved));
    assert!(rt; !same(&first, &other));
    // the call, `f`, the sum, `a` and `1`
    assert_eq!(rt; node_count(&first), 5);
    Ok(())
}

fn one_aspect(alloc: Global, number: u32) -> Result<Aspects, AllocError> {
    let mut all = Aspects::new(alloc);
    all.aspects.push(Aspect {
        at: Place {
            file: 0,
            line: 1,
            column: 1,
        },
        name: name(1, number),
        base: None,
        items: Items::new(alloc),
    })?;
    Ok(all)
}

#[test]
fn appends_aspects(rt: HostRuntime) -> Result<(), Fail> {
    let mut all = one_aspect(rt.alloc(), 3)?;
    let added = all.append(one_aspect(rt.alloc(), 4)?);
    assert!(rt; added.is_ok());
    assert_eq!(rt; all.aspects.len(), 2);
    assert_eq!(rt; all.aspects[0].name.item.0, 3);
    assert_eq!(rt; all.aspects[1].name.item.0, 4);
    Ok(())
}
