//! The trees of programs and of aspect files, one type for each line of the grammar with the parts of the line as
//! fields. An expression and each reference to a name has a `Node`; every other tree has its place in a field or in
//! its first part, and so has each name, type, operator and string of which a rule may speak.
//!
//! The layers above build the trees in place. What their contracts cite is the mirror of the trees as plain data:
//! `expr_tree`, `stmt_tree`, `block_tree`, `program_tree`, `pointcut_tree`, `aspects_tree` and their kin in
//! `specs/ExprTree`, `StmtTree`, `ProgramTree` and `AspectTree`. `Words` has the tokens as the grammar sees them,
//! `Spelling` and `AspectSpelling` the tokens of each tree.
#![tactic(auto)]

mod aspect;
mod count;
mod equality;
mod expr;
mod laws;
mod node;
mod operator;
mod program;
mod stmt;

pub use aspect::{
    Advice, ArgsEntry, Aspect, AspectItem, Aspects, Moment, Order, Pointcut, PointcutDecl,
    PointcutFunction, PointcutOp, Slice, SliceItem,
};
pub use count::node_count;
pub use equality::same;
pub use expr::{Base, Call, Callee, Expr, Left, Ref, Selector};
pub use laws::{
    folds_go_by_parts, larger_limits_fit, maps_compose, nodes_are_folded, same_is_equivalence,
    same_is_spelled_alike, walks_fold,
};
pub use node::{Name, Node, Number, Placed, Quoted};
pub use operator::{BinOp, UnOp};
pub use program::{
    Access, Class, ClassName, ClassWord, Const, Ctor, Decl, Directive, Dtor, Function, Global,
    Init, Item, Member, Object, Param, Program, Proto, TypeName, Variable,
};
pub use stmt::{
    Assign, Block, Bump, Else, For, If, Initial, Local, Print, Printed, Simple, Start, Stmt,
    Thread, While,
};
