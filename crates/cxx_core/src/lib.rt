//! Programs as a machine runs them: each name with its meaning, each operator with the types of its operands, and
//! nothing of the text but the places that a stop tells. The forms stand in `specs`: `CoreExpr`, `CoreStmt` and
//! `CoreProgram`; `Meanings`, `ElaboratedExpr`, `ElaboratedStmt` and `ElaboratedProgram` make them of trees.
#![tactic(auto)]

mod expr;
mod program;
mod stmt;
mod types;

pub use expr::{Callee, Expr, Left, Member, Object, Variable};
pub use program::{Class, Function, FunctionKind, Global, Param, Program, Word};
pub use stmt::{Mutex, Printed, Source, Stmt};
pub use types::{binary_type, left_type, type_of, unary_type};
