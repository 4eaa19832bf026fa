//! Items: what is left to do in a frame.

use agxx_base::{ClassId, FnId, NameId, NumKind, ObjectId, Place};
use cxx_core::{Callee, Expr, Left, Stmt};
use cxx_names::ValueType;
use cxx_tree::{BinOp, UnOp};

/// What comes of a frame that runs off its end.
#[derive(Clone, Copy)]
pub enum Ending {
    Returns,
    /// The function has a result, so a value is missing.
    LacksValue,
    /// The object is destroyed.
    Destroys,
}

/// An item: what a frame does in one step. Trees are those of the program.
#[derive(Clone, Copy)]
pub enum Work<'p> {
    /// Constructs a global object, with the place of its class's name and the arguments.
    Make(Place, ObjectId, ClassId, &'p [Expr]),
    Build(Place, ObjectId, ClassId),
    Unmake(Place, ObjectId, ClassId),
    /// Enters `main`.
    Run,
    /// Ends the run with the value of `main`.
    Finish,
    Stmt(&'p Stmt),
    /// A `while` whose condition is tested once more.
    While(&'p Expr, &'p [Stmt]),
    Expr(&'p Expr),
    /// Reads what may be assigned to.
    Read(Left),
    OpOne(Place, UnOp),
    OpTwo(Place, BinOp),
    /// With the left side on top.
    OpLeft(Place, BinOp),
    Cast(NumKind),
    /// Of `&&` where true, else of `||`, with the right side.
    Short(bool, &'p Expr),
    Truth,
    Drop,
    Bind(NameId, ValueType),
    Put(Left),
    Keep(ValueType),
    Print(Place),
    Show(Place, &'p [u8]),
    Branch(&'p [Stmt], &'p [Stmt]),
    Loop(&'p Expr, &'p [Stmt]),
    /// The condition, the step and the body of a `for`.
    ForTest(&'p Expr, &'p [Stmt], &'p [Stmt]),
    ForLoop(&'p Expr, &'p [Stmt], &'p [Stmt]),
    Call(Callee),
    New(Place, ClassId),
    Delete(Place, ClassId),
    /// With the thread's name and its function.
    Spawn(Place, NameId, FnId),
    /// With the base's constructor.
    Up(Place, FnId),
    /// With the base's destructor.
    Down(Place, FnId),
    Leave(Place),
    End(Place, Ending),
}
