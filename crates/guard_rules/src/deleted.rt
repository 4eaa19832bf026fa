//! The rule that no object with a part deletes itself.

ghost use Rattle.std.specs.Prelude.{◌≡◌, map};
ghost use Rattle.cxx_tree.specs.ExprTree.{expr_tree};
ghost use Rattle.cxx_tree.specs.StmtTree.{stmt_tree, stmts_tree, block_tree, if_tree, else_tree};
ghost use Rattle.cxx_tree.specs.ProgramTree.{item_tree, decl_tree};
ghost use Rattle.guard_rules.specs.ThroughDeletes as spec;
ghost use Rattle.guard_rules.specs.Nearest.{through_each};

use crate::known::Known;
use agxx_base::{Place, Refusal, Rule, nearer};
use cxx_tree::{Block, Decl, Else, Expr, If, Item, Stmt};

fn if_this(found: Option<Refusal>, place: Place, pointer: &Expr) -> Option<Refusal>
    ensures { result ≡ spec.through_pointer place (expr_tree pointer.now) found }
{
    match pointer {
        Expr::This(_) => nearer(
            found,
            Refusal {
                rule: Rule::P5,
                place,
            },
        ),
        _ => found,
    }
}

#[cycle(deletes)]
fn in_stmt(found: Option<Refusal>, stmt: &Stmt) -> Option<Refusal>
    ensures { result ≡ spec.through (stmt_tree stmt.now) found }
{
    match stmt {
        Stmt::Block(block) => in_block(found, block),
        Stmt::If(branch) => in_if(found, branch),
        Stmt::While(repeat) => in_block(found, &repeat.body),
        Stmt::For(repeat) => in_block(found, &repeat.body),
        Stmt::Delete(place, pointer) => if_this(found, *place, pointer),
        Stmt::Local(_)
        | Stmt::Simple(_)
        | Stmt::Return(_, _)
        | Stmt::Print(_)
        | Stmt::Thread(_)
        | Stmt::Abort(_) => found,
    }
}

#[cycle(deletes)]
fn in_stmts(found: Option<Refusal>, stmts: &[Stmt]) -> Option<Refusal>
    ensures { result ≡ spec.through_stmts (stmts_tree stmts.now) found }
{
    let mut first = found;
    for stmt in stmts {
        first = in_stmt(first, stmt);
    }
    first
}

#[cycle(deletes)]
fn in_block(found: Option<Refusal>, block: &Block) -> Option<Refusal>
    ensures { result ≡ spec.through_block (block_tree block.now) found }
{
    in_stmts(found, block.stmts.as_slice())
}

#[cycle(deletes)]
fn in_if(found: Option<Refusal>, branch: &If) -> Option<Refusal>
    ensures { result ≡ spec.through_if (if_tree branch.now) found }
{
    let first = in_block(found, &branch.body);
    match &branch.otherwise {
        None => first,
        Some(otherwise) => in_else(first, otherwise),
    }
}

#[cycle(deletes)]
fn in_else(found: Option<Refusal>, otherwise: &Else) -> Option<Refusal>
    ensures { result ≡ spec.through_else (else_tree otherwise.now) found }
{
    match otherwise {
        Else::Branch(branch) => in_if(found, branch.get()),
        Else::Body(block) => in_block(found, block),
    }
}

fn in_item(found: Option<Refusal>, item: &Item) -> Option<Refusal>
    ensures { result ≡ spec.through_item (item_tree item.now) found }
{
    match item {
        Item::Label(_, _) => found,
        Item::Member(_) => found,
        Item::Function(function) => in_block(found, &function.body),
        Item::Ctor(ctor) => in_block(found, &ctor.body),
        Item::Dtor(dtor) => in_block(found, &dtor.body),
    }
}

fn in_items(found: Option<Refusal>, items: &[Item]) -> Option<Refusal>
    ensures { result ≡ through_each spec.through_item (map item_tree items.now) found }
{
    let mut first = found;
    for item in items {
        first = in_item(first, item);
    }
    first
}

impl<'a> Known<'a> {
    fn deletes_in_class(
        &self,
        found: Option<Refusal>,
        class: usize,
        items: &[Item],
    ) -> Option<Refusal>
        ensures { result ≡ spec.through_class self.now.guards self.now.declared class
            (map item_tree items.now) found }
    {
        if self.holds_part(class) {
            in_items(found, items)
        } else {
            found
        }
    }

    /// The first of what is found and each `delete this` in a class whose objects have a part.
    pub(crate) fn deletes(&self, found: Option<Refusal>, decls: &[Decl]) -> Option<Refusal>
        ensures { result ≡ spec.through_decls self.now.guards self.now.declared 0
            (map decl_tree decls.now) found }
    {
        let mut first = found;
        let mut classes = 0;
        for decl in decls {
            if let Decl::Class(class) = decl {
                first = self.deletes_in_class(first, classes, class.items.as_slice());
                classes += 1;
            }
        }
        first
    }
}
