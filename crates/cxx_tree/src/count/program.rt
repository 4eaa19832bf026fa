//! The nodes of programs and their declarations.

ghost use Rattle.std.specs.Prelude.{◌≡◌, ◌+◌, map, sum_by};
ghost use Rattle.cxx_tree.specs.ProgramTree.{init_tree, item_tree, decl_tree, program_tree};
ghost use Rattle.cxx_tree.specs.Nodes.{capped, nodes_in_init, nodes_in_item, nodes_in_decl, nodes_in_program};

use super::expr::with_exprs;
use super::stmt::with_block;
use crate::program::{Decl, Global, Init, Item, Program};

fn with_inits(count: u64, inits: &[Init]) -> u64
    ensures { result ≡ capped (count + sum_by nodes_in_init (map init_tree inits.now)) }
{
    let mut total = count;
    for init in inits {
        total = with_exprs(total, init.arguments.as_slice());
    }
    total
}

fn with_item(count: u64, item: &Item) -> u64
    ensures { result ≡ capped (count + nodes_in_item (item_tree item.now)) }
{
    match item {
        Item::Label(_, _) => count,
        Item::Member(_) => count,
        Item::Function(function) => with_block(count, &function.body),
        Item::Ctor(ctor) => with_block(with_inits(count, ctor.inits.as_slice()), &ctor.body),
        Item::Dtor(dtor) => with_block(count, &dtor.body),
    }
}

fn with_items(count: u64, items: &[Item]) -> u64
    ensures { result ≡ capped (count + sum_by nodes_in_item (map item_tree items.now)) }
{
    let mut total = count;
    for item in items {
        total = with_item(total, item);
    }
    total
}

fn with_decl(count: u64, decl: &Decl) -> u64
    ensures { result ≡ capped (count + nodes_in_decl (decl_tree decl.now)) }
{
    match decl {
        Decl::Class(class) => with_items(count, class.items.as_slice()),
        Decl::ClassName(_) => count,
        Decl::Function(function) => with_block(count, &function.body),
        Decl::Proto(_) => count,
        Decl::Global(Global::Variable(_)) => count,
        Decl::Global(Global::Object(object)) => with_exprs(count, object.arguments.as_slice()),
        Decl::Global(Global::Mutex(_, _)) => count,
    }
}

fn with_decls(count: u64, decls: &[Decl]) -> u64
    ensures { result ≡ capped (count + sum_by nodes_in_decl (map decl_tree decls.now)) }
{
    let mut total = count;
    for decl in decls {
        total = with_decl(total, decl);
    }
    total
}

/// How many nodes a program has, or 2^64 - 1 where it has more. A node is an expression or a reference to a name: what
/// has a `Node`, and so a number of its own.
pub fn node_count(program: &Program) -> u64
    ensures { result ≡ capped (nodes_in_program (program_tree program.now)) }
{
    with_decls(0, program.decls.as_slice())
}
