//! Equality of programs and their declarations but for places and numbers of nodes.

ghost use Rattle.std.specs.Prelude.{◌≡◌, ◌↔◌, IsTrue, map, option_map};
ghost use Rattle.cxx_tree.specs.ProgramTree.{function_tree, init_tree, ctor_tree, dtor_tree, item_tree, class_tree};
ghost use Rattle.cxx_tree.specs.ProgramTree.{object_tree, global_tree, decl_tree, program_tree};
ghost use Rattle.cxx_tree.specs.Blank.{blank_placed, blank_param, blank_member, blank_function, blank_proto};
ghost use Rattle.cxx_tree.specs.Blank.{blank_init, blank_ctor, blank_dtor, blank_item, blank_class, blank_class_name};
ghost use Rattle.cxx_tree.specs.Blank.{blank_variable, blank_object, blank_global, blank_decl};
ghost use Rattle.cxx_tree.specs.Same.{IsSame};

use super::expr::same_exprs;
use super::stmt::same_block;
use crate::node::{Name, Placed};
use crate::program::{
    Class, ClassName, Const, Ctor, Decl, Directive, Dtor, Function, Global, Init, Item, Member,
    Object, Param, Program, Proto, Variable,
};

fn same_param(a: &Param, b: &Param) -> bool
    ensures { IsTrue result ↔ (blank_param a.now ≡ blank_param b.now) }
{
    a.type_name.item == b.type_name.item && a.name.item == b.name.item
}

fn same_params(a: &[Param], b: &[Param]) -> bool
    ensures { IsTrue result ↔ (map blank_param a.now ≡ map blank_param b.now) }
{
    all_same!(a, b, same_param)
}

fn same_member(a: &Member, b: &Member) -> bool
    ensures { IsTrue result ↔ (blank_member a.now ≡ blank_member b.now) }
{
    a.type_name.item == b.type_name.item && a.name.item == b.name.item
}

fn same_function(a: &Function, b: &Function) -> bool
    ensures { IsTrue result ↔ (blank_function (function_tree a.now) ≡ blank_function (function_tree b.now)) }
{
    a.result.item == b.result.item
        && a.name.item == b.name.item
        && same_params(a.params.as_slice(), b.params.as_slice())
        && same_block(&a.body, &b.body)
}

fn same_proto(a: &Proto, b: &Proto) -> bool
    ensures { IsTrue result ↔ (blank_proto a.now ≡ blank_proto b.now) }
{
    a.result.item == b.result.item
        && a.name.item == b.name.item
        && same_params(a.params.as_slice(), b.params.as_slice())
}

fn same_init(a: &Init, b: &Init) -> bool
    ensures { IsTrue result ↔ (blank_init (init_tree a.now) ≡ blank_init (init_tree b.now)) }
{
    a.name.item == b.name.item && same_exprs(a.arguments.as_slice(), b.arguments.as_slice())
}

fn same_inits(a: &[Init], b: &[Init]) -> bool
    ensures { IsTrue result ↔ (map blank_init (map init_tree a.now) ≡ map blank_init (map init_tree b.now)) }
{
    all_same!(a, b, same_init)
}

fn same_ctor(a: &Ctor, b: &Ctor) -> bool
    ensures { IsTrue result ↔ (blank_ctor (ctor_tree a.now) ≡ blank_ctor (ctor_tree b.now)) }
{
    a.name.item == b.name.item
        && same_params(a.params.as_slice(), b.params.as_slice())
        && same_inits(a.inits.as_slice(), b.inits.as_slice())
        && same_block(&a.body, &b.body)
}

fn same_dtor(a: &Dtor, b: &Dtor) -> bool
    ensures { IsTrue result ↔ (blank_dtor (dtor_tree a.now) ≡ blank_dtor (dtor_tree b.now)) }
{
    a.name.item == b.name.item && same_block(&a.body, &b.body)
}

fn same_item(a: &Item, b: &Item) -> bool
    ensures { IsTrue result ↔ (blank_item (item_tree a.now) ≡ blank_item (item_tree b.now)) }
{
    match (a, b) {
        (Item::Label(_, a), Item::Label(_, b)) => a == b,
        (Item::Member(a), Item::Member(b)) => same_member(a, b),
        (Item::Function(a), Item::Function(b)) => same_function(a, b),
        (Item::Ctor(a), Item::Ctor(b)) => same_ctor(a, b),
        (Item::Dtor(a), Item::Dtor(b)) => same_dtor(a, b),
        _ => false,
    }
}

fn same_items(a: &[Item], b: &[Item]) -> bool
    ensures { IsTrue result ↔ (map blank_item (map item_tree a.now) ≡ map blank_item (map item_tree b.now)) }
{
    all_same!(a, b, same_item)
}

fn same_base_class(a: &Option<Name>, b: &Option<Name>) -> bool
    ensures { IsTrue result ↔ (option_map blank_placed a.now ≡ option_map blank_placed b.now) }
{
    match (a, b) {
        (None, None) => true,
        (Some(a), Some(b)) => a.item == b.item,
        _ => false,
    }
}

fn same_class(a: &Class, b: &Class) -> bool
    ensures { IsTrue result ↔ (blank_class (class_tree a.now) ≡ blank_class (class_tree b.now)) }
{
    a.word == b.word
        && a.name.item == b.name.item
        && same_base_class(&a.base, &b.base)
        && same_items(a.items.as_slice(), b.items.as_slice())
}

fn same_class_name(a: &ClassName, b: &ClassName) -> bool
    ensures { IsTrue result ↔ (blank_class_name a.now ≡ blank_class_name b.now) }
{
    a.word == b.word && a.name.item == b.name.item
}

fn same_constant(a: &Option<Placed<Const>>, b: &Option<Placed<Const>>) -> bool
    ensures { IsTrue result ↔ (option_map blank_placed a.now ≡ option_map blank_placed b.now) }
{
    match (a, b) {
        (None, None) => true,
        (Some(a), Some(b)) => a.item == b.item,
        _ => false,
    }
}

fn same_variable(a: &Variable, b: &Variable) -> bool
    ensures { IsTrue result ↔ (blank_variable a.now ≡ blank_variable b.now) }
{
    a.type_name.item == b.type_name.item
        && a.name.item == b.name.item
        && same_constant(&a.initial, &b.initial)
}

fn same_object(a: &Object, b: &Object) -> bool
    ensures { IsTrue result ↔ (blank_object (object_tree a.now) ≡ blank_object (object_tree b.now)) }
{
    a.class.item == b.class.item
        && a.name.item == b.name.item
        && same_exprs(a.arguments.as_slice(), b.arguments.as_slice())
}

fn same_global(a: &Global, b: &Global) -> bool
    ensures { IsTrue result ↔ (blank_global (global_tree a.now) ≡ blank_global (global_tree b.now)) }
{
    match (a, b) {
        (Global::Variable(a), Global::Variable(b)) => same_variable(a, b),
        (Global::Object(a), Global::Object(b)) => same_object(a, b),
        (Global::Mutex(_, a), Global::Mutex(_, b)) => a.item == b.item,
        _ => false,
    }
}

fn same_decl(a: &Decl, b: &Decl) -> bool
    ensures { IsTrue result ↔ (blank_decl (decl_tree a.now) ≡ blank_decl (decl_tree b.now)) }
{
    match (a, b) {
        (Decl::Class(a), Decl::Class(b)) => same_class(a, b),
        (Decl::ClassName(a), Decl::ClassName(b)) => same_class_name(a, b),
        (Decl::Function(a), Decl::Function(b)) => same_function(a, b),
        (Decl::Proto(a), Decl::Proto(b)) => same_proto(a, b),
        (Decl::Global(a), Decl::Global(b)) => same_global(a, b),
        _ => false,
    }
}

fn same_directive(a: &Directive, b: &Directive) -> bool
    ensures { IsTrue result ↔ (a.now ≡ b.now) }
{
    a == b
}

fn same_decls(a: &[Decl], b: &[Decl]) -> bool
    ensures { IsTrue result ↔ (map blank_decl (map decl_tree a.now) ≡ map blank_decl (map decl_tree b.now)) }
{
    all_same!(a, b, same_decl)
}

fn same_directives(a: &[Directive], b: &[Directive]) -> bool
    ensures { IsTrue result ↔ (a.now ≡ b.now) }
{
    all_same!(a, b, same_directive)
}

/// Whether two programs differ in nothing but places and numbers of nodes.
pub fn same(a: &Program, b: &Program) -> bool
    ensures { IsTrue result ↔ IsSame (program_tree a.now) (program_tree b.now) }
{
    same_directives(a.directives.as_slice(), b.directives.as_slice())
        && same_decls(a.decls.as_slice(), b.decls.as_slice())
}
