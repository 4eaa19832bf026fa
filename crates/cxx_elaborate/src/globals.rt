//! Globals.

ghost use Rattle.std.specs.Prelude.{◌≡◌, ◌∷◌, ◌++◌, [], ◌%◌, ◌^◌, ◌≤◌, map, neg_ℤ, IfOk, OnOk};
ghost use Rattle.cxx_arith.specs.Kinds as kinds;
ghost use Rattle.cxx_arith.specs.Numbers as numbers;
ghost use Rattle.cxx_tree.specs.ProgramTree as tree;
ghost use Rattle.cxx_tree.specs.ProgramTree.{object_tree, global_tree, decl_tree};
ghost use Rattle.cxx_core.specs.ExprView.{exprs_core};
ghost use Rattle.cxx_core.specs.ProgramView.{global_core};
ghost use Rattle.cxx_core.specs.ElaboratedProgram as spec;

use crate::elaborator::Elaborator;
use crate::expressions::literal;
use agxx_base::{ClassId, Memory, NameId, NumKind, Place};
use cxx_arith::{Value, convert, flag, number};
use cxx_core::{Expr, Global};
use cxx_names::{Table, ValueType};
use cxx_tree::{Const, Decl, Object, Placed};
use sqlite_items::Items;

/// How many bits a number of the kind has.
fn width(kind: NumKind) -> u32
    ensures value { result ≡ kinds.width kind }
    ensures low { 1 ≤ result }
    ensures high { result ≤ 64 }
{
    match kind {
        NumKind::Bool => 1,
        NumKind::I8 | NumKind::U8 => 8,
        NumKind::I16 | NumKind::U16 => 16,
        NumKind::I32 | NumKind::U32 => 32,
        NumKind::I64 | NumKind::U64 => 64,
    }
}

/// The bits that a value of the kind has.
fn lowest(kind: NumKind, bits: u128) -> u64
    ensures { result ≡ bits % 2 ^ kinds.width kind }
{
    (bits % (1 << width(kind))) as u64
}

/// The value of a whole number in a kind.
fn value_of(kind: NumKind, number: i128) -> Value
    ensures { result ≡ numbers.value_of kind number }
{
    let bits = lowest(kind, number.cast_unsigned());
    Value { kind, bits }
}

/// The value with `-` before it.
#[tactic(auto, using(cxx_arith::proofs::Wide::wide))]
fn negative(value: Value) -> Value
    ensures { result ≡ numbers.value_of value.kind (neg_ℤ (numbers.number value)) }
{
    value_of(value.kind, -number(value))
}

fn const_value(constant: Const) -> Value
    ensures { result ≡ spec.const_value constant }
{
    match constant {
        Const::Number(true, number) => negative(literal(number)),
        Const::Number(false, number) => literal(number),
        Const::Flag(is_set) => flag(is_set),
        Const::Null => flag(false),
    }
}

/// The value that a global of a kind has at first.
fn first_value(kind: NumKind, initial: Option<Placed<Const>>) -> Value
    ensures { result ≡ spec.first_value kind initial }
{
    match initial {
        None => Value { kind, bits: 0 },
        Some(initial) => convert(kind, const_value(initial.item)),
    }
}

fn variable_as(
    at: Place,
    name: NameId,
    value_type: Option<ValueType>,
    initial: Option<Placed<Const>>,
) -> Global
    ensures { global_core result ≡ spec.variable_as at name.0 value_type initial }
{
    match value_type {
        Some(ValueType::Number(kind)) => Global::Number(name, first_value(kind, initial)),
        Some(ValueType::Pointer(class)) => Global::Pointer(name, class),
        _ => Global::Wrong(at),
    }
}

fn object_as(at: Place, name: NameId, class: Option<ClassId>, arguments: Items<Expr>) -> Global
    ensures { global_core result ≡ spec.object_as at name.0 class (exprs_core arguments) }
{
    match class {
        None => Global::Wrong(at),
        Some(class) => Global::Object(at, name, class, arguments),
    }
}

impl<'a> Elaborator<'a> {
    fn object(&self, object: &Object) -> Result<Global, Memory>
        ensures { IfOk result (λ g. global_core g ≡
            spec.core_global self.now (tree.object (object_tree object.now))) }
    {
        let class = self.declared.class_named(object.class.item);
        let arguments = self.exprs(&Table::new(self.alloc), object.arguments.as_slice())?;
        Ok(object_as(object.class.at, object.name.item, class, arguments))
    }

    fn global(&self, global: &cxx_tree::Global) -> Result<Global, Memory>
        ensures { IfOk result (λ g. global_core g ≡ spec.core_global self.now (global_tree global.now)) }
    {
        match global {
            cxx_tree::Global::Variable(variable) => {
                let type_name = variable.type_name;
                let value_type = self.type_named(type_name.item);
                let name = variable.name.item;
                Ok(variable_as(type_name.at, name, value_type, variable.initial))
            }
            cxx_tree::Global::Object(object) => self.object(object),
            cxx_tree::Global::Mutex(_, name) => Ok(Global::Mutex(name.item)),
        }
    }

    fn add_global(&self, decl: &Decl, globals: &mut Items<Global>) -> Result<(), Memory>
        ensures { OnOk result (map global_core globals.new ≡
            map global_core globals.old ++ spec.decls_globals self.now (decl_tree decl.now ∷ [])) }
    {
        match decl {
            Decl::Global(global) => {
                let made = self.global(global)?;
                globals.push(made)?;
                Ok(())
            }
            _ => Ok(()),
        }
    }

    /// The globals of a program, in order of declaration.
    pub(crate) fn globals(&self, decls: &[Decl]) -> Result<Items<Global>, Memory>
        ensures { IfOk result (λ globals. map global_core globals ≡
            spec.decls_globals self.now (map decl_tree decls.now)) }
    {
        let mut globals = Items::new(self.alloc);
        for decl in decls {
            self.add_global(decl, &mut globals)?;
        }
        Ok(globals)
    }
}
