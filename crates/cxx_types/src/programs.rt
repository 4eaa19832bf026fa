//! Globals, declarations and whole programs.

ghost use Rattle.std.specs.Prelude.{◌≡◌, suc, OnOk, IfOk, map};
ghost use Rattle.cxx_tree.specs.ProgramTree.{function_tree, class_tree, object_tree, global_tree};
ghost use Rattle.cxx_tree.specs.ProgramTree.{decl_tree, program_tree};
ghost use Rattle.cxx_types.specs.Programs as spec;

use crate::checker::Checker;
use crate::context::{Context, Owner};
use crate::conversion::may_convert;
use crate::expressions::count;
use crate::locals::following;
use crate::selections::value_of;
use agxx_base::{ClassId, Memory, Names, NumKind, Rule};
use cxx_names::{ValueType, is_text};
use cxx_tree::{Class, Const, Decl, Function, Global, Name, Object, Placed, TypeName, Variable};

/// What was seen of the declarations of a program.
#[derive(Clone, Copy)]
pub struct DeclsSeen {
    /// How many declarations there were.
    pub(crate) index: usize,
    pub(crate) classes: u32,
    /// Free functions.
    pub(crate) functions: usize,
    pub(crate) globals: usize,
}

const NONE_SEEN: DeclsSeen = DeclsSeen {
    index: 0,
    classes: 0,
    functions: 0,
    globals: 0,
};

fn const_type(constant: Const) -> ValueType
    ensures { result ≡ spec.const_type constant }
{
    match constant {
        Const::Number(_, number) => ValueType::Number(number.kind),
        Const::Flag(_) => ValueType::Number(NumKind::Bool),
        Const::Null => ValueType::Null,
    }
}

/// Where an expression stands that is part of no function.
fn outside(index: usize) -> Context
    ensures { result ≡ spec.outside index }
{
    Context {
        class: None,
        owner: Owner::Global,
        index,
    }
}

fn global_name(global: &Global) -> Name
    ensures { result ≡ spec.global_place (global_tree global.now) }
{
    match global {
        Global::Variable(variable) => variable.name,
        Global::Object(object) => object.name,
        Global::Mutex(_, name) => *name,
    }
}

fn is_int32(type_name: TypeName) -> bool
    ensures { result ≡ spec.is_int32 type_name }
{
    match type_name {
        TypeName::Num(NumKind::I32) => true,
        TypeName::Int => true,
        _ => false,
    }
}

fn is_main(names: &Names, decl: &Decl) -> bool
    ensures { result ≡ spec.is_main names.now (decl_tree decl.now) }
{
    match decl {
        Decl::Function(function) => {
            is_text(names, function.name.item, b"main".as_slice())
                && is_int32(function.result.item)
                && function.params.as_slice().is_empty()
        }
        _ => false,
    }
}

/// Whether there is a free function `main` without parameters and with an int32_t as its result.
pub(crate) fn has_main(names: &Names, decls: &[Decl]) -> bool
    ensures { result ≡ spec.has_main names.now (map decl_tree decls.now) }
{
    for decl in decls {
        if is_main(names, decl) {
            return true;
        }
    }
    false
}

fn following_class(number: u32) -> Result<u32, Memory>
    ensures { IfOk result (λ n. n ≡ suc number) }
{
    match number.checked_add(1) {
        Some(next) => Ok(next),
        None => Err(Memory),
    }
}

/// What was seen of the declarations after one more.
fn next_seen(seen: DeclsSeen, decl: &Decl) -> Result<DeclsSeen, Memory>
    ensures { IfOk result (λ next. next ≡ spec.next_seen (decl_tree decl.now) seen) }
{
    let index = following(seen.index)?;
    let next = DeclsSeen { index, ..seen };
    match decl {
        Decl::Class(_) => {
            let classes = following_class(seen.classes)?;
            Ok(DeclsSeen { classes, ..next })
        }
        Decl::ClassName(_) => Ok(next),
        Decl::Function(_) => {
            let functions = following(seen.functions)?;
            Ok(DeclsSeen { functions, ..next })
        }
        Decl::Proto(_) => Ok(next),
        Decl::Global(_) => {
            let globals = following(seen.globals)?;
            Ok(DeclsSeen { globals, ..next })
        }
    }
}

impl<'a> Checker<'a> {
    fn own_decl(&mut self, index: usize, name: Name) -> Result<(), Memory>
        ensures { OnOk result (self.new ≡ spec.own_decl index name self.old) }
    {
        let stands_before = self.declared.is_declared_before(name.item, index);
        self.require(Rule::N2, name.at, !stands_before)
    }

    fn initialised(
        &mut self,
        type_name: TypeName,
        initial: Option<Placed<Const>>,
    ) -> Result<(), Memory>
        ensures { OnOk result (self.new ≡ spec.initialised type_name initial self.old) }
    {
        match initial {
            None => Ok(()),
            Some(constant) => {
                let to = value_of(self.declared.thing_of(type_name));
                let from = Some(const_type(constant.item));
                let is_right = may_convert(self.declared, from, to);
                self.require(Rule::N3, constant.at, is_right)
            }
        }
    }

    #[tactic(auto, unfolding(crate::specs::Programs::variable))]
    fn variable(&mut self, variable: Variable) -> Result<(), Memory>
        ensures { OnOk result (self.new ≡ spec.variable variable self.old) }
    {
        self.variable_type(variable.type_name)?;
        self.initialised(variable.type_name.item, variable.initial)
    }

    #[tactic(auto, unfolding(crate::specs::Programs::object))]
    fn object(&mut self, index: usize, object: &Object) -> Result<(), Memory>
        ensures { OnOk result (self.new ≡ spec.object index (object_tree object.now) self.old) }
    {
        let arguments = object.arguments.as_slice();
        match self.declared.class_named(object.class.item) {
            None => {
                self.require(Rule::N1, object.class.at, false)?;
                self.arguments(outside(index), &[], arguments)?;
                Ok(())
            }
            Some(class) => {
                let at = object.name.at;
                let called = self.constructed(None, class, at, count(arguments))?;
                let accessible = self.dtor_is_accessible(None, class);
                self.require(Rule::N6, at, accessible)?;
                self.arguments(outside(index), called.params, arguments)?;
                Ok(())
            }
        }
    }

    fn global_item(&mut self, index: usize, global: &Global) -> Result<(), Memory>
        ensures { OnOk result (self.new ≡ spec.global_item index (global_tree global.now) self.old) }
    {
        match global {
            Global::Variable(variable) => self.variable(*variable),
            Global::Object(object) => self.object(index, object),
            Global::Mutex(_, _) => Ok(()),
        }
    }

    #[tactic(auto, unfolding(crate::specs::Programs::global))]
    fn global(&mut self, seen: DeclsSeen, global: &Global) -> Result<(), Memory>
        ensures { OnOk result (self.new ≡ spec.global seen (global_tree global.now) self.old) }
    {
        let name = global_name(global);
        let has_room = seen.globals != self.most.globals;
        self.require(Rule::N10, name.at, has_room)?;
        self.own_decl(seen.index, name)?;
        self.global_item(seen.index, global)
    }

    fn free_function(&mut self, seen: DeclsSeen, function: &Function) -> Result<(), Memory>
        ensures { OnOk result
            (self.new ≡ spec.free_function seen (function_tree function.now) self.old) }
    {
        let context = Context {
            class: None,
            owner: Owner::Function(function.result.item),
            index: seen.index,
        };
        let has_room = seen.functions != self.most.functions;
        self.require(Rule::N10, function.name.at, has_room)?;
        self.own_decl(seen.index, function.name)?;
        self.function(context, function)
    }

    fn class_decl(&mut self, seen: DeclsSeen, class: &Class) -> Result<(), Memory>
        ensures { OnOk result (self.new ≡ spec.class_decl seen (class_tree class.now) self.old) }
    {
        let declared = self.declared;
        let id = ClassId(seen.classes);
        let has_room = seen.classes as usize != self.most.classes;
        self.require(Rule::N10, class.name.at, has_room)?;
        self.own_decl(seen.index, class.name)?;
        match declared.class(id) {
            None => Ok(()),
            Some(info) => {
                let context = Context {
                    class: Some(id),
                    owner: Owner::Lifecycle,
                    index: seen.index,
                };
                self.class(context, info, class)
            }
        }
    }

    fn decl(&mut self, seen: DeclsSeen, decl: &Decl) -> Result<(), Memory>
        ensures { OnOk result (self.new ≡ spec.decl seen (decl_tree decl.now) self.old) }
    {
        match decl {
            Decl::Class(class) => self.class_decl(seen, class),
            Decl::ClassName(_) => Ok(()),
            Decl::Function(function) => self.free_function(seen, function),
            Decl::Proto(_) => Ok(()),
            Decl::Global(global) => self.global(seen, global),
        }
    }

    /// All declarations of a program.
    pub(crate) fn decls(&mut self, decls: &[Decl]) -> Result<(), Memory>
        ensures { OnOk result
            (self.new ≡ spec.decls spec.none_seen (map decl_tree decls.now) self.old) }
    {
        let mut seen = NONE_SEEN;
        for decl in decls {
            self.decl(seen, decl)?;
            seen = next_seen(seen, decl)?;
        }
        Ok(())
    }
}
