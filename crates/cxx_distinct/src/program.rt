//! The names in programs and their declarations.
#![tactic(auto, using(crate::proofs::Runs::seen_append))]

ghost use Rattle.std.specs.Prelude.{◌≡◌, OnOk, IfOk, map};
ghost use Rattle.cxx_tree.specs.ProgramTree.{function_tree, init_tree, ctor_tree, item_tree};
ghost use Rattle.cxx_tree.specs.ProgramTree.{class_tree, global_tree, decl_tree, program_tree};
ghost use Rattle.cxx_distinct.specs.NamesIn.{names_in_each, names_in_params, names_in_function};
ghost use Rattle.cxx_distinct.specs.NamesIn.{names_in_init, names_in_ctor, names_in_item, names_in_base_of};
ghost use Rattle.cxx_distinct.specs.NamesIn.{names_in_class, names_in_global, names_in_decl};
ghost use Rattle.cxx_distinct.specs.Sights.{seen};
ghost use Rattle.cxx_distinct.specs.Sights as spec;

use crate::sights::Sights;
use agxx_base::{Memory, Place};
use cxx_tree::{Class, Ctor, Decl, Function, Global, Init, Item, Name, Param, Program};
use std::alloc::Global as Heap;

impl Sights {
    fn params(&mut self, params: &[Param]) -> Result<(), Memory>
        ensures { OnOk result (self.new ≡ seen self.old (names_in_params params.now)) }
    {
        for param in params {
            self.type_name(param.type_name)?;
            self.name(param.name)?;
        }
        Ok(())
    }

    fn function(&mut self, function: &Function) -> Result<(), Memory>
        ensures { OnOk result (self.new ≡ seen self.old (names_in_function (function_tree function.now))) }
    {
        self.type_name(function.result)?;
        self.name(function.name)?;
        self.params(function.params.as_slice())?;
        self.block(&function.body)
    }

    fn init(&mut self, init: &Init) -> Result<(), Memory>
        ensures { OnOk result (self.new ≡ seen self.old (names_in_init (init_tree init.now))) }
    {
        self.name(init.name)?;
        self.exprs(init.arguments.as_slice())
    }

    fn inits(&mut self, inits: &[Init]) -> Result<(), Memory>
        ensures { OnOk result (self.new ≡ seen self.old (names_in_each names_in_init (map init_tree inits.now))) }
    {
        for init in inits {
            self.init(init)?;
        }
        Ok(())
    }

    fn ctor(&mut self, ctor: &Ctor) -> Result<(), Memory>
        ensures { OnOk result (self.new ≡ seen self.old (names_in_ctor (ctor_tree ctor.now))) }
    {
        self.name(ctor.name)?;
        self.params(ctor.params.as_slice())?;
        self.inits(ctor.inits.as_slice())?;
        self.block(&ctor.body)
    }

    fn item(&mut self, item: &Item) -> Result<(), Memory>
        ensures { OnOk result (self.new ≡ seen self.old (names_in_item (item_tree item.now))) }
    {
        match item {
            Item::Label(_, _) => Ok(()),
            Item::Member(member) => {
                self.type_name(member.type_name)?;
                self.name(member.name)
            }
            Item::Function(function) => self.function(function),
            Item::Ctor(ctor) => self.ctor(ctor),
            Item::Dtor(dtor) => {
                self.name(dtor.name)?;
                self.block(&dtor.body)
            }
        }
    }

    fn items(&mut self, items: &[Item]) -> Result<(), Memory>
        ensures { OnOk result (self.new ≡ seen self.old (names_in_each names_in_item (map item_tree items.now))) }
    {
        for item in items {
            self.item(item)?;
        }
        Ok(())
    }

    fn base_class(&mut self, base: Option<Name>) -> Result<(), Memory>
        ensures { OnOk result (self.new ≡ seen self.old (names_in_base_of base)) }
    {
        match base {
            None => Ok(()),
            Some(name) => self.name(name),
        }
    }

    fn class(&mut self, class: &Class) -> Result<(), Memory>
        ensures { OnOk result (self.new ≡ seen self.old (names_in_class (class_tree class.now))) }
    {
        self.name(class.name)?;
        self.base_class(class.base)?;
        self.items(class.items.as_slice())
    }

    fn global(&mut self, global: &Global) -> Result<(), Memory>
        ensures { OnOk result (self.new ≡ seen self.old (names_in_global (global_tree global.now))) }
    {
        match global {
            Global::Variable(variable) => {
                self.type_name(variable.type_name)?;
                self.name(variable.name)
            }
            Global::Object(object) => {
                self.name(object.class)?;
                self.name(object.name)?;
                self.exprs(object.arguments.as_slice())
            }
            Global::Mutex(_, name) => self.name(*name),
        }
    }

    fn decl(&mut self, decl: &Decl) -> Result<(), Memory>
        ensures { OnOk result (self.new ≡ seen self.old (names_in_decl (decl_tree decl.now))) }
    {
        match decl {
            Decl::Class(class) => self.class(class),
            Decl::ClassName(_) => Ok(()),
            Decl::Function(function) => self.function(function),
            Decl::Proto(_) => Ok(()),
            Decl::Global(global) => self.global(global),
        }
    }

    fn decls(&mut self, decls: &[Decl]) -> Result<(), Memory>
        ensures { OnOk result (self.new ≡ seen self.old (names_in_each names_in_decl (map decl_tree decls.now))) }
    {
        for decl in decls {
            self.decl(decl)?;
        }
        Ok(())
    }
}

/// Where the first name stands that is past so many distinct names, if a program has more than that. It takes time
/// linear in the program.
pub fn name_past(alloc: Heap, limit: usize, program: &Program) -> Result<Option<Place>, Memory>
    ensures { IfOk result (λ place. place ≡ spec.name_past limit (program_tree program.now)) }
{
    let mut sights = Sights::new(alloc);
    sights.decls(program.decls.as_slice())?;
    Ok(sights.past(limit))
}
