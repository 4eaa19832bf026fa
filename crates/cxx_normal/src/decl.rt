//! Declarations outside of classes, and their order.

ghost use Rattle.std.specs.Prelude.{◌≡◌, ◌++◌, IfOk, OnOk, map};
ghost use Rattle.std.specs.List.{flat_map};
ghost use Rattle.cxx_tree.specs.ProgramTree.{function_tree, object_tree, global_tree, decl_tree};
ghost use Rattle.cxx_normal.specs.Declarations as order;
ghost use Rattle.cxx_normal.specs.Declarations.{ordered};
ghost use Rattle.cxx_normal.specs.Gives.{Gives, Adds};
ghost use Rattle.cxx_normal.specs.Normal.{rebuilt_decl};
ghost use Rattle.cxx_normal.specs.Numbers.{number_each, number_object, number_global, number_decl};

use crate::numbering::Numbering;
use agxx_base::{Memory, NameId};
use cxx_tree::{ClassName, Decl, Function, Global, Object, Proto};
use sqlite_items::Items;

/// The forward declaration of a class, behind others.
fn add_forward(decl: &Decl, copies: &mut Items<Decl>) -> Result<(), Memory>
    ensures { OnOk result (map decl_tree copies.new ≡ map decl_tree copies.old ++ order.forward (decl_tree decl.now)) }
{
    if let Decl::Class(class) = decl {
        copies.push(Decl::ClassName(ClassName {
            at: class.at,
            word: class.word,
            name: class.name,
        }))?;
    }
    Ok(())
}

fn add_forwards(decls: &[Decl], copies: &mut Items<Decl>) -> Result<(), Memory>
    ensures { OnOk result (map decl_tree copies.new
        ≡ map decl_tree copies.old ++ flat_map order.forward (map decl_tree decls.now)) }
{
    for decl in decls {
        add_forward(decl, copies)?;
    }
    Ok(())
}

impl Numbering {
    fn prototype(&self, function: &Function) -> Result<Proto, Memory>
        ensures { IfOk result (λ proto. proto ≡ order.prototype_of (function_tree function.now)) }
    {
        let params = self.params(function.params.as_slice())?;
        Ok(Proto {
            result: function.result,
            name: function.name,
            params,
        })
    }

    /// The forward declaration of a free function but `main`, behind others.
    fn add_prototype(
        &self,
        main: NameId,
        decl: &Decl,
        copies: &mut Items<Decl>,
    ) -> Result<(), Memory>
        ensures { OnOk result (map decl_tree copies.new
            ≡ map decl_tree copies.old ++ order.prototype main.0 (decl_tree decl.now)) }
    {
        if let Decl::Function(function) = decl
            && function.name.item.0 != main.0
        {
            copies.push(Decl::Proto(self.prototype(function)?))?;
        }
        Ok(())
    }

    fn add_prototypes(
        &self,
        main: NameId,
        decls: &[Decl],
        copies: &mut Items<Decl>,
    ) -> Result<(), Memory>
        ensures { OnOk result (map decl_tree copies.new
            ≡ map decl_tree copies.old ++ flat_map (order.prototype main.0) (map decl_tree decls.now)) }
    {
        for decl in decls {
            self.add_prototype(main, decl, copies)?;
        }
        Ok(())
    }

    fn object(&mut self, object: &Object) -> Result<Object, Memory>
        ensures { Gives object_tree (number_object (object_tree object.now) self.old.next) result self.new.next }
    {
        let arguments = self.exprs(object.arguments.as_slice())?;
        Ok(Object {
            class: object.class,
            name: object.name,
            arguments,
        })
    }

    fn global(&mut self, global: &Global) -> Result<Global, Memory>
        ensures { Gives global_tree (number_global (global_tree global.now) self.old.next) result self.new.next }
    {
        match global {
            Global::Variable(variable) => Ok(Global::Variable(*variable)),
            Global::Object(object) => Ok(Global::Object(self.object(object)?)),
            Global::Mutex(at, name) => Ok(Global::Mutex(*at, *name)),
        }
    }

    /// A declaration that isn't a forward declaration, behind others.
    fn add_kept(
        &mut self,
        main: NameId,
        decl: &Decl,
        copies: &mut Items<Decl>,
    ) -> Result<(), Memory>
        ensures { Adds decl_tree
            (number_each number_decl (order.kept (rebuilt_decl main.0 (decl_tree decl.now))) self.old.next)
            result copies.old copies.new self.new.next }
    {
        match decl {
            Decl::Class(class) => copies.push(Decl::Class(self.class(class)?))?,
            Decl::ClassName(_) => {}
            Decl::Function(function) => {
                copies.push(Decl::Function(self.free_function(main, function)?))?;
            }
            Decl::Proto(_) => {}
            Decl::Global(global) => copies.push(Decl::Global(self.global(global)?))?,
        }
        Ok(())
    }

    fn add_each_kept(
        &mut self,
        main: NameId,
        decls: &[Decl],
        copies: &mut Items<Decl>,
    ) -> Result<(), Memory>
        ensures { Adds decl_tree
            (number_each number_decl
            (flat_map order.kept (map (rebuilt_decl main.0) (map decl_tree decls.now))) self.old.next)
            result copies.old copies.new self.new.next }
    {
        for decl in decls {
            self.add_kept(main, decl, copies)?;
        }
        Ok(())
    }

    /// The declarations of a program in order, where `main` is the number of the name `main`.
    pub(crate) fn decls(&mut self, main: NameId, decls: &[Decl]) -> Result<Items<Decl>, Memory>
        ensures { Gives (map decl_tree)
            (number_each number_decl
            (ordered main.0 (map (rebuilt_decl main.0) (map decl_tree decls.now))) self.old.next)
            result self.new.next }
    {
        let mut copies = Items::new(self.alloc);
        add_forwards(decls, &mut copies)?;
        self.add_prototypes(main, decls, &mut copies)?;
        self.add_each_kept(main, decls, &mut copies)?;
        Ok(copies)
    }
}
