//! Declarations outside of classes, and programs.

ghost use Rattle.std.specs.Prelude.{◌≡◌, IfOk, map};
ghost use Rattle.cxx_tree.specs.ProgramTree.{object_tree, global_tree, decl_tree, program_tree};

use crate::copier::Copier;
use agxx_base::Memory;
use cxx_tree::{Decl, Global, Object, Program, Proto};
use sqlite_items::Items;

impl Copier {
    /// A function without its body.
    pub fn proto(self, proto: &Proto) -> Result<Proto, Memory>
        ensures { IfOk result (λ p. p ≡ proto.now) }
    {
        let params = self.params(proto.params.as_slice())?;
        Ok(Proto {
            result: proto.result,
            name: proto.name,
            params,
        })
    }

    /// A global object.
    pub fn object(self, object: &Object) -> Result<Object, Memory>
        ensures { IfOk result (λ o. object_tree o ≡ object_tree object.now) }
    {
        let arguments = self.exprs(object.arguments.as_slice())?;
        Ok(Object {
            class: object.class,
            name: object.name,
            arguments,
        })
    }

    /// A global variable, object or mutex.
    pub fn global(self, global: &Global) -> Result<Global, Memory>
        ensures { IfOk result (λ g. global_tree g ≡ global_tree global.now) }
    {
        match global {
            Global::Variable(variable) => Ok(Global::Variable(*variable)),
            Global::Object(object) => Ok(Global::Object(self.object(object)?)),
            Global::Mutex(at, name) => Ok(Global::Mutex(*at, *name)),
        }
    }

    /// A declaration outside of classes.
    pub fn decl(self, decl: &Decl) -> Result<Decl, Memory>
        ensures { IfOk result (λ d. decl_tree d ≡ decl_tree decl.now) }
    {
        match decl {
            Decl::Class(class) => Ok(Decl::Class(self.class(class)?)),
            Decl::ClassName(class) => Ok(Decl::ClassName(*class)),
            Decl::Function(function) => Ok(Decl::Function(self.function(function)?)),
            Decl::Proto(proto) => Ok(Decl::Proto(self.proto(proto)?)),
            Decl::Global(global) => Ok(Decl::Global(self.global(global)?)),
        }
    }

    /// The declarations of a program.
    pub fn decls(self, decls: &[Decl]) -> Result<Items<Decl>, Memory>
        ensures { IfOk result (λ ds. map decl_tree ds ≡ map decl_tree decls.now) }
    {
        let mut copies = Items::new(self.alloc);
        for decl in decls {
            copies.push(self.decl(decl)?)?;
        }
        Ok(copies)
    }

    /// A whole program.
    pub fn program(self, program: &Program) -> Result<Program, Memory>
        ensures { IfOk result (λ p. program_tree p ≡ program_tree program.now) }
    {
        let directives = Items::from_slice(self.alloc, program.directives.as_slice())?;
        let decls = self.decls(program.decls.as_slice())?;
        Ok(Program {
            at: program.at,
            directives,
            decls,
        })
    }
}
