//! Whole programs.

ghost use Rattle.std.specs.Prelude.{◌≡◌, codes, map, suc, IfOk, OnOk, option_map};
ghost use Rattle.std.specs.Str.{bytes_eq};
ghost use Rattle.agxx_base.specs.Names.{number_of};
ghost use Rattle.cxx_tree.specs.ProgramTree.{decl_tree, program_tree};
ghost use Rattle.cxx_names.specs.Declarations as declarations;
ghost use Rattle.cxx_names.specs.LookUp.{free_signature};
ghost use Rattle.cxx_core.specs.ProgramView.{number_core, function_core, program_core};
ghost use Rattle.cxx_core.specs.ElaboratedProgram as spec;
ghost use Rattle.cxx_core.specs.ElaboratedProgram.{core_program};
ghost use Rattle.cxx_elaborate.specs.Added.{Adds};

use crate::elaborator::Elaborator;
use crate::functions::number_by;
use agxx_base::{ClassId, FnId, Memory, NameId, Names};
use cxx_core::{Function, Program};
use cxx_names::Declared;
use cxx_tree::Decl;
use sqlite_items::Items;
use std::alloc::Global;

fn is_main(text: &[u8]) -> bool
    ensures { result ≡ bytes_eq (codes "main") text.now }
{
    b"main".as_slice() == text
}

/// The number of the name `main`, or the next number where it has none and 32 bits hold that one.
fn main_name(names: &Names) -> Result<NameId, Memory>
    ensures { IfOk result (λ name. name.0 ≡ number_of names.now (codes "main")) }
{
    let count = names.len();
    for index in 0..count {
        let name = NameId(index as u32);
        if is_main(names.text_of(name)) {
            return Ok(name);
        }
    }
    match u32::try_from(count) {
        Ok(number) => Ok(NameId(number)),
        Err(_) => Err(Memory),
    }
}

/// The number after, where 32 bits hold it.
fn following(number: u32) -> Result<u32, Memory>
    ensures { IfOk result (λ n. n ≡ suc number) }
{
    match number.checked_add(1) {
        Some(next) => Ok(next),
        None => Err(Memory),
    }
}

impl<'a> Elaborator<'a> {
    /// One for what stands outside of classes and functions.
    fn outside(alloc: Global, names: &'a Names, declared: &'a Declared) -> Elaborator<'a>
        ensures { result ≡ spec.outside names.now declared.now }
    {
        Elaborator {
            alloc,
            names,
            declared,
            class: None,
            result: None,
        }
    }

    /// One for the functions of a class.
    fn in_class(&self, class: u32) -> Elaborator<'a>
        ensures { result ≡ spec.in_class self.now class }
    {
        Elaborator {
            alloc: self.alloc,
            names: self.names,
            declared: self.declared,
            class: Some(ClassId(class)),
            result: self.result,
        }
    }

    /// Adds the functions of a declaration, where the next class has this number, and tells the number of the one
    /// after.
    #[tactic(auto, using(crate::proofs::Numbered::adds_nothing))]
    fn add_decl(
        &self,
        class: u32,
        decl: &Decl,
        functions: &mut Items<Function>,
    ) -> Result<u32, Memory>
        ensures functions { OnOk result (Adds (map function_core functions.old) (map function_core functions.new)
            (spec.decl_functions self.now class (decl_tree decl.now))) }
        ensures class { IfOk result (λ k. k ≡ spec.after_decl class (decl_tree decl.now)) }
    {
        match decl {
            Decl::Class(x) => {
                let within = self.in_class(class);
                within.add_items(x.base, x.items.as_slice(), functions)?;
                following(class)
            }
            Decl::Function(function) => {
                self.add_function(function, functions)?;
                Ok(class)
            }
            Decl::ClassName(_) => Ok(class),
            Decl::Proto(_) => Ok(class),
            Decl::Global(_) => Ok(class),
        }
    }

    /// The functions of a program, each at its number.
    fn functions(&self, decls: &[Decl]) -> Result<Items<Function>, Memory>
        ensures { IfOk result (λ functions. map function_core functions ≡
            spec.numbered_from 0 (spec.decls_functions self.now 0 (map decl_tree decls.now))) }
    {
        let mut functions = Items::new(self.alloc);
        let mut class = 0;
        for decl in decls {
            class = self.add_decl(class, decl, &mut functions)?;
        }
        Ok(functions)
    }

    fn main(&self) -> Result<Option<FnId>, Memory>
        ensures { IfOk result (λ main. option_map number_core main ≡
            spec.number_by (free_signature self.now.declared (number_of self.now.names (codes "main")))) }
    {
        let name = main_name(self.names)?;
        Ok(number_by(self.declared.free_function(name)))
    }
}

/// The core form of a program in normal form, where each name stands with its meaning and each operator with the
/// types of its operands. Names have the texts that `names` tells, and `declared` is what the program declares.
/// Without memory, and where a program would have more than 2^32 classes or functions, there is none.
pub fn elaborate(
    alloc: Global,
    names: &Names,
    declared: &Declared,
    program: &cxx_tree::Program,
) -> Result<Program, Memory>
    requires { declared.now ≡ declarations.declared names.now (program_tree program.now) }
    ensures { IfOk result (λ core. program_core core ≡ core_program names.now (program_tree program.now)) }
{
    let decls = program.decls.as_slice();
    let outside = Elaborator::outside(alloc, names, declared);
    let functions = outside.functions(decls)?;
    let classes = outside.classes(decls)?;
    let globals = outside.globals(decls)?;
    let main = outside.main()?;
    Ok(Program {
        functions,
        classes,
        globals,
        main,
    })
}
