//! Protected programs.

ghost use Rattle.std.specs.Prelude.{◌≡◌, IfOk, OnOk, map};
ghost use Rattle.cxx_tree.specs.ProgramTree.{class_tree, decl_tree, program_tree};
ghost use Rattle.cxx_names.specs.Declarations.{declared};
ghost use Rattle.protect.specs.GeneratedNames.{with_generated};
ghost use Rattle.protect.specs.Protected as spec;

use crate::added::add_own_part;
use crate::kinds::Kinds;
use crate::parts::GuardedParts;
use crate::texts::generated_texts;
use crate::wrapped::wrapped_items;
use agxx_base::{Memory, Names};
use cxx_copy::Copier;
use cxx_make::intern_all;
use cxx_names::Declared;
use cxx_tree::{Class, Decl, Program};
use guards::Guards;
use sqlite_items::Items;
use std::alloc::Global;

/// What the walk through a program goes by.
#[derive(Drop)]
struct Walk<'w> {
    alloc: Global,
    names: &'w Names,
    kinds: &'w Kinds<'w>,
    declared: &'w Declared,
    parts: &'w GuardedParts,
}

impl<'w> Walk<'w> {
    fn class(&self, class: &Class) -> Result<Class, Memory>
        ensures { IfOk result (λ c. class_tree c ≡ spec.protected_class self.now.names.now self.now.kinds.now
            self.now.declared.now self.now.parts.now.lists (class_tree class.now)) }
    {
        let parts = self.parts.named(self.declared, class.name.item);
        let mut items = wrapped_items(self.alloc, self.names, parts, class.items.as_slice())?;
        add_own_part(self.alloc, self.names, self.kinds, class, &mut items)?;
        Ok(Class {
            at: class.at,
            word: class.word,
            name: class.name,
            base: class.base,
            items,
        })
    }

    fn decl(&self, decl: &Decl) -> Result<Decl, Memory>
        ensures { IfOk result (λ d. decl_tree d ≡ spec.protected_decl self.now.names.now self.now.kinds.now
            self.now.declared.now self.now.parts.now.lists (decl_tree decl.now)) }
    {
        let copier = Copier { alloc: self.alloc };
        match decl {
            Decl::Class(class) => Ok(Decl::Class(self.class(class)?)),
            Decl::ClassName(class) => Ok(Decl::ClassName(*class)),
            Decl::Function(function) => Ok(Decl::Function(copier.function(function)?)),
            Decl::Proto(proto) => Ok(Decl::Proto(copier.proto(proto)?)),
            Decl::Global(global) => Ok(Decl::Global(copier.global(global)?)),
        }
    }

    fn decls(&self, decls: &[Decl]) -> Result<Items<Decl>, Memory>
        ensures { IfOk result (λ ds. map decl_tree ds ≡ map (spec.protected_decl self.now.names.now
            self.now.kinds.now self.now.declared.now self.now.parts.now.lists) (map decl_tree decls.now)) }
    {
        let mut protected = Items::new(self.alloc);
        for decl in decls {
            protected.push(self.decl(decl)?)?;
        }
        Ok(protected)
    }
}

/// The declarations of the protected program, where these are the declared names.
fn decls_with(
    alloc: Global,
    names: &Names,
    kinds: &Kinds,
    declared: &Declared,
    program: &Program,
) -> Result<Items<Decl>, Memory>
    ensures { IfOk result (λ ds. map decl_tree ds
        ≡ spec.protected_decls names.now kinds.now declared.now (program_tree program.now).decls) }
{
    let parts = GuardedParts::of(alloc, kinds, declared)?;
    let walk = Walk {
        alloc,
        names,
        kinds,
        declared,
        parts: &parts,
    };
    walk.decls(program.decls.as_slice())
}

/// The declarations of the protected program.
fn protected_decls(
    alloc: Global,
    names: &Names,
    kinds: &Kinds,
    program: &Program,
) -> Result<Items<Decl>, Memory>
    ensures { IfOk result (λ ds. map decl_tree ds ≡ spec.protected_decls names.now kinds.now
        (declared names.now (program_tree program.now)) (program_tree program.now).decls) }
{
    let declared = Declared::of(alloc, names, program)?;
    decls_with(alloc, names, kinds, &declared, program)
}

/// The protected program, where all generated names have numbers.
fn protected(
    alloc: Global,
    names: &Names,
    kinds: &Kinds,
    program: &Program,
) -> Result<Program, Memory>
    ensures { IfOk result (λ p. program_tree p
        ≡ spec.protected names.now kinds.now (program_tree program.now)) }
{
    Ok(Program {
        at: program.at,
        directives: Items::from_slice(alloc, program.directives.as_slice())?,
        decls: protected_decls(alloc, names, kinds, program)?,
    })
}

/// The protected program, as a new tree, of a program in normal form. All names that are generated get numbers among
/// the names.
pub fn protect(
    alloc: Global,
    names: &mut Names,
    program: &Program,
    guards: &Guards,
) -> Result<Program, Memory>
    ensures names { OnOk result (names.new
        ≡ with_generated names.old guards.now (program_tree program.now)) }
    ensures tree { IfOk result (λ p. program_tree p
        ≡ spec.protected names.new guards.now (program_tree program.now)) }
{
    let kinds = Kinds::of(alloc, guards.as_slice())?;
    let texts = generated_texts(alloc, names, &kinds, program)?;
    intern_all(names, texts.as_slice())?;
    protected(alloc, names, &kinds, program)
}
