//! Classes, and the functions in them.

ghost use Rattle.std.specs.Prelude.{◌≡◌, ◌∷◌, ◌++◌, [], length, map, suc, IfOk, OnOk};
ghost use Rattle.cxx_tree.specs.ProgramTree.{function_tree, ctor_tree, dtor_tree};
ghost use Rattle.cxx_tree.specs.ProgramTree.{item_tree, class_tree, decl_tree};
ghost use Rattle.cxx_core.specs.ProgramView.{name_core, word_core, function_core, class_core};
ghost use Rattle.cxx_core.specs.ElaboratedProgram as spec;
ghost use Rattle.cxx_elaborate.specs.Added.{Adds};

use crate::elaborator::Elaborator;
use crate::functions::{ctor_number, dtor_number};
use agxx_base::{ClassId, FnId, Memory, NameId};
use cxx_core::{Class, Function, Word};
use cxx_tree::{Ctor, Decl, Dtor, Item, Name, TypeName};
use sqlite_items::Items;

/// The number of the next function, where 32 bits hold it.
fn next_function(functions: &Items<Function>) -> Result<FnId, Memory>
    ensures { IfOk result (λ n. n.0 ≡ length functions.now) }
{
    match u32::try_from(functions.len()) {
        Ok(number) => Ok(FnId(number)),
        Err(_) => Err(Memory),
    }
}

/// The number of the next class, where 32 bits hold it.
fn next_class(classes: &Items<Class>) -> Result<ClassId, Memory>
    ensures { IfOk result (λ n. n.0 ≡ length classes.now) }
{
    match u32::try_from(classes.len()) {
        Ok(number) => Ok(ClassId(number)),
        Err(_) => Err(Memory),
    }
}

fn add_mutex(item: &Item, mutexes: &mut Items<NameId>) -> Result<(), Memory>
    ensures { OnOk result (map name_core mutexes.new ≡
        map name_core mutexes.old ++ spec.mutexes (item_tree item.now ∷ [])) }
{
    match item {
        Item::Member(member) => match member.type_name.item {
            TypeName::Mutex => {
                mutexes.push(member.name.item)?;
                Ok(())
            }
            _ => Ok(()),
        },
        _ => Ok(()),
    }
}

impl<'a> Elaborator<'a> {
    /// Adds a function with its number.
    pub(crate) fn add_function(
        &self,
        function: &cxx_tree::Function,
        functions: &mut Items<Function>,
    ) -> Result<(), Memory>
        ensures { OnOk result (Adds (map function_core functions.old) (map function_core functions.new)
            (λ rest. spec.core_function self.now (function_tree function.now) ∷ rest)) }
    {
        let number = next_function(functions)?;
        let made = self.function(number, function)?;
        functions.push(made)?;
        Ok(())
    }

    fn add_ctor(
        &self,
        base: Option<Name>,
        ctor: &Ctor,
        functions: &mut Items<Function>,
    ) -> Result<(), Memory>
        ensures { OnOk result (Adds (map function_core functions.old) (map function_core functions.new)
            (λ rest. spec.core_ctor self.now base (ctor_tree ctor.now) ∷ rest)) }
    {
        let number = next_function(functions)?;
        let made = self.ctor(number, base, ctor)?;
        functions.push(made)?;
        Ok(())
    }

    fn add_dtor(&self, dtor: &Dtor, functions: &mut Items<Function>) -> Result<(), Memory>
        ensures { OnOk result (Adds (map function_core functions.old) (map function_core functions.new)
            (λ rest. spec.core_dtor self.now (dtor_tree dtor.now) ∷ rest)) }
    {
        let number = next_function(functions)?;
        let made = self.dtor(number, dtor)?;
        functions.push(made)?;
        Ok(())
    }

    /// Adds the function that an item of a class with this base is, if it is any.
    #[tactic(auto, using(crate::proofs::Numbered::adds_nothing))]
    fn add_item(
        &self,
        base: Option<Name>,
        item: &Item,
        functions: &mut Items<Function>,
    ) -> Result<(), Memory>
        ensures { OnOk result (Adds (map function_core functions.old) (map function_core functions.new)
            (spec.item_functions self.now base (item_tree item.now))) }
    {
        match item {
            Item::Label(_, _) => Ok(()),
            Item::Member(_) => Ok(()),
            Item::Function(function) => self.add_function(function, functions),
            Item::Ctor(ctor) => self.add_ctor(base, ctor, functions),
            Item::Dtor(dtor) => self.add_dtor(dtor, functions),
        }
    }

    /// Adds the functions of a class with this base.
    pub(crate) fn add_items(
        &self,
        base: Option<Name>,
        items: &[Item],
        functions: &mut Items<Function>,
    ) -> Result<(), Memory>
        ensures { OnOk result (Adds (map function_core functions.old) (map function_core functions.new)
            (spec.items_functions self.now base (map item_tree items.now))) }
    {
        for item in items {
            self.add_item(base, item, functions)?;
        }
        Ok(())
    }

    fn add_word(&self, item: &Item, words: &mut Items<Word>) -> Result<(), Memory>
        ensures { OnOk result (map word_core words.new ≡
            map word_core words.old ++ spec.words self.now.declared (item_tree item.now ∷ [])) }
    {
        match item {
            Item::Member(member) => match self.kind_named(member.type_name.item) {
                None => Ok(()),
                Some(kind) => {
                    let name = member.name.item;
                    words.push(Word { name, kind })?;
                    Ok(())
                }
            },
            _ => Ok(()),
        }
    }

    fn words(&self, items: &[Item]) -> Result<Items<Word>, Memory>
        ensures { IfOk result (λ ws. map word_core ws ≡
            spec.words self.now.declared (map item_tree items.now)) }
    {
        let mut words = Items::new(self.alloc);
        for item in items {
            self.add_word(item, &mut words)?;
        }
        Ok(words)
    }

    fn mutexes(&self, items: &[Item]) -> Result<Items<NameId>, Memory>
        ensures { IfOk result (λ names. map name_core names ≡ spec.mutexes (map item_tree items.now)) }
    {
        let mut mutexes = Items::new(self.alloc);
        for item in items {
            add_mutex(item, &mut mutexes)?;
        }
        Ok(mutexes)
    }

    /// The class of a number.
    fn class(&self, number: ClassId, class: &cxx_tree::Class) -> Result<Class, Memory>
        ensures { IfOk result (λ x. class_core x ≡
            spec.core_class self.now.declared number (class_tree class.now)) }
    {
        let items = class.items.as_slice();
        let words = self.words(items)?;
        let mutexes = self.mutexes(items)?;
        Ok(Class {
            name: class.name,
            base: self.base_class(Some(number)),
            words,
            mutexes,
            constructor: ctor_number(self.declared.class(number)),
            destructor: dtor_number(self.declared.class(number)),
        })
    }

    fn add_class(&self, decl: &Decl, classes: &mut Items<Class>) -> Result<(), Memory>
        ensures { OnOk result (map class_core classes.new ≡ map class_core classes.old ++
            spec.decls_classes self.now.declared (length classes.old) (decl_tree decl.now ∷ [])) }
    {
        match decl {
            Decl::Class(class) => {
                let number = next_class(classes)?;
                let made = self.class(number, class)?;
                classes.push(made)?;
                Ok(())
            }
            _ => Ok(()),
        }
    }

    /// The classes of a program, each at its number.
    pub(crate) fn classes(&self, decls: &[Decl]) -> Result<Items<Class>, Memory>
        ensures { IfOk result (λ classes. map class_core classes ≡
            spec.decls_classes self.now.declared 0 (map decl_tree decls.now)) }
    {
        let mut classes = Items::new(self.alloc);
        for decl in decls {
            self.add_class(decl, &mut classes)?;
        }
        Ok(classes)
    }
}
