//! Functions, and classes with their items.

ghost use Rattle.std.specs.Prelude.{◌≡◌, IfOk, map};
ghost use Rattle.cxx_tree.specs.ProgramTree.{function_tree, init_tree, ctor_tree, dtor_tree, item_tree, class_tree};

use crate::copier::Copier;
use agxx_base::Memory;
use cxx_tree::{Class, Ctor, Dtor, Function, Init, Item};
use sqlite_items::Items;

impl Copier {
    /// A function with its body.
    pub fn function(self, function: &Function) -> Result<Function, Memory>
        ensures { IfOk result (λ f. function_tree f ≡ function_tree function.now) }
    {
        let params = self.params(function.params.as_slice())?;
        let body = self.block(&function.body)?;
        Ok(Function {
            result: function.result,
            name: function.name,
            params,
            body,
        })
    }

    /// An initialiser of a constructor.
    pub fn init(self, init: &Init) -> Result<Init, Memory>
        ensures { IfOk result (λ i. init_tree i ≡ init_tree init.now) }
    {
        let arguments = self.exprs(init.arguments.as_slice())?;
        Ok(Init {
            name: init.name,
            arguments,
        })
    }

    /// The initialisers of a constructor.
    pub fn inits(self, inits: &[Init]) -> Result<Items<Init>, Memory>
        ensures { IfOk result (λ is. map init_tree is ≡ map init_tree inits.now) }
    {
        let mut copies = Items::new(self.alloc);
        for init in inits {
            copies.push(self.init(init)?)?;
        }
        Ok(copies)
    }

    /// A constructor.
    pub fn ctor(self, ctor: &Ctor) -> Result<Ctor, Memory>
        ensures { IfOk result (λ c. ctor_tree c ≡ ctor_tree ctor.now) }
    {
        let params = self.params(ctor.params.as_slice())?;
        let inits = self.inits(ctor.inits.as_slice())?;
        let body = self.block(&ctor.body)?;
        Ok(Ctor {
            name: ctor.name,
            params,
            inits,
            body,
        })
    }

    /// A destructor.
    pub fn dtor(self, dtor: &Dtor) -> Result<Dtor, Memory>
        ensures { IfOk result (λ d. dtor_tree d ≡ dtor_tree dtor.now) }
    {
        let body = self.block(&dtor.body)?;
        Ok(Dtor {
            at: dtor.at,
            name: dtor.name,
            body,
        })
    }

    /// An item of a class.
    pub fn item(self, item: &Item) -> Result<Item, Memory>
        ensures { IfOk result (λ i. item_tree i ≡ item_tree item.now) }
    {
        match item {
            Item::Label(at, access) => Ok(Item::Label(*at, *access)),
            Item::Member(member) => Ok(Item::Member(*member)),
            Item::Function(function) => Ok(Item::Function(self.function(function)?)),
            Item::Ctor(ctor) => Ok(Item::Ctor(self.ctor(ctor)?)),
            Item::Dtor(dtor) => Ok(Item::Dtor(self.dtor(dtor)?)),
        }
    }

    /// The items of a class.
    pub fn items(self, items: &[Item]) -> Result<Items<Item>, Memory>
        ensures { IfOk result (λ is. map item_tree is ≡ map item_tree items.now) }
    {
        let mut copies = Items::new(self.alloc);
        for item in items {
            copies.push(self.item(item)?)?;
        }
        Ok(copies)
    }

    /// A class with its items.
    pub fn class(self, class: &Class) -> Result<Class, Memory>
        ensures { IfOk result (λ c. class_tree c ≡ class_tree class.now) }
    {
        let items = self.items(class.items.as_slice())?;
        Ok(Class {
            at: class.at,
            word: class.word,
            name: class.name,
            base: class.base,
            items,
        })
    }
}
