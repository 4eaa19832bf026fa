//! Functions, and classes with their items.

ghost use Rattle.std.specs.Prelude.{◌≡◌, OnOk, map};
ghost use Rattle.cxx_tree.specs.ProgramTree.{function_tree, dtor_tree, item_tree, class_tree};
ghost use Rattle.cxx_normal.specs.Gives.{Gives};
ghost use Rattle.cxx_normal.specs.Initialisers.{assigning_item};
ghost use Rattle.cxx_normal.specs.Listing.{listing_tree, put_numbered, put_each};
ghost use Rattle.cxx_normal.specs.Normal.{rebuilt_class};
ghost use Rattle.cxx_normal.specs.Numbers.{number_each, number_function, number_dtor, number_item, number_class};

use crate::listing::{Listing, first_access};
use crate::members::Members;
use crate::numbering::Numbering;
use agxx_base::Memory;
use cxx_tree::{Class, Dtor, Function, Item, Name};
use sqlite_items::Items;

impl Numbering {
    pub(crate) fn function(&mut self, function: &Function) -> Result<Function, Memory>
        ensures { Gives function_tree
            (number_function (function_tree function.now) self.old.next)
            result self.new.next }
    {
        let params = self.params(function.params.as_slice())?;
        let body = self.block(&function.body)?;
        Ok(Function {
            result: function.result,
            name: function.name,
            params,
            body,
        })
    }

    fn dtor(&mut self, dtor: &Dtor) -> Result<Dtor, Memory>
        ensures { Gives dtor_tree (number_dtor (dtor_tree dtor.now) self.old.next) result self.new.next }
    {
        let body = self.block(&dtor.body)?;
        Ok(Dtor {
            at: dtor.at,
            name: dtor.name,
            body,
        })
    }

    /// Puts an item of a class with this base and these members behind others.
    fn put(
        &mut self,
        base: Option<Name>,
        members: &Members,
        item: &Item,
        listing: &mut Listing,
    ) -> Result<(), Memory>
        ensures { OnOk result ((listing_tree listing.new, self.new.next)
            ≡ put_numbered (listing_tree listing.old, self.old.next)
            (assigning_item base members.now (item_tree item.now))) }
    {
        match item {
            Item::Label(_, access) => {
                listing.access = *access;
                Ok(())
            }
            Item::Member(member) => listing.add(Item::Member(*member)),
            Item::Function(function) => listing.add(Item::Function(self.function(function)?)),
            Item::Ctor(ctor) => listing.add(Item::Ctor(self.ctor(base, members, ctor)?)),
            Item::Dtor(dtor) => listing.add(Item::Dtor(self.dtor(dtor)?)),
        }
    }

    fn put_each(
        &mut self,
        base: Option<Name>,
        members: &Members,
        items: &[Item],
        listing: &mut Listing,
    ) -> Result<(), Memory>
        ensures { OnOk result ((listing_tree listing.new, self.new.next)
            ≡ put_each (listing_tree listing.old, self.old.next)
            (map (assigning_item base members.now) (map item_tree items.now))) }
    {
        for item in items {
            self.put(base, members, item, listing)?;
        }
        Ok(())
    }

    fn items(&mut self, class: &Class) -> Result<Items<Item>, Memory>
        ensures { Gives (map item_tree)
            (number_each number_item (rebuilt_class (class_tree class.now)).items self.old.next)
            result self.new.next }
    {
        let items = class.items.as_slice();
        let members = Members::of(self.alloc, items)?;
        let mut listing = Listing::new(self.alloc, class.at, first_access(class.word));
        self.put_each(class.base, &members, items, &mut listing)?;
        listing.complete(self.alloc, class.name, items)?;
        Ok(listing.items)
    }

    pub(crate) fn class(&mut self, class: &Class) -> Result<Class, Memory>
        ensures { Gives class_tree
            (number_class (rebuilt_class (class_tree class.now)) self.old.next)
            result self.new.next }
    {
        let items = self.items(class)?;
        Ok(Class {
            at: class.at,
            word: class.word,
            name: class.name,
            base: class.base,
            items,
        })
    }
}
