//! The items of a class, put behind each other with labels where the access changes.

ghost use Rattle.std.specs.Prelude.{◌≡◌, false, OnOk, map};
ghost use Rattle.std.specs.List.{list_any};
ghost use Rattle.cxx_tree.specs.ProgramTree.{item_tree, ctor_tree, dtor_tree};
ghost use Rattle.cxx_normal.specs.Completion as completion;
ghost use Rattle.cxx_normal.specs.Completion.{made, made_ctor, made_dtor};
ghost use Rattle.cxx_normal.specs.Labels as labels;
ghost use Rattle.cxx_normal.specs.Listing as spec;
ghost use Rattle.cxx_normal.specs.Listing.{listing_tree, empty_listing, put_all};

use agxx_base::{Memory, Place};
use cxx_tree::{Access, Block, ClassWord, Ctor, Dtor, Item, Name};
use sqlite_items::Items;
use std::alloc::Global;

/// Items with labels, and the access that the next item is to have.
#[derive(Drop)]
pub(crate) struct Listing {
    /// The place of labels.
    at: Place,
    /// The access in force behind the items.
    shown: Access,
    pub(crate) access: Access,
    pub(crate) items: Items<Item>,
}

fn same_access(a: Access, b: Access) -> bool
    ensures { result ≡ labels.same_access a b }
{
    a == b
}

/// The access before the first label.
pub(crate) fn first_access(word: ClassWord) -> Access
    ensures { result ≡ labels.first_access word }
{
    match word {
        ClassWord::Class => Access::Private,
        ClassWord::Struct => Access::Public,
    }
}

fn has_ctor(items: &[Item]) -> bool
    ensures { result ≡ list_any completion.is_ctor (map item_tree items.now) }
{
    for item in items {
        if let Item::Ctor(_) = item {
            return true;
        }
    }
    false
}

fn has_dtor(items: &[Item]) -> bool
    ensures { result ≡ list_any completion.is_dtor (map item_tree items.now) }
{
    for item in items {
        if let Item::Dtor(_) = item {
            return true;
        }
    }
    false
}

fn empty_ctor(alloc: Global, name: Name) -> Ctor
    ensures { ctor_tree result ≡ completion.empty_ctor name }
{
    Ctor {
        name,
        params: Items::new(alloc),
        inits: Items::new(alloc),
        body: Block {
            at: name.at,
            stmts: Items::new(alloc),
        },
    }
}

fn empty_dtor(alloc: Global, name: Name) -> Dtor
    ensures { dtor_tree result ≡ completion.empty_dtor name }
{
    Dtor {
        at: name.at,
        name,
        body: Block {
            at: name.at,
            stmts: Items::new(alloc),
        },
    }
}

impl Listing {
    /// No items, where this access is in force.
    pub(crate) fn new(alloc: Global, at: Place, access: Access) -> Listing
        ensures { listing_tree result ≡ empty_listing at access }
    {
        Listing {
            at,
            shown: access,
            access,
            items: Items::new(alloc),
        }
    }

    /// Puts an item that is no label behind the others.
    pub(crate) fn add(&mut self, item: Item) -> Result<(), Memory>
        ensures { OnOk result (listing_tree self.new ≡ spec.with_item (listing_tree self.old) (item_tree item)) }
    {
        if !same_access(self.shown, self.access) {
            self.items.push(Item::Label(self.at, self.access))?;
            self.shown = self.access;
        }
        self.items.push(item)?;
        Ok(())
    }

    fn add_ctor(&mut self, alloc: Global, name: Name) -> Result<(), Memory>
        ensures { OnOk result (listing_tree self.new ≡ put_all (listing_tree self.old) (made_ctor name false)) }
    {
        self.access = Access::Public;
        self.add(Item::Ctor(empty_ctor(alloc, name)))
    }

    fn add_dtor(&mut self, alloc: Global, name: Name) -> Result<(), Memory>
        ensures { OnOk result (listing_tree self.new ≡ put_all (listing_tree self.old) (made_dtor name false)) }
    {
        self.access = Access::Public;
        self.add(Item::Dtor(empty_dtor(alloc, name)))
    }

    /// Adds an empty constructor and an empty destructor where these items lack them.
    #[tactic(auto, using(crate::proofs::Listings::all_append))]
    pub(crate) fn complete(
        &mut self,
        alloc: Global,
        name: Name,
        items: &[Item],
    ) -> Result<(), Memory>
        ensures { OnOk result (listing_tree self.new
            ≡ put_all (listing_tree self.old) (made name (map item_tree items.now))) }
    {
        if !has_ctor(items) {
            self.add_ctor(alloc, name)?;
        }
        if !has_dtor(items) {
            self.add_dtor(alloc, name)?;
        }
        Ok(())
    }
}
