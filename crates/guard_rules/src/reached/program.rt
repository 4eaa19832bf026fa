//! Members that declarations reach.

ghost use Rattle.std.specs.Prelude.{◌≡◌, map};
ghost use Rattle.cxx_tree.specs.ProgramTree.{init_tree, item_tree, decl_tree};
ghost use Rattle.guard_rules.specs.ThroughMembers as spec;
ghost use Rattle.guard_rules.specs.Nearest.{through_each};

use crate::known::Known;
use agxx_base::Refusal;
use cxx_tree::{Decl, Global, Init, Item};

impl<'a> Known<'a> {
    fn reached_in_inits(&self, found: Option<Refusal>, inits: &[Init]) -> Option<Refusal>
        ensures { result ≡ through_each (spec.through_init self.now)
            (map init_tree inits.now) found }
    {
        let mut first = found;
        for init in inits {
            first = self.reached_in_exprs(first, init.arguments.as_slice());
        }
        first
    }

    fn reached_in_item(&self, found: Option<Refusal>, item: &Item) -> Option<Refusal>
        ensures { result ≡ spec.through_item self.now (item_tree item.now) found }
    {
        match item {
            Item::Label(_, _) => found,
            Item::Member(_) => found,
            Item::Function(function) => self.reached_in_block(found, &function.body),
            Item::Ctor(ctor) => {
                let inits = self.reached_in_inits(found, ctor.inits.as_slice());
                self.reached_in_block(inits, &ctor.body)
            }
            Item::Dtor(dtor) => self.reached_in_block(found, &dtor.body),
        }
    }

    fn reached_in_items(&self, found: Option<Refusal>, items: &[Item]) -> Option<Refusal>
        ensures { result ≡ through_each (spec.through_item self.now)
            (map item_tree items.now) found }
    {
        let mut first = found;
        for item in items {
            first = self.reached_in_item(first, item);
        }
        first
    }

    fn reached_in_decl(&self, found: Option<Refusal>, decl: &Decl) -> Option<Refusal>
        ensures { result ≡ spec.through_decl self.now (decl_tree decl.now) found }
    {
        match decl {
            Decl::Class(class) => self.reached_in_items(found, class.items.as_slice()),
            Decl::ClassName(_) => found,
            Decl::Function(function) => self.reached_in_block(found, &function.body),
            Decl::Proto(_) => found,
            Decl::Global(Global::Variable(_)) => found,
            Decl::Global(Global::Object(object)) => {
                self.reached_in_exprs(found, object.arguments.as_slice())
            }
            Decl::Global(Global::Mutex(_, _)) => found,
        }
    }

    /// The first of what is found and the violations in a program.
    pub(crate) fn reached(&self, found: Option<Refusal>, decls: &[Decl]) -> Option<Refusal>
        ensures { result ≡ through_each (spec.through_decl self.now)
            (map decl_tree decls.now) found }
    {
        let mut first = found;
        for decl in decls {
            first = self.reached_in_decl(first, decl);
        }
        first
    }
}
