//! Constructors, and the assignments that member initialisers become.

ghost use Rattle.std.specs.Prelude.{◌≡◌, true, map};
ghost use Rattle.std.specs.List.{filter, flat_map};
ghost use Rattle.cxx_tree.specs.ExprTree.{expr_tree};
ghost use Rattle.cxx_tree.specs.StmtTree.{stmt_tree, stmts_tree, block_tree};
ghost use Rattle.cxx_tree.specs.ProgramTree.{init_tree, ctor_tree};
ghost use Rattle.cxx_normal.specs.Gives.{Gives, Adds};
ghost use Rattle.cxx_normal.specs.Initialisers as spec;
ghost use Rattle.cxx_normal.specs.Initialisers.{assignments_of, ctor_assigning, assigning_ctor};
ghost use Rattle.cxx_normal.specs.Initialisers.{before_numbered, block_after_numbered};
ghost use Rattle.cxx_normal.specs.Places.{assignment_at};
ghost use Rattle.cxx_normal.specs.Numbers.{number_each, number_stmt, number_stmts};
ghost use Rattle.cxx_normal.specs.Numbers.{number_block, number_init, number_ctor};

use crate::members::Members;
use crate::names::{are_meant, names_base};
use crate::numbering::Numbering;
use crate::order::order;
use agxx_base::{Memory, NodeId};
use cxx_tree::{
    Assign, Base, Block, Ctor, Expr, Init, Left, Name, Node, Placed, Selector, Simple, Stmt,
};
use sqlite_items::Items;

/// `this->m`, to be numbered.
fn own_member(name: Name) -> Left
    ensures { result ≡ spec.own_member name }
{
    let node = Node {
        at: name.at,
        id: NodeId(0),
    };
    Left::Member(
        node,
        Selector {
            base: Base::This,
            name,
        },
    )
}

impl Numbering {
    fn init(&mut self, init: &Init) -> Result<Init, Memory>
        ensures { Gives init_tree (number_init (init_tree init.now) self.old.next) result self.new.next }
    {
        let arguments = self.exprs(init.arguments.as_slice())?;
        Ok(Init {
            name: init.name,
            arguments,
        })
    }

    fn inits(&mut self, inits: &[Init]) -> Result<Items<Init>, Memory>
        ensures { Gives (map init_tree)
            (number_each number_init (map init_tree inits.now) self.old.next)
            result self.new.next }
    {
        let mut copies = Items::new(self.alloc);
        for init in inits {
            copies.push(self.init(init)?)?;
        }
        Ok(copies)
    }

    /// An initialiser, if it is the base's, behind others.
    fn base_init(
        &mut self,
        base: Option<Name>,
        init: &Init,
        copies: &mut Items<Init>,
    ) -> Result<(), Memory>
        ensures { Adds init_tree
            (number_each number_init (spec.if_base base (init_tree init.now)) self.old.next)
            result copies.old copies.new self.new.next }
    {
        if names_base(base, init) {
            copies.push(self.init(init)?)?;
        }
        Ok(())
    }

    /// The initialisers of the base.
    fn base_inits(&mut self, base: Option<Name>, inits: &[Init]) -> Result<Items<Init>, Memory>
        ensures { Gives (map init_tree)
            (number_each number_init (filter (spec.names_base base) (map init_tree inits.now)) self.old.next)
            result self.new.next }
    {
        let mut copies = Items::new(self.alloc);
        for init in inits {
            self.base_init(base, init, &mut copies)?;
        }
        Ok(copies)
    }

    /// `this->m = value;`
    fn assignment(&mut self, name: Name, value: &Expr) -> Result<Stmt, Memory>
        ensures { Gives stmt_tree
            (number_stmt (spec.assignment name (expr_tree value.now)) self.old.next)
            result self.new.next }
    {
        let left = self.left(own_member(name))?;
        let value = self.expr(value)?;
        let sign = Placed {
            at: name.at,
            item: None,
        };
        Ok(Stmt::Simple(Simple::Assign(Assign { left, sign, value })))
    }

    fn assignments_of(&mut self, init: &Init, stmts: &mut Items<Stmt>) -> Result<(), Memory>
        ensures { Adds stmt_tree
            (number_each number_stmt
            (assignments_of (init_tree init.now).name (init_tree init.now).arguments) self.old.next)
            result stmts.old stmts.new self.new.next }
    {
        if let [value, ..] = init.arguments.as_slice() {
            stmts.push(self.assignment(init.name, value)?)?;
        }
        Ok(())
    }

    /// The assignment of the initialiser at a place, behind others.
    fn assignment_at(
        &mut self,
        inits: &[Init],
        place: usize,
        stmts: &mut Items<Stmt>,
    ) -> Result<(), Memory>
        ensures { Adds stmt_tree
            (number_each number_stmt (assignment_at (map init_tree inits.now) place) self.old.next)
            result stmts.old stmts.new self.new.next }
    {
        match inits.get(place) {
            Some(init) => self.assignments_of(init, stmts),
            None => Ok(()),
        }
    }

    /// The assignments of the initialisers at these places.
    fn assignments_at(&mut self, inits: &[Init], places: &[usize]) -> Result<Items<Stmt>, Memory>
        ensures { Gives (map stmt_tree)
            (number_each number_stmt (flat_map (assignment_at (map init_tree inits.now)) places.now) self.old.next)
            result self.new.next }
    {
        let mut stmts = Items::new(self.alloc);
        for place in places {
            self.assignment_at(inits, *place, &mut stmts)?;
        }
        Ok(stmts)
    }

    /// The assignments for all members.
    fn assignments(
        &mut self,
        base: Option<Name>,
        inits: &[Init],
        members: &Members,
    ) -> Result<Items<Stmt>, Memory>
        requires { spec.are_meant base members.now (map init_tree inits.now) ≡ true }
        ensures { Gives (map stmt_tree)
            (number_each number_stmt
            (flat_map (spec.assignments_for base (map init_tree inits.now)) members.now) self.old.next)
            result self.new.next }
    {
        let order = order(self.alloc, base, members, inits)?;
        self.assignments_at(inits, order.as_slice())
    }

    /// Statements behind those that are there already.
    #[tactic(auto, using(crate::proofs::Bodies::stmts_append))]
    fn stmts_after(&mut self, front: Items<Stmt>, stmts: &[Stmt]) -> Result<Items<Stmt>, Memory>
        ensures { Gives stmts_tree
            (before_numbered (map stmt_tree front) (number_stmts (stmts_tree stmts.now) self.old.next))
            result self.new.next }
    {
        let mut all = front;
        all.append(self.stmts(stmts)?)?;
        Ok(all)
    }

    fn block_after(&mut self, front: Items<Stmt>, body: &Block) -> Result<Block, Memory>
        ensures { Gives block_tree
            (block_after_numbered (map stmt_tree front) (number_block (block_tree body.now) self.old.next))
            result self.new.next }
    {
        let stmts = self.stmts_after(front, body.stmts.as_slice())?;
        Ok(Block { at: body.at, stmts })
    }

    fn plain_ctor(&mut self, ctor: &Ctor) -> Result<Ctor, Memory>
        ensures { Gives ctor_tree (number_ctor (ctor_tree ctor.now) self.old.next) result self.new.next }
    {
        let params = self.params(ctor.params.as_slice())?;
        let inits = self.inits(ctor.inits.as_slice())?;
        let body = self.block(&ctor.body)?;
        Ok(Ctor {
            name: ctor.name,
            params,
            inits,
            body,
        })
    }

    #[tactic(auto, using(crate::proofs::Bodies::block_after_is))]
    fn ctor_assigning(
        &mut self,
        base: Option<Name>,
        members: &Members,
        ctor: &Ctor,
    ) -> Result<Ctor, Memory>
        requires { spec.are_meant base members.now (ctor_tree ctor.now).inits ≡ true }
        ensures { Gives ctor_tree
            (number_ctor (ctor_assigning base members.now (ctor_tree ctor.now)) self.old.next)
            result self.new.next }
    {
        let params = self.params(ctor.params.as_slice())?;
        let inits = self.base_inits(base, ctor.inits.as_slice())?;
        let front = self.assignments(base, ctor.inits.as_slice(), members)?;
        let body = self.block_after(front, &ctor.body)?;
        Ok(Ctor {
            name: ctor.name,
            params,
            inits,
            body,
        })
    }

    /// A constructor, its member initialisers made assignments where all initialisers are meant so.
    pub(crate) fn ctor(
        &mut self,
        base: Option<Name>,
        members: &Members,
        ctor: &Ctor,
    ) -> Result<Ctor, Memory>
        ensures { Gives ctor_tree
            (number_ctor (assigning_ctor base members.now (ctor_tree ctor.now)) self.old.next)
            result self.new.next }
    {
        if are_meant(self.alloc, base, members, ctor.inits.as_slice())? {
            return self.ctor_assigning(base, members, ctor);
        }
        self.plain_ctor(ctor)
    }
}
