//! Copies of parts, with numbers of nodes given anew.

ghost use Rattle.std.specs.Prelude.{◌≡◌, ◌^◌, ◌≤◌, suc, IfOk, OnOk};
ghost use Rattle.cxx_normal.specs.Gives.{Gives};
ghost use Rattle.cxx_normal.specs.Numbers.{numbered, number_ref, number_base};
ghost use Rattle.cxx_normal.specs.Numbers.{number_selector, number_left, number_callee};

use agxx_base::{Memory, NodeId, Text};
use cxx_tree::{Base, Callee, Left, Node, Param, Quoted, Ref, Selector};
use sqlite_items::Items;
use std::alloc::Global;

/// Copies parts in text order, and gives each node the next number.
#[derive(Drop)]
pub(crate) struct Numbering {
    pub(crate) alloc: Global,
    pub(crate) next: u64,
}

impl Numbering {
    /// The node with the next number, if that number is below 2^32.
    pub(crate) fn node(&mut self, node: Node) -> Result<Node, Memory>
        ensures node { IfOk result (λ n. n ≡ numbered node self.old.next) }
        ensures next { OnOk result (self.new.next ≡ suc self.old.next) }
    {
        if self.next > u32::MAX as u64 {
            return Err(Memory);
        }
        let id = NodeId(self.next as u32);
        self.next += 1;
        Ok(Node { at: node.at, id })
    }

    pub(crate) fn reference(&mut self, reference: Ref) -> Result<Ref, Memory>
        ensures { Gives (λ r. r) (number_ref reference self.old.next) result self.new.next }
    {
        let node = self.node(reference.node)?;
        Ok(Ref {
            node,
            global: reference.global,
            name: reference.name,
        })
    }

    fn base(&mut self, base: Base) -> Result<Base, Memory>
        ensures { Gives (λ b. b) (number_base base self.old.next) result self.new.next }
    {
        match base {
            Base::This => Ok(Base::This),
            Base::Dot(reference) => Ok(Base::Dot(self.reference(reference)?)),
            Base::Arrow(reference) => Ok(Base::Arrow(self.reference(reference)?)),
        }
    }

    fn selector(&mut self, selector: Selector) -> Result<Selector, Memory>
        ensures { Gives (λ q. q) (number_selector selector self.old.next) result self.new.next }
    {
        let base = self.base(selector.base)?;
        Ok(Selector {
            base,
            name: selector.name,
        })
    }

    pub(crate) fn left(&mut self, left: Left) -> Result<Left, Memory>
        ensures { Gives (λ l. l) (number_left left self.old.next) result self.new.next }
    {
        match left {
            Left::Name(reference) => Ok(Left::Name(self.reference(reference)?)),
            Left::Member(node, selector) => {
                let node = self.node(node)?;
                Ok(Left::Member(node, self.selector(selector)?))
            }
            Left::Result(node) => Ok(Left::Result(self.node(node)?)),
        }
    }

    pub(crate) fn callee(&mut self, callee: Callee) -> Result<Callee, Memory>
        ensures { Gives (λ c. c) (number_callee callee self.old.next) result self.new.next }
    {
        match callee {
            Callee::Bare(reference) => Ok(Callee::Bare(self.reference(reference)?)),
            Callee::Member(selector) => Ok(Callee::Member(self.selector(selector)?)),
        }
    }

    pub(crate) fn quoted(&self, quoted: &Quoted) -> Result<Quoted, Memory>
        ensures { IfOk result (λ q. q ≡ quoted.now) }
    {
        Ok(Quoted {
            at: quoted.at,
            bytes: Text::from_bytes(self.alloc, quoted.bytes.bytes())?,
        })
    }

    pub(crate) fn params(&self, params: &[Param]) -> Result<Items<Param>, Memory>
        ensures { IfOk result (λ ps. ps ≡ params.now) }
    {
        Ok(Items::from_slice(self.alloc, params)?)
    }
}
