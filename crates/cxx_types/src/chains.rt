//! The advice at join points, as a machine runs it.

ghost use Rattle.std.specs.Prelude.{◌≡◌, []};

use agxx_base::{ClassId, FnId, ListOf, Place};
use std::alloc::Global;
use std::marker::Model;

/// What happens at a join point.
#[derive(Clone, Copy, Debug, PartialEq, Eq)]
pub enum PointKind {
    Call,
    Execution,
    Construction,
    Destruction,
}

/// A point of a program at which advice may run.
#[derive(Clone, Copy, Debug, PartialEq, Eq)]
pub struct JoinPoint {
    pub kind: PointKind,
    /// The function called or executed, or the constructor or destructor.
    pub function: FnId,
    /// The class that declares it, none for a free function.
    pub class: Option<ClassId>,
    /// The static class of the object of a call, and the class of an execution; none for free functions, construction
    /// and destruction.
    pub target: Option<ClassId>,
    /// The function in which a call lies, none in the arguments of a global object; else the function itself.
    pub inside: Option<FnId>,
    pub at: Place,
}

/// Advice at a join point: the aspect's number among those with an object, and the number of the advice in it.
#[derive(Clone, Copy, Debug, PartialEq, Eq)]
pub struct Link {
    pub aspect: u32,
    pub advice: u32,
}

/// The advice at a join point, from the outermost in.
pub type Links = ListOf<Link>;

/// A join point with its advice.
#[derive(Drop)]
pub struct Chain {
    pub point: JoinPoint,
    pub links: Links,
}

/// What a machine needs of aspects: the join points that have advice. A later layer adds them.
#[derive(Drop)]
pub struct Chains {
    chains: ListOf<Chain>,
}

impl Model for Chains {
    ghost use Rattle.std.specs.Prelude.{List};
    ghost use Rattle.cxx_types.specs.declared.chains.Chain.{Chain};

    ghost Value = { List Chain };

    ghost view = { λ c. c.chains };
}

impl Chains {
    /// No aspect and no advice, which takes no memory.
    pub fn new(alloc: Global) -> Chains
        ensures { result ≡ [] }
    {
        Chains {
            chains: ListOf::new(alloc),
        }
    }
}
