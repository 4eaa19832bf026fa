//! What copies, and the parts that aren't trees.

ghost use Rattle.std.specs.Prelude.{◌≡◌, IfOk};

use agxx_base::{Memory, Text};
use cxx_tree::{Param, Quoted};
use sqlite_items::Items;
use std::alloc::Global;

/// Copies trees. Without memory there is no copy.
#[derive(Clone, Copy)]
pub struct Copier {
    pub alloc: Global,
}

impl Copier {
    /// A string in quotes.
    pub fn quoted(self, quoted: &Quoted) -> Result<Quoted, Memory>
        ensures { IfOk result (λ q. q ≡ quoted.now) }
    {
        Ok(Quoted {
            at: quoted.at,
            bytes: Text::from_bytes(self.alloc, quoted.bytes.bytes())?,
        })
    }

    /// The parameters of a function, constructor or advice.
    pub fn params(self, params: &[Param]) -> Result<Items<Param>, Memory>
        ensures { IfOk result (λ ps. ps ≡ params.now) }
    {
        Ok(Items::from_slice(self.alloc, params)?)
    }
}
