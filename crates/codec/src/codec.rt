//! What every code generates.

ghost use Rattle.std.specs.Prelude.{◌≡◌, ◌++◌, ◌≤◌, map, IfOk, OnOk};
ghost use Rattle.cxx_tree.specs.StmtTree.{stmt_tree};
ghost use Rattle.codec.specs.Codes.{code_texts};

use crate::part::Part;
use agxx_base::{ListOf, Memory, Names, Text};
use cxx_tree::{Member, Stmt};
use sqlite_items::Items;
use std::alloc::Global;

/// A code: which words it adds to a part, and the statements that repair and renew them. What the words mean is its
/// `code`, whose laws are told beside each code. All names that it generates have numbers in `names` before.
pub trait Codec {
    ghost use Rattle.codec.specs.Codes.{Code};

    ghost code: { Self → Code };

    /// How many words it adds to so many members, of which there are 1 to 120.
    fn extra_words(&self, members: u32) -> u32
        requires { members ≤ 120 }
        ensures { result ≡ (code self.now).extra_words members };

    /// Adds the texts of the names that it generates for a part.
    fn add_texts(
        &self,
        alloc: Global,
        names: &Names,
        part: &Part,
        texts: &mut ListOf<Text>,
    ) -> Result<(), Memory>
        ensures { OnOk result (texts.new
            ≡ texts.old ++ code_texts (code self.now) names.now part.now) };

    /// The members for the words that it adds.
    fn emit_members(
        &self,
        alloc: Global,
        names: &Names,
        part: &Part,
    ) -> Result<Items<Member>, Memory>
        ensures { IfOk result (λ members. members ≡ (code self.now).members names.now part.now) };

    /// The statements that repair a part.
    fn emit_repair(&self, alloc: Global, names: &Names, part: &Part) -> Result<Items<Stmt>, Memory>
        ensures { IfOk result (λ stmts. map stmt_tree stmts
            ≡ (code self.now).repair names.now part.now) };

    /// The statements that renew what was added to a part.
    fn emit_renew(&self, alloc: Global, names: &Names, part: &Part) -> Result<Items<Stmt>, Memory>
        ensures { IfOk result (λ stmts. map stmt_tree stmts
            ≡ (code self.now).renew names.now part.now) };
}
