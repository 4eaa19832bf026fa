//! The statements that renew the words that are added to a part.

ghost use Rattle.std.specs.Prelude.{◌≡◌, ◌++◌, map, IfOk};
ghost use Rattle.cxx_tree.specs.StmtTree.{stmt_tree};
ghost use Rattle.hamming_gen.specs.HammingTrees as spec;

use crate::chains::all_joined;
use crate::lists::{covered, word_names};
use crate::repair::extend_each;
use crate::words::{CheckWord, PartWords};
use agxx_base::Memory;
use cxx_make::Maker;
use cxx_tree::{BinOp, Stmt};
use sqlite_items::Items;

/// A check word takes the sum of the members that it covers.
fn renew_check(maker: Maker, words: &PartWords, check: CheckWord) -> Result<Stmt, Memory>
    ensures { IfOk result (λ stmt. stmt_tree stmt ≡ spec.renew_check maker.at words.now check) }
{
    let names = covered(maker.alloc, check.position, words.members.as_slice())?;
    let value = all_joined(maker, BinOp::BitXor, names.as_slice())?;
    Ok(maker.assign(check.name, value))
}

fn renew_checks(
    maker: Maker,
    words: &PartWords,
    checks: &[CheckWord],
) -> Result<Items<Stmt>, Memory>
    ensures { IfOk result (λ stmts. map stmt_tree stmts
        ≡ map (spec.renew_check maker.at words.now) checks.now) }
{
    let mut stmts = Items::new(maker.alloc);
    for check in checks {
        stmts.push(renew_check(maker, words, *check)?)?;
    }
    Ok(stmts)
}

/// The parity takes the sum of all other words.
fn renew_parity(maker: Maker, words: &PartWords) -> Result<Stmt, Memory>
    ensures { IfOk result (λ stmt. stmt_tree stmt ≡ spec.renew_parity maker.at words.now) }
{
    let checks = words.checks.as_slice();
    let names = word_names(maker.alloc, checks, words.members.as_slice())?;
    let value = all_joined(maker, BinOp::BitXor, names.as_slice())?;
    Ok(maker.assign(words.parity, value))
}

/// The statements that renew a part.
pub(crate) fn renew_words(maker: Maker, words: &PartWords) -> Result<Items<Stmt>, Memory>
    ensures { IfOk result (λ stmts. map stmt_tree stmts ≡ spec.renew_words maker.at words.now) }
{
    let mut stmts = extend_each(maker, words.members.as_slice())?;
    stmts.append(renew_checks(maker, words, words.checks.as_slice())?)?;
    stmts.push(renew_parity(maker, words)?)?;
    Ok(stmts)
}
