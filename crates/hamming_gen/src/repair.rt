//! The statements that repair a part.

ghost use Rattle.std.specs.Prelude.{◌≡◌, ◌++◌, map, IfOk, OnOk};
ghost use Rattle.cxx_tree.specs.ExprTree.{expr_tree};
ghost use Rattle.cxx_tree.specs.StmtTree.{stmt_tree};
ghost use Rattle.hamming_gen.specs.HammingTrees as spec;

use crate::chains::{
    all_joined, differing, extended, inverted, joined, masked, matched, word_local,
};
use crate::lists::{covered, fault_names, sum_names, word_names};
use crate::words::{CheckWord, MemberWord, PartWords};
use agxx_base::{Memory, NumKind};
use cxx_make::Maker;
use cxx_tree::{BinOp, Expr, Stmt, UnOp};
use sqlite_items::Items;

/// A member as a word of 64 bits.
fn extend(maker: Maker, member: MemberWord) -> Result<Stmt, Memory>
    ensures { IfOk result (λ stmt. stmt_tree stmt ≡ spec.extend maker.at member) }
{
    let value = extended(maker, member.member)?;
    Ok(word_local(maker, member.word, value))
}

/// Each member as a word of 64 bits.
pub(crate) fn extend_each(maker: Maker, members: &[MemberWord]) -> Result<Items<Stmt>, Memory>
    ensures { IfOk result (λ stmts. map stmt_tree stmts ≡ map (spec.extend maker.at) members.now) }
{
    let mut stmts = Items::new(maker.alloc);
    for member in members {
        stmts.push(extend(maker, *member)?)?;
    }
    Ok(stmts)
}

fn sum_local(maker: Maker, words: &PartWords, check: CheckWord) -> Result<Stmt, Memory>
    ensures { IfOk result (λ stmt. stmt_tree stmt ≡ spec.sum_local maker.at words.now check) }
{
    let names = covered(maker.alloc, check.position, words.members.as_slice())?;
    let first = maker.variable(check.name);
    let value = joined(maker, BinOp::BitXor, first, names.as_slice())?;
    Ok(word_local(maker, check.sum, value))
}

fn sum_each(maker: Maker, words: &PartWords, checks: &[CheckWord]) -> Result<Items<Stmt>, Memory>
    ensures { IfOk result (λ stmts. map stmt_tree stmts
        ≡ map (spec.sum_local maker.at words.now) checks.now) }
{
    let mut stmts = Items::new(maker.alloc);
    for check in checks {
        stmts.push(sum_local(maker, words, *check)?)?;
    }
    Ok(stmts)
}

fn total_local(maker: Maker, words: &PartWords) -> Result<Stmt, Memory>
    ensures { IfOk result (λ stmt. stmt_tree stmt ≡ spec.total_local maker.at words.now) }
{
    let checks = words.checks.as_slice();
    let names = word_names(maker.alloc, checks, words.members.as_slice())?;
    let first = maker.variable(words.parity);
    let value = joined(maker, BinOp::BitXor, first, names.as_slice())?;
    Ok(word_local(maker, words.total, value))
}

fn uneven_local(maker: Maker, words: &PartWords) -> Result<Stmt, Memory>
    ensures { IfOk result (λ stmt. stmt_tree stmt ≡ spec.uneven_local maker.at words.now) }
{
    let names = sum_names(maker.alloc, words.checks.as_slice())?;
    let value = all_joined(maker, BinOp::BitOr, names.as_slice())?;
    Ok(word_local(maker, words.uneven, value))
}

/// The locals of words and their sums.
fn sum_locals(maker: Maker, words: &PartWords) -> Result<Items<Stmt>, Memory>
    ensures { IfOk result (λ stmts. map stmt_tree stmts ≡ spec.sum_locals maker.at words.now) }
{
    let mut stmts = extend_each(maker, words.members.as_slice())?;
    stmts.append(sum_each(maker, words, words.checks.as_slice())?)?;
    stmts.push(total_local(maker, words)?)?;
    stmts.push(uneven_local(maker, words)?)?;
    Ok(stmts)
}

/// The bit places where the word at this position is to be inverted.
fn fault_at(maker: Maker, words: &PartWords, position: usize) -> Result<Expr, Memory>
    ensures { IfOk result (λ e. expr_tree e ≡ spec.fault_at maker.at words.now position) }
{
    let total = maker.variable(words.total);
    matched(maker, total, position, words.checks.as_slice())
}

fn member_fault(maker: Maker, words: &PartWords, member: MemberWord) -> Result<Stmt, Memory>
    ensures { IfOk result (λ stmt. stmt_tree stmt ≡ spec.member_fault maker.at words.now member) }
{
    let fault = fault_at(maker, words, member.position)?;
    let value = masked(maker, member.member, fault)?;
    Ok(word_local(maker, member.fault, value))
}

fn member_faults(
    maker: Maker,
    words: &PartWords,
    members: &[MemberWord],
) -> Result<Items<Stmt>, Memory>
    ensures { IfOk result (λ stmts. map stmt_tree stmts
        ≡ map (spec.member_fault maker.at words.now) members.now) }
{
    let mut stmts = Items::new(maker.alloc);
    for member in members {
        stmts.push(member_fault(maker, words, *member)?)?;
    }
    Ok(stmts)
}

fn check_fault(maker: Maker, words: &PartWords, check: CheckWord) -> Result<Stmt, Memory>
    ensures { IfOk result (λ stmt. stmt_tree stmt ≡ spec.check_fault maker.at words.now check) }
{
    let value = fault_at(maker, words, check.position)?;
    Ok(word_local(maker, check.fault, value))
}

fn check_faults(
    maker: Maker,
    words: &PartWords,
    checks: &[CheckWord],
) -> Result<Items<Stmt>, Memory>
    ensures { IfOk result (λ stmts. map stmt_tree stmts
        ≡ map (spec.check_fault maker.at words.now) checks.now) }
{
    let mut stmts = Items::new(maker.alloc);
    for check in checks {
        stmts.push(check_fault(maker, words, *check)?)?;
    }
    Ok(stmts)
}

fn beyond_local(maker: Maker, words: &PartWords) -> Result<Stmt, Memory>
    ensures { IfOk result (λ stmt. stmt_tree stmt ≡ spec.beyond_local maker.at words.now) }
{
    let checks = words.checks.as_slice();
    let names = fault_names(maker.alloc, checks, words.members.as_slice())?;
    let faults = maker.paren(all_joined(maker, BinOp::BitOr, names.as_slice())?)?;
    let others = maker.unary(UnOp::Complement, faults)?;
    let value = maker.binary(BinOp::BitAnd, maker.variable(words.uneven), others)?;
    Ok(word_local(maker, words.beyond, value))
}

/// `std::abort();`
fn stopped(maker: Maker) -> Result<Items<Stmt>, Memory>
    ensures { IfOk result (λ stmts. map stmt_tree stmts ≡ spec.stopped maker.at) }
{
    let mut stmts = Items::new(maker.alloc);
    stmts.push(Stmt::Abort(maker.at))?;
    Ok(stmts)
}

/// Stops the program where a bit place can't be repaired.
fn stop_beyond(maker: Maker, words: &PartWords) -> Result<Stmt, Memory>
    ensures { IfOk result (λ stmt. stmt_tree stmt ≡ spec.stop_beyond maker.at words.now) }
{
    let none = maker.number(NumKind::U64, 0);
    let condition = maker.binary(BinOp::NotEqual, maker.variable(words.beyond), none)?;
    Ok(maker.when(condition, stopped(maker)?))
}

/// The locals of faults, and the stop where there are too many.
fn fault_locals(maker: Maker, words: &PartWords) -> Result<Items<Stmt>, Memory>
    ensures { IfOk result (λ stmts. map stmt_tree stmts ≡ spec.fault_locals maker.at words.now) }
{
    let mut stmts = member_faults(maker, words, words.members.as_slice())?;
    stmts.append(check_faults(maker, words, words.checks.as_slice())?)?;
    stmts.push(beyond_local(maker, words)?)?;
    stmts.push(stop_beyond(maker, words)?)?;
    Ok(stmts)
}

fn mend_member(maker: Maker, member: MemberWord) -> Result<Stmt, Memory>
    ensures { IfOk result (λ stmt. stmt_tree stmt ≡ spec.mend_member maker.at member) }
{
    let value = differing(maker, member.word, member.fault)?;
    Ok(maker.assign(member.member.name.item, value))
}

fn mend_members(maker: Maker, members: &[MemberWord]) -> Result<Items<Stmt>, Memory>
    ensures { IfOk result (λ stmts. map stmt_tree stmts
        ≡ map (spec.mend_member maker.at) members.now) }
{
    let mut stmts = Items::new(maker.alloc);
    for member in members {
        stmts.push(mend_member(maker, *member)?)?;
    }
    Ok(stmts)
}

fn mend_check(maker: Maker, check: CheckWord) -> Result<Stmt, Memory>
    ensures { IfOk result (λ stmt. stmt_tree stmt ≡ spec.mend_check maker.at check) }
{
    let value = differing(maker, check.name, check.fault)?;
    Ok(maker.assign(check.name, value))
}

fn mend_checks(maker: Maker, checks: &[CheckWord]) -> Result<Items<Stmt>, Memory>
    ensures { IfOk result (λ stmts. map stmt_tree stmts
        ≡ map (spec.mend_check maker.at) checks.now) }
{
    let mut stmts = Items::new(maker.alloc);
    for check in checks {
        stmts.push(mend_check(maker, *check)?)?;
    }
    Ok(stmts)
}

fn mend_parity(maker: Maker, words: &PartWords) -> Result<Stmt, Memory>
    ensures { IfOk result (λ stmt. stmt_tree stmt ≡ spec.mend_parity maker.at words.now) }
{
    let even = inverted(maker, words.uneven)?;
    let fault = maker.binary(BinOp::BitAnd, maker.variable(words.total), even)?;
    let parity = maker.variable(words.parity);
    let value = maker.binary(BinOp::BitXor, parity, maker.paren(fault)?)?;
    Ok(maker.assign(words.parity, value))
}

/// All words are repaired.
fn mends(maker: Maker, words: &PartWords) -> Result<Items<Stmt>, Memory>
    ensures { IfOk result (λ stmts. map stmt_tree stmts ≡ spec.mends maker.at words.now) }
{
    let mut stmts = mend_members(maker, words.members.as_slice())?;
    stmts.append(mend_checks(maker, words.checks.as_slice())?)?;
    stmts.push(mend_parity(maker, words)?)?;
    Ok(stmts)
}

/// The statements that repair a part.
pub(crate) fn repair_words(maker: Maker, words: &PartWords) -> Result<Items<Stmt>, Memory>
    ensures { IfOk result (λ stmts. map stmt_tree stmts ≡ spec.repair_words maker.at words.now) }
{
    let mut stmts = sum_locals(maker, words)?;
    stmts.append(fault_locals(maker, words)?)?;
    stmts.append(mends(maker, words)?)?;
    Ok(stmts)
}
