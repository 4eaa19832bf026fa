//! Two copies of each member.

ghost use Rattle.std.specs.Prelude.{◌≡◌, ◌++◌, map, codes, IfOk, OnOk, length};
ghost use Rattle.cxx_tree.specs.ExprTree.{expr_tree};
ghost use Rattle.cxx_tree.specs.StmtTree.{stmt_tree};
ghost use Rattle.codec.specs.Part.{place_of, texts_of};
ghost use Rattle.codec.specs.Copies as spec;

use crate::codec::Codec;
use crate::names::{push_texts, push_votes, vote};
use crate::part::{Part, unsigned_type};
use agxx_base::{ListOf, Memory, NameId, Names, Text};
use cxx_make::{Maker, named_after};
use cxx_tree::{BinOp, Expr, Member, Stmt, TypeName};
use sqlite_items::Items;
use std::alloc::Global;

/// Two copies of each member: a bit is repaired to what at least two of three words have.
pub struct Copies;

impl Codec for Copies {
    ghost code = { λ c. spec.copies };

    fn extra_words(&self, members: u32) -> u32 {
        2 * members
    }

    fn add_texts(
        &self,
        alloc: Global,
        names: &Names,
        part: &Part,
        texts: &mut ListOf<Text>,
    ) -> Result<(), Memory> {
        add_texts(alloc, names, part.members.as_slice(), texts)
    }

    fn emit_members(
        &self,
        alloc: Global,
        names: &Names,
        part: &Part,
    ) -> Result<Items<Member>, Memory> {
        copies_of(maker_at(alloc, part), names, part.members.as_slice())
    }

    fn emit_repair(
        &self,
        alloc: Global,
        names: &Names,
        part: &Part,
    ) -> Result<Items<Stmt>, Memory> {
        repair_each(maker_at(alloc, part), names, part.members.as_slice())
    }

    fn emit_renew(&self, alloc: Global, names: &Names, part: &Part) -> Result<Items<Stmt>, Memory> {
        renew_each(maker_at(alloc, part), names, part.members.as_slice())
    }
}

/// Makes what is generated for a part.
fn maker_at(alloc: Global, part: &Part) -> Maker
    ensures { result.at ≡ place_of part.now }
{
    Maker {
        alloc,
        at: part.class.at,
    }
}

/// Adds the texts of the names of the copies of these members, and of the locals for their votes.
fn add_texts(
    alloc: Global,
    names: &Names,
    members: &[Member],
    texts: &mut ListOf<Text>,
) -> Result<(), Memory>
    ensures { OnOk result (texts.new ≡ texts.old ++ ((
        map (λ m. codes "__gop_c1_" ++ m) (texts_of names.now members.now)
        ++ map (λ m. codes "__gop_c2_" ++ m) (texts_of names.now members.now))
        ++ spec.vote_texts 1 (length members.now))) }
{
    push_texts(alloc, b"__gop_c1_", names, members, texts)?;
    push_texts(alloc, b"__gop_c2_", names, members, texts)?;
    push_votes(alloc, members.len(), texts)
}

/// The name of a member's first copy.
fn first_copy(alloc: Global, names: &Names, member: Member) -> Result<NameId, Memory>
    ensures { IfOk result (λ name. name ≡ spec.first_copy names.now member) }
{
    named_after(alloc, names, b"__gop_c1_", member.name.item)
}

/// The name of a member's second copy.
fn second_copy(alloc: Global, names: &Names, member: Member) -> Result<NameId, Memory>
    ensures { IfOk result (λ name. name ≡ spec.second_copy names.now member) }
{
    named_after(alloc, names, b"__gop_c2_", member.name.item)
}

fn first_member(maker: Maker, names: &Names, member: Member) -> Result<Member, Memory>
    ensures { IfOk result (λ copy. copy ≡ spec.first_member names.now maker.at member) }
{
    let kind = TypeName::Num(unsigned_type(member.type_name.item));
    Ok(maker.member(kind, first_copy(maker.alloc, names, member)?))
}

fn first_copies(maker: Maker, names: &Names, members: &[Member]) -> Result<Items<Member>, Memory>
    ensures { IfOk result (λ copies. copies
        ≡ map (spec.first_member names.now maker.at) members.now) }
{
    let mut copies = Items::new(maker.alloc);
    for member in members {
        copies.push(first_member(maker, names, *member)?)?;
    }
    Ok(copies)
}

fn second_member(maker: Maker, names: &Names, member: Member) -> Result<Member, Memory>
    ensures { IfOk result (λ copy. copy ≡ spec.second_member names.now maker.at member) }
{
    let kind = TypeName::Num(unsigned_type(member.type_name.item));
    Ok(maker.member(kind, second_copy(maker.alloc, names, member)?))
}

fn second_copies(maker: Maker, names: &Names, members: &[Member]) -> Result<Items<Member>, Memory>
    ensures { IfOk result (λ copies. copies
        ≡ map (spec.second_member names.now maker.at) members.now) }
{
    let mut copies = Items::new(maker.alloc);
    for member in members {
        copies.push(second_member(maker, names, *member)?)?;
    }
    Ok(copies)
}

/// The first copies of these members, and then the second ones.
fn copies_of(maker: Maker, names: &Names, members: &[Member]) -> Result<Items<Member>, Memory>
    ensures { IfOk result (λ copies. copies ≡
        map (spec.first_member names.now maker.at) members.now
        ++ map (spec.second_member names.now maker.at) members.now) }
{
    let mut copies = first_copies(maker, names, members)?;
    copies.append(second_copies(maker, names, members)?)?;
    Ok(copies)
}

/// `(U(m) & copy)`
fn agreed(maker: Maker, member: Member, copy: NameId) -> Result<Expr, Memory>
    ensures { IfOk result (λ e. expr_tree e ≡ spec.agreed maker.at member copy) }
{
    let kind = unsigned_type(member.type_name.item);
    let value = maker.cast(kind, maker.variable(member.name.item))?;
    maker.paren(maker.binary(BinOp::BitAnd, value, maker.variable(copy))?)
}

/// `(first & second)`
fn copies_agreed(maker: Maker, names: &Names, member: Member) -> Result<Expr, Memory>
    ensures { IfOk result (λ e. expr_tree e ≡ spec.copies_agreed names.now maker.at member) }
{
    let first = maker.variable(first_copy(maker.alloc, names, member)?);
    let second = maker.variable(second_copy(maker.alloc, names, member)?);
    maker.paren(maker.binary(BinOp::BitAnd, first, second)?)
}

/// What at least two of a member and its copies have.
fn vote_of(maker: Maker, names: &Names, member: Member) -> Result<Expr, Memory>
    ensures { IfOk result (λ e. expr_tree e ≡ spec.vote_of names.now maker.at member) }
{
    let with_first = agreed(maker, member, first_copy(maker.alloc, names, member)?)?;
    let with_second = agreed(maker, member, second_copy(maker.alloc, names, member)?)?;
    let with_member = maker.binary(BinOp::BitOr, with_first, with_second)?;
    maker.binary(
        BinOp::BitOr,
        with_member,
        copies_agreed(maker, names, member)?,
    )
}

/// `U(m) vote = ..;`
fn vote_local(maker: Maker, names: &Names, number: usize, member: Member) -> Result<Stmt, Memory>
    ensures { IfOk result (λ stmt. stmt_tree stmt
        ≡ spec.vote_local names.now maker.at number member) }
{
    let kind = TypeName::Num(unsigned_type(member.type_name.item));
    let local = vote(maker.alloc, names, number)?;
    Ok(maker.local(kind, local, vote_of(maker, names, member)?))
}

/// The words of a member take the value of a local.
fn take_vote(
    maker: Maker,
    names: &Names,
    local: NameId,
    member: Member,
    stmts: &mut Items<Stmt>,
) -> Result<(), Memory>
    ensures { OnOk result (map stmt_tree stmts.new
        ≡ map stmt_tree stmts.old ++ spec.take_vote names.now maker.at local member) }
{
    let first = first_copy(maker.alloc, names, member)?;
    let second = second_copy(maker.alloc, names, member)?;
    stmts.push(maker.assign(member.name.item, maker.variable(local)))?;
    stmts.push(maker.assign(first, maker.variable(local)))?;
    stmts.push(maker.assign(second, maker.variable(local)))?;
    Ok(())
}

/// The vote of a member in a local, and the words that take its value.
fn repair_member(
    maker: Maker,
    names: &Names,
    number: usize,
    member: Member,
    stmts: &mut Items<Stmt>,
) -> Result<(), Memory>
    ensures { OnOk result (map stmt_tree stmts.new
        ≡ map stmt_tree stmts.old ++ spec.repair_member names.now maker.at number member) }
{
    stmts.push(vote_local(maker, names, number, member)?)?;
    take_vote(
        maker,
        names,
        vote(maker.alloc, names, number)?,
        member,
        stmts,
    )?;
    Ok(())
}

/// Repairs these members, one after the other.
fn repair_each(maker: Maker, names: &Names, members: &[Member]) -> Result<Items<Stmt>, Memory>
    ensures { IfOk result (λ stmts. map stmt_tree stmts
        ≡ spec.repair_from names.now maker.at 1 members.now) }
{
    let mut stmts = Items::new(maker.alloc);
    for index in 0..members.len() {
        repair_member(maker, names, index + 1, members[index], &mut stmts)?;
    }
    Ok(stmts)
}

/// The copies take the value of a member.
fn renew_member(
    maker: Maker,
    names: &Names,
    member: Member,
    stmts: &mut Items<Stmt>,
) -> Result<(), Memory>
    ensures { OnOk result (map stmt_tree stmts.new
        ≡ map stmt_tree stmts.old ++ spec.renew_member names.now maker.at member) }
{
    let first = first_copy(maker.alloc, names, member)?;
    let second = second_copy(maker.alloc, names, member)?;
    stmts.push(maker.assign(first, maker.variable(member.name.item)))?;
    stmts.push(maker.assign(second, maker.variable(member.name.item)))?;
    Ok(())
}

/// Renews the copies of these members, one after the other.
fn renew_each(maker: Maker, names: &Names, members: &[Member]) -> Result<Items<Stmt>, Memory>
    ensures { IfOk result (λ stmts. map stmt_tree stmts
        ≡ spec.renew_each names.now maker.at members.now) }
{
    let mut stmts = Items::new(maker.alloc);
    for member in members {
        renew_member(maker, names, *member, &mut stmts)?;
    }
    Ok(stmts)
}
