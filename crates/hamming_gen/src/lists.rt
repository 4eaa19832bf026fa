//! Lists of names of words and locals.

ghost use Rattle.std.specs.Prelude.{◌≡◌, IfOk};
ghost use Rattle.hamming_gen.specs.HammingTrees as spec;

use crate::words::{CheckWord, MemberWord};
use agxx_base::{ListOf, Memory, NameId};
use std::alloc::Global;

/// Whether the check word at a power of two covers this position.
pub(crate) fn covers(power: usize, position: usize) -> bool
    ensures { result ≡ spec.covers power position }
{
    position & power != 0
}

/// The words of the members that the check word at a power of two covers.
pub(crate) fn covered(
    alloc: Global,
    power: usize,
    members: &[MemberWord],
) -> Result<ListOf<NameId>, Memory>
    ensures { IfOk result (λ names. names ≡ spec.covered power members.now) }
{
    let mut names = ListOf::new(alloc);
    for member in members {
        if covers(power, member.position) {
            names.push(member.word)?;
        }
    }
    Ok(names)
}

/// The sums of check words.
pub(crate) fn sum_names(alloc: Global, checks: &[CheckWord]) -> Result<ListOf<NameId>, Memory>
    ensures { IfOk result (λ names. names ≡ spec.sum_names checks.now) }
{
    let mut names = ListOf::new(alloc);
    for check in checks {
        names.push(check.sum)?;
    }
    Ok(names)
}

/// All words but the parity.
pub(crate) fn word_names(
    alloc: Global,
    checks: &[CheckWord],
    members: &[MemberWord],
) -> Result<ListOf<NameId>, Memory>
    ensures { IfOk result (λ names. names ≡ spec.word_names checks.now members.now) }
{
    let mut names = ListOf::new(alloc);
    for check in checks {
        names.push(check.name)?;
    }
    for member in members {
        names.push(member.word)?;
    }
    Ok(names)
}

/// All locals for faults.
pub(crate) fn fault_names(
    alloc: Global,
    checks: &[CheckWord],
    members: &[MemberWord],
) -> Result<ListOf<NameId>, Memory>
    ensures { IfOk result (λ names. names ≡ spec.fault_names checks.now members.now) }
{
    let mut names = ListOf::new(alloc);
    for member in members {
        names.push(member.fault)?;
    }
    for check in checks {
        names.push(check.fault)?;
    }
    Ok(names)
}
